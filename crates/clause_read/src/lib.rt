//! Modules read from their texts: the module that a text spells, or the first token with which no module can go on.
#![tactic(auto)]

mod forms;
mod numbering;
mod read;
mod second;

pub use numbering::atoms_stand_once;
pub use read::{ReadCause, ReadFault, read_module};
