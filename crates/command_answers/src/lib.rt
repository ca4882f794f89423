//! What the answers of commands say of the ports, and what all commands do alike: a module's text is read and accepted or refused, and a
//! text that is due is written.
#![tactic(auto)]

mod laws;
mod opening;
mod status;
mod streams;

pub use laws::{bad_or_legal, checks_well, copies_well, gens_well, runs_well};
pub use opening::{open, open_text, reported};
pub use status::Status;
pub use streams::{ReadError, read_all, write_all};
