//! The top call of the program: what the words of a command line ask for, done over the ports that it is given.
#![tactic(auto)]

mod command;
mod copying;
mod plain;
mod program;
mod running;

pub use command_answers::Status;
pub use plain::Plain;
pub use program::{top, top_plain};
