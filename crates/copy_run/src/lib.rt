//! Runs and replays accepted modules on the plain machine, on one thread.
#![tactic(auto)]

mod module;
mod starting;

pub use module::{replay_module, run_module};
