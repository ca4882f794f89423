//! A process of the plain machine: it runs a module laid out as code, over terms whose bitstrings are shared and never changed.
#![tactic(auto)]

mod answering;
mod arguments;
mod asks;
mod inbox;
mod looking;
mod process;
mod receiving;
mod running;
mod settling;
mod stage;
mod standing;
mod starting;

pub use process::PlainProcess;
