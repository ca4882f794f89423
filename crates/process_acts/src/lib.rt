//! What those see of a process of the copying machine who deliver its messages: it runs to its next ask, and goes on with an answer.
#![tactic(auto)]

mod asking;
mod process;

pub use asking::{Asking, Turn};
pub use process::{First, Process};
