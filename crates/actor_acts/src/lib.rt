//! What a process with storage of its own is to those who deliver its messages: it runs in slices to its next ask, and goes on with an
//! answer.
#![tactic(auto)]

mod actor;
mod ask;

pub use actor::{Actor, SLICE_REDUCTIONS};
pub use ask::{Account, Answer, Ask};
