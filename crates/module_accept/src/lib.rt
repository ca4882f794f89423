//! Whether a text is that of an accepted module, or the line with which it is refused.
#![tactic(auto)]

mod accepting;
mod causes;
mod lines;

pub use accepting::{Refusal, accept};
