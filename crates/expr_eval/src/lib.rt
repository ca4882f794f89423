//! The operators and the built-in functions on values, over any store of bitstrings.
#![tactic(auto)]

mod bodies;
mod bytes;
mod caller;
mod digits;
mod guards;
mod items;
mod joined;
mod kinds;
mod operators;
mod parts;
mod reason;
mod rows;
mod sizes;

pub use bodies::built_in;
pub use caller::Caller;
pub use guards::guard_built_in;
pub use operators::{binary_op, prefix_op};
pub use reason::{Answer, EvalFault, Reason};
