//! Values of variables, literals, what primitives give, guards and the sizes in patterns, over any store of bitstrings.
#![tactic(auto)]

mod access;
mod bindings;
mod construction;
mod evaluation;
mod guards;
mod lists;
mod literals;
mod primitives;
mod sizes;
mod storage;
mod variables;

pub use bindings::Bindings;
pub use guards::{Verdict, guard_holds, result_of};
pub use literals::literal;
pub use primitives::primitive;
pub use sizes::size_of;
pub use storage::Storage;
pub use variables::Variables;
