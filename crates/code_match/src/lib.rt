//! Patterns, guards and clauses of a module laid out as code, over bindings that are kept beside them.
#![tactic(auto)]

mod bindings;
mod clauses;
mod guards;
mod meeting;
mod outcome;
mod patterns;
mod primitives;
mod segments;

pub use bindings::Bindings;
pub use clauses::{Choice, chosen};
pub use guards::{Verdict, guard_holds, result_of};
pub use outcome::{Front, Matched, Taken};
pub use patterns::{all_matched, each_matched, matched};
pub use primitives::primitive;
pub use segments::{all_taken, front};
