//! Laws of accepted modules that were read from a text: where their variables are known, and what their guards call.
#![tactic(auto)]

mod guards;
mod scopes;

pub use guards::guard_calls_are_primitive;
pub use scopes::{accepted_is_scoped, machines_are_scoped, none_meets_unbound};
