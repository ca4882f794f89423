//! Expressions, guards, bodies and clauses read from their tokens: the tree that they spell, or the first token with which
//! none can go on.
#![tactic(auto)]

mod alternatives;
pub mod bodies;
mod choosing;
mod exprs;
mod items;
mod lists;
mod operand;
mod quals;
mod segments;
pub mod site;
