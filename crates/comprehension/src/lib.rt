//! The rows of bit generators, one at a time, in place, over any store of bitstrings.
#![tactic(auto)]

mod rows;

pub use rows::{Row, Rows};
