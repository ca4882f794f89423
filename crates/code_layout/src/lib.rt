//! A checked module laid out as code: each variable by its number, each call by what it calls, each segment with its type.
#![tactic(auto)]

mod called;
mod clauses;
mod expressions;
mod laying;
mod layout;
mod literals;
mod names;
mod numbers;
mod operations;
mod patterns;
mod qualifiers;
mod segments;
mod shapes;

pub use layout::lay_out;
