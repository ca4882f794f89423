//! Tests of programs made of bit patterns, their runs, and the rows of bit generators, over the plain store; and the environment in which they are tried.
#![tactic(auto)]

#[cfg(test)]
mod context_tests;
#[cfg(test)]
mod fitting;
#[cfg(test)]
mod given;
#[cfg(test)]
mod kind_tests;
#[cfg(test)]
mod pattern_tests;
#[cfg(test)]
mod row_tests;
#[cfg(test)]
mod segments;
mod slots;

pub use slots::{SizeRule, Slots};
