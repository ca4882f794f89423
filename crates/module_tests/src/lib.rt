//! Tests of reading and checking modules: what the definitions mean, row by row. The crates below keep no tests of their own.
#![tactic(auto)]

#[cfg(test)]
mod accepted_tests;
#[cfg(test)]
mod built_in_tests;
#[cfg(test)]
mod example_tests;
#[cfg(test)]
mod number_tests;
#[cfg(test)]
mod refused_tests;
#[cfg(test)]
mod saying;
#[cfg(test)]
mod segment_tests;
#[cfg(test)]
mod shared_place_tests;
#[cfg(test)]
mod syntax_tests;
#[cfg(test)]
mod token_tests;
#[cfg(test)]
mod tree_tests;
