//! Tests of bits, characters, terms, built and cut bitstrings and the texts of runs: what the definitions mean, row by row. The crates below keep no tests of their own.
#![tactic(auto)]

#[cfg(test)]
mod bit_tests;
#[cfg(test)]
mod built_in_tests;
#[cfg(test)]
mod character_tests;
#[cfg(test)]
mod construction_tests;
#[cfg(test)]
mod cut_tests;
#[cfg(test)]
mod given;
#[cfg(test)]
mod limit_tests;
#[cfg(test)]
mod operator_tests;
#[cfg(test)]
mod order_tests;
#[cfg(test)]
mod term_tests;
