//! Tests of the top call and of its ports: whole calls, by what they answer and write. The crates below keep no tests of their own.
#![tactic(auto)]

#[cfg(test)]
mod calling;
#[cfg(test)]
mod copy_tests;
#[cfg(test)]
mod gen_tests;
#[cfg(test)]
mod port_tests;
#[cfg(test)]
mod process_tests;
#[cfg(test)]
mod run_tests;
#[cfg(test)]
mod word_tests;
