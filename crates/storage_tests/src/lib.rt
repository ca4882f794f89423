//! Tests of the rooms and of the heap of a process: calls in a row, what each gives and how many bits it moves. The crates below keep no tests of their own.
#![tactic(auto)]

#[cfg(test)]
mod append_tests;
#[cfg(test)]
mod given;
#[cfg(test)]
mod parcel_tests;
#[cfg(test)]
mod room_tests;
#[cfg(test)]
mod store_tests;
#[cfg(test)]
mod sweep_tests;
