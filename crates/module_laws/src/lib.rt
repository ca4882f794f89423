//! Laws of modules that were read from a text.
#![tactic(auto)]

mod guards;
mod literals;
mod numbers;
mod places;

pub use guards::guards_have_form;
pub use literals::{literals_are_bounded, machines_are_bounded, runs_are_bounded};
pub use numbers::{numbers_are_of_places, numbers_differ};
pub use places::{tokens_rise, variables_rise, words_rise};
