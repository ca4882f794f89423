//! Bit patterns: one segment taken off the front of bits, over any store of bitstrings.
//!
//! Offsets and lengths are in bits.
#![tactic(auto)]

mod characters;
mod cutting;
mod value;

pub use cutting::cut;
pub use value::{CutOff, CutValue};
