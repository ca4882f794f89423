//! Matching: programs made of bit patterns, run on contexts that move over bits, over any store of bitstrings.
//!
//! Offsets and lengths are in bits.
#![tactic(auto)]

mod context;
mod env;
mod found;
mod matching;
mod sized;
mod wanted;

pub use context::Context;
pub use env::Env;
pub use matching::{Matched, release, run};
pub use sized::Sized128;
