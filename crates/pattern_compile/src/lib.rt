//! Programs of operations that match bit patterns.
//!
//! Lengths and units are in bits.
#![tactic(auto)]

mod compiling;
mod operation;
mod pattern;

pub use compiling::{compile, shape};
pub use operation::{MatchProgram, Operation, SizedOperation};
pub use pattern::{PatSegment, SizeForm, Target, Want};
