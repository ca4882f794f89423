//! Bit expressions: a bitstring built of its segments, over any store of bitstrings.
//!
//! Lengths are in bits.
#![tactic(auto)]

mod construction;
mod extent;
mod fault;
mod part;
mod segment;

pub use construction::build;
pub use extent::{Extent, reach};
pub use fault::BuildFault;
pub use part::Part;
