//! The heap of one process: references to bitstrings, the cells that hold their bits, appends in place, and the sweep.
//!
//! Offsets, lengths and sizes are in bits.
#![tactic(auto)]

mod adopting;
mod cell;
mod heap;
mod laws;
mod parcel;
mod reference;
mod store;
mod sweeping;
mod writing;

pub use heap::Heap;
pub use laws::accumulators_move_few;
pub use parcel::{Parcel, discard};
pub use reference::BitRef;
pub use sweeping::Swept;
