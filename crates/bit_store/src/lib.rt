//! Stores of bitstrings: what operations ask of one, and the plain store, whose bitstrings are immutable and shared.
//!
//! Offsets and lengths are in bits, but where a name says bytes.
#![tactic(auto)]

mod piece;
mod plain;
mod store;
mod store_look;
mod window;

pub use piece::{Piece, total_bits};
pub use plain::PlainStore;
pub use store::{Store, StoreFault};
pub use store_look::StoreLook;
pub use window::Window;
