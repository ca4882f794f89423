//! Rooms: written bits with spare room behind them, and what each write moves.
//!
//! Lengths, offsets and sizes are in bits.
#![tactic(auto)]

mod laws;
mod room;

pub use laws::appends_are_bounded;
pub use room::Room;
use thiserror::Error;

/// Why a room didn't take bits. The room and the ledger stand as they were.
#[derive(Clone, Copy, Debug, PartialEq, Eq, Drop, Error)]
pub enum RoomFault {
    /// The written bits would be more than `MAX_BITS`.
    #[error("too long")]
    TooLong,
    /// The room has to grow, and there is no memory.
    #[error("out of memory")]
    NoMemory,
}
