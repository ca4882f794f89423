//! References to bitstrings.

use bits_value::SmallBits;
use shares::Share;
use std::alloc::AllocError;

/// A reference to a bitstring of a heap.
#[derive(Drop)]
pub enum BitRef {
    /// At most 512 bits, which lie in the reference and are copied with it.
    Small(SmallBits),
    /// The `len` bits from bit `off` on of the cell of this number.
    Part { cell: u32, off: u32, len: u32 },
}

impl Share for BitRef {
    fn share(&self) -> Result<BitRef, AllocError> {
        match self {
            BitRef::Small(bits) => Ok(BitRef::Small(bits.copy())),
            BitRef::Part { cell, off, len } => Ok(BitRef::Part {
                cell: *cell,
                off: *off,
                len: *len,
            }),
        }
    }
}
