//! Bitstrings as lists of bits over bytes: borrowed bits, the numbers that they spell, and writing into bytes.
//!
//! The bit of the greatest weight in a byte comes first. Offsets and lengths are in bits.
#![tactic(auto)]

mod bits;
mod copying;
mod frozen;
mod laws;
mod numbers;
mod ordering;
mod reading;
mod small;
mod steps;
mod writing;

pub use bits::{Bits, copy_bits, order};
pub use copying::copy_own;
pub use frozen::Frozen;
pub use laws::{number_reads_back, one_spelling};
pub use small::SmallBits;
pub use steps::Steps;
pub use writing::put;

/// The most bits that a bitstring may have, 2^27.
pub const MAX_BITS: u32 = 134_217_728;

/// Whether a segment's number has a sign (Erlang reference manual, "Bit Syntax Expressions", type specifier list).
#[derive(Debug, Copy, Clone, PartialEq, Eq, Drop)]
pub enum Sign {
    /// All weights are positive.
    Unsigned,
    /// The first bit's weight is negative: two's complement.
    Signed,
}

/// The order of a number's bytes in a segment (Erlang reference manual, "Bit Syntax Expressions").
#[derive(Debug, Copy, Clone, PartialEq, Eq, Drop)]
pub enum Endian {
    /// The first bit has the greatest weight.
    Big,
    /// Groups of eight bits from the front, the group of the lowest weights first. The last group has what remains.
    Little,
}

/// A character's encoding form (RFC 3629, RFC 2781).
#[derive(Debug, Copy, Clone, PartialEq, Eq, Drop)]
pub enum UtfKind {
    Utf8,
    Utf16,
    Utf32,
}
