//! What comes of matches.

use crate::bindings::Bindings;
use bit_store::Window;

/// What comes of a match.
#[derive(Drop)]
pub enum Matched {
    /// All bindings, those that were there before it first.
    Yes(Bindings),
    No,
    /// A bound is passed.
    Limit,
}

/// What comes of taking segments off the front of bits.
#[derive(Drop)]
pub enum Taken {
    /// All bindings, and the bits behind the segments.
    Yes(Bindings, Window),
    No,
    /// A bound is passed.
    Limit,
}

/// What a bit generator finds in front of its bits.
#[derive(Drop)]
pub enum Front {
    /// A row, with all bindings, and the bits behind those that it takes.
    Found(Bindings, Window),
    /// The pattern doesn't match here: the bits behind those that its shape takes.
    Skipped(Window),
    Ends,
    /// A bound is passed.
    AtLimit,
}
