use crate::{Pattern, Segment, Tree};
use erl_syntax::Listed;

/// What a comprehension collects: the items of a list, or the bits of a bitstring.
#[derive(Clone, Copy, Debug, PartialEq, Eq)]
pub enum Collected {
    Items,
    Bits,
}

/// What a generator finds in its source.
#[derive(Drop)]
#[cycle(tree)]
pub enum Generator {
    /// `Pattern <- List`.
    InList(Pattern),
    /// `BitPattern <= Bitstring`: the pattern's segments, and its shape, whose bits are skipped where the pattern fails.
    InBits(Listed<Segment>, Listed<Segment>),
}

/// A qualifier of a comprehension.
#[derive(Drop)]
#[cycle(tree)]
pub enum Qualifier {
    /// A generator with its source.
    Generates(Tree, Generator),
    Filters(Tree),
}
