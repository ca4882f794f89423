use crate::{PlainTerm, Tree};
use erl_syntax::{Listed, Typed};
use shares::Held;

/// A pattern.
#[derive(Drop)]
#[cycle(tree)]
pub enum Pattern {
    /// `_`.
    Anything,
    /// The number of the variable in its function.
    Variable(u32),
    Value(PlainTerm),
    Tuple(Listed<Pattern>),
    List(Listed<Pattern>),
    /// `[A, B | T]`.
    ListOn(Listed<Pattern>, Held<Pattern>),
    Bits(Listed<Segment>),
    /// Patterns joined by `=`: each matches the same value, left first.
    Same(Listed<Pattern>),
}

/// What a segment of a pattern wants.
#[derive(Drop)]
pub enum Target {
    /// `_`.
    Anything,
    /// The number of the variable in its function.
    Variable(u32),
    Equal(PlainTerm),
}

/// A segment of a bit pattern.
#[derive(Drop)]
#[cycle(tree)]
pub struct Segment {
    pub typed: Typed,
    pub target: Target,
    /// The size, where one is written.
    pub size: Option<Held<Tree>>,
}
