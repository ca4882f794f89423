use crate::{Expr, Listed, Span};

/// A segment of a bit expression or of a bit pattern.
///
/// In a pattern the value is a variable, `_`, a number, a character or a string.
#[derive(Debug, Drop)]
#[cycle(tree)]
pub struct Segment {
    pub at: Span,
    pub value: Expr,
    pub size: Option<Expr>,
    pub specs: Listed<Spec>,
}

/// A word of a segment's type (Erlang Reference Manual, "Bit Syntax Expressions").
///
/// `bytes` is read as `Binary` and `bits` as `Bitstring`.
#[derive(Clone, Copy, Debug, PartialEq, Eq)]
pub enum Spec {
    Integer,
    Binary,
    Bitstring,
    Utf8,
    Utf16,
    Utf32,
    Float,
    Signed,
    Unsigned,
    Big,
    Little,
    Native,
    Unit(i128),
}
