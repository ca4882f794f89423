use crate::{Listed, Segment, Span, Text};

/// A pattern.
#[derive(Debug, Drop)]
#[cycle(tree)]
pub enum Pattern {
    Var {
        at: Span,
        name: Text,
    },
    /// `_`.
    Wild {
        at: Span,
    },
    /// The sign before the digits is part of the value.
    Int {
        at: Span,
        value: i128,
    },
    Char {
        at: Span,
        value: u32,
    },
    Atom {
        at: Span,
        atom: u32,
    },
    /// The characters' numbers.
    Str {
        at: Span,
        chars: Listed<u32>,
    },
    Tuple {
        at: Span,
        items: Listed<Pattern>,
    },
    /// The tail has no item or one.
    List {
        at: Span,
        items: Listed<Pattern>,
        tail: Listed<Pattern>,
    },
    Bits {
        at: Span,
        segments: Listed<Segment>,
    },
    /// Patterns joined by `=`: each matches the same value, left first.
    Same {
        at: Span,
        patterns: Listed<Pattern>,
    },
}
