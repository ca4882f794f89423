use crate::{Expr, Listed, Pattern, Segment, Span};

/// A qualifier of a comprehension.
#[derive(Debug, Drop)]
#[cycle(tree)]
pub enum Qual {
    /// `pattern <- source`.
    Items {
        at: Span,
        pattern: Pattern,
        source: Expr,
    },
    /// `<<segments>> <= source`.
    Bits {
        at: Span,
        segments: Listed<Segment>,
        source: Expr,
    },
    Filter {
        at: Span,
        test: Expr,
    },
}
