use crate::{Expr, Listed, Pattern, Span};

/// Alternatives of which each is a list of tests. A guard without alternatives is no guard.
#[derive(Debug, Drop)]
#[cycle(tree)]
pub struct Guard {
    pub alternatives: Listed<Listed<Expr>>,
}

/// An item of a body: the patterns before the value, in the order of the text. They are matched from the right.
#[derive(Debug, Drop)]
#[cycle(tree)]
pub struct Item {
    pub patterns: Listed<Pattern>,
    pub value: Expr,
}

/// A clause of a `case` or a `receive`.
#[derive(Debug, Drop)]
#[cycle(tree)]
pub struct Alt {
    pub at: Span,
    pub pattern: Pattern,
    pub guard: Guard,
    pub body: Listed<Item>,
}

/// A clause of an `if`.
#[derive(Debug, Drop)]
#[cycle(tree)]
pub struct Branch {
    pub at: Span,
    pub guard: Guard,
    pub body: Listed<Item>,
}
