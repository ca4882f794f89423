use crate::{Pattern, Tree};
use erl_syntax::Listed;

/// An item of a body.
#[derive(Drop)]
#[cycle(tree)]
pub struct Line {
    /// In the order in which they are matched.
    pub patterns: Listed<Pattern>,
    pub value: Tree,
}

/// A clause of a `case`, an `if`, a `receive` or a function.
#[derive(Drop)]
#[cycle(tree)]
pub struct Clause {
    pub patterns: Listed<Pattern>,
    /// The alternatives of the guard, each a list of tests. No guard is one alternative without tests.
    pub guard: Listed<Listed<Tree>>,
    pub body: Listed<Line>,
}
