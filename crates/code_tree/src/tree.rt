use crate::{Clause, Collected, Form, PlainTerm, Qualifier};
use erl_syntax::Listed;
use shares::Held;

/// An expression.
#[derive(Drop)]
#[cycle(tree)]
pub enum Tree {
    Value(PlainTerm),
    /// The number of the variable in its function.
    Variable(u32),
    /// The parts open from the left, and then the form acts on their values.
    All(Form, Listed<Tree>),
    /// Each clause has one pattern.
    Case(Held<Tree>, Listed<Clause>),
    AndAlso(Held<Tree>, Held<Tree>),
    OrElse(Held<Tree>, Held<Tree>),
    /// The clauses have no patterns.
    If(Listed<Clause>),
    Receive(Listed<Clause>),
    /// The qualifiers, and the row's own expression.
    Comprehension(Collected, Listed<Qualifier>, Held<Tree>),
}
