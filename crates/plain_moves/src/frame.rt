use crate::focus::{Further, Gathering};
use crate::values::Values;
use code_match::Bindings;
use code_tree::{Clause, Form, Generator, Line, Pattern, Tree};

/// A form with the values of the parts before the open one, and the parts behind it.
#[derive(Drop)]
pub struct Part<'a> {
    pub form: &'a Form,
    pub values: Values,
    pub waiting: &'a [Tree],
    pub bindings: Bindings,
}

/// What stands round the open part of an expression.
#[derive(Drop)]
pub enum Frame<'a> {
    Part(Part<'a>),
    /// The patterns of an item, and the rest of its body, which has an item.
    Then(&'a [Pattern], &'a [Line], Bindings),
    /// The patterns of a last item.
    Last(&'a [Pattern], Bindings),
    Case(&'a [Clause], Bindings),
    AndAlso(&'a Tree, Bindings),
    OrElse(&'a Tree, Bindings),
    /// A comprehension whose row is open.
    Giving(Gathering<'a>),
    /// A comprehension of which the source of a generator is open.
    Drawing(Gathering<'a>, &'a Generator, Further<'a>),
    /// A comprehension of which a filter is open.
    Testing(Gathering<'a>, Further<'a>),
}
