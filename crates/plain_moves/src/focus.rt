use crate::stack::Stack;
use crate::values::{PlainCells, Values};
use code_match::Bindings;
use code_rows::{Gathered, Rows};
use code_tree::{Clause, Line, PlainTerm, Qualifier, Tree};

/// A visible act that a process asks for.
#[derive(Drop)]
pub enum Visible {
    /// To send the message to the process of this pid.
    Send(u32, PlainTerm),
    Show(PlainTerm),
    /// The module's name and the function's, by the numbers of their atoms, and the arguments.
    Start(u32, u32, PlainCells),
}

/// How an expression ends without a value.
#[derive(Drop)]
pub enum Stop {
    /// The reason is the atom of this number.
    Atom(u32),
    /// The reason is `{Atom, Value}`.
    Of(u32, PlainTerm),
    /// Any other reason.
    Other(PlainTerm),
    Limit,
}

/// A generator whose rows wait, and what begins with each.
#[derive(Drop)]
pub struct Level<'a> {
    pub bindings: Bindings,
    pub rows: Rows<'a>,
    pub qualifiers: &'a [Qualifier],
    pub row: &'a Tree,
}

/// A comprehension: what it has collected, and the rows that wait, the innermost generator's on top.
#[derive(Drop)]
pub struct Gathering<'a> {
    pub got: Gathered,
    pub levels: Stack<Level<'a>>,
}

/// What follows in a comprehension: qualifiers, then its row's expression, in these bindings.
#[derive(Drop)]
pub struct Further<'a> {
    pub qualifiers: &'a [Qualifier],
    pub row: &'a Tree,
    pub bindings: Bindings,
}

/// An open part that goes on by itself.
#[derive(Drop)]
pub enum Open<'a> {
    Tree(&'a Tree, Bindings),
    Body(&'a [Line], Bindings),
    /// A call of the function at this place of the module, with its arguments.
    Call(u32, Values),
    /// A comprehension at its next row.
    Rows(Gathering<'a>),
    /// A comprehension at what follows.
    Qualifiers(Gathering<'a>, Further<'a>),
}

/// What is open.
#[derive(Drop)]
pub enum Focus<'a> {
    Goes(Open<'a>),
    Value(PlainTerm),
    Asks(Visible),
    Receives(&'a [Clause], Bindings),
}
