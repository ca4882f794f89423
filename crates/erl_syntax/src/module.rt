use crate::{Guard, Item, Listed, Pattern, Span, Text};

/// A module as it was read, before it is checked.
#[derive(Debug, Drop)]
pub struct Module {
    /// One for each `-module` form.
    pub heads: Listed<Head>,
    /// The names of all `-export` forms, in the order of the text.
    pub exports: Listed<Name>,
    pub functions: Listed<Function>,
    /// The characters of each atom, in UTF-8. An atom is its number here, and each stands here once.
    pub atoms: Listed<Text>,
    /// The place of the end of the text.
    pub last: Span,
}

/// A `-module` form.
#[derive(Debug, Drop)]
pub struct Head {
    pub at: Span,
    pub name: u32,
}

/// A name with its number of arguments, as in an `-export` form.
#[derive(Debug, Drop)]
pub struct Name {
    pub at: Span,
    pub name: u32,
    pub arity: i128,
}

/// A function with the clauses of one form. Its name and number of arguments are those of the first.
#[derive(Debug, Drop)]
pub struct Function {
    pub name: u32,
    pub arity: u32,
    pub clauses: Listed<Clause>,
}

/// A clause of a function.
#[derive(Debug, Drop)]
pub struct Clause {
    pub at: Span,
    pub name: u32,
    pub patterns: Listed<Pattern>,
    pub guard: Guard,
    pub body: Listed<Item>,
}
