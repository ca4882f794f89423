use crate::Clause;
use erl_syntax::{Listed, Text};

/// A function.
#[derive(Drop)]
pub struct Function {
    /// The number of the atom.
    pub name: u32,
    pub arity: u32,
    pub exported: bool,
    pub clauses: Listed<Clause>,
}

/// A module.
#[derive(Drop)]
pub struct Code {
    /// The name of each atom in UTF-8, by its number.
    pub atoms: Listed<Text>,
    /// The number of the atom.
    pub name: u32,
    pub functions: Listed<Function>,
}
