//! The syntax of modules: places in a text, texts, lists and trees, which all layers above share.
#![tactic(auto)]

mod atoms;
mod built_in;
mod checking;
mod clause;
mod expr;
mod listed;
mod module;
mod pattern;
mod qual;
mod segment;
mod span;
mod text;
mod token;
mod typing;

pub use atoms::{FIXED_ATOMS, fixed_atoms_are_named};
pub use built_in::{BUILT_INS, BuiltIn};
pub use checking::{CheckCause, CheckFault, VarUse};
pub use clause::{Alt, Branch, Guard, Item};
pub use expr::{Expr, Op, Prefix};
pub use listed::Listed;
pub use module::{Clause, Function, Head, Module, Name};
pub use pattern::Pattern;
pub use qual::Qual;
pub use segment::{Segment, Spec};
pub use span::Span;
pub use text::{LONGEST_TEXT, Text};
pub use token::{LexCause, LexFault, MARKS, Piece, RESERVED, Token, TokenKind, longest_mark_first};
pub use typing::{Kind, SegFault, SideUse, SizeUse, SpecKind, Typed};
