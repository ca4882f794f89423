//! Values of the language as terms over references to bitstrings: their order, arithmetic, sizes and texts.
#![tactic(auto)]

mod arithmetic;
mod cells;
mod comparison;
mod computed;
mod entry;
mod look;
mod made;
mod measure;
mod names;
mod outcome;
mod showing;
mod term;
mod tuple;

pub use arithmetic::arith;
pub use cells::{Cells, Link};
pub use comparison::compare;
pub use computed::Arith;
pub use entry::Entry;
pub use look::Look;
pub use made::{cons, is_bounded, list_of, tagged, tuple_of};
pub use measure::{depth, weight};
pub use outcome::Outcome;
pub use showing::show;
pub use term::Term;
pub use tuple::Items;
