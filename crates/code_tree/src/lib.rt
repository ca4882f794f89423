//! A checked module laid out as code: each variable by its number, each call by what it calls, each segment with its type.
#![tactic(auto)]

mod clause;
mod code;
mod form;
mod pattern;
mod plain_term;
mod qualifier;
mod tree;

pub use clause::{Clause, Line};
pub use code::{Code, Function};
pub use form::{Form, Primitive};
pub use pattern::{Pattern, Segment, Target};
pub use plain_term::PlainTerm;
pub use qualifier::{Collected, Generator, Qualifier};
pub use tree::Tree;
