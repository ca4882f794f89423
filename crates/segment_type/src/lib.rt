//! The types of segments of bit expressions and bit patterns, by the table of the Erlang Reference Manual, "Bit Syntax Expressions".
#![tactic(auto)]

mod laws;
mod typing;
mod words;

pub use erl_syntax::{Kind, SegFault, SideUse, SizeUse, Typed};
pub use laws::one_type;
pub use typing::type_segment;
