//! Cuts the text of a module into tokens, and reads what a token stands for.
#![tactic(auto)]

mod characters;
mod escapes;
mod integers;
mod lexing;
mod marks;
mod names;
mod pieces;
mod quotes;
mod spans;
mod values;

pub use erl_syntax::{LexCause, LexFault, Token, TokenKind};
pub use lexing::{longest_token, one_reading, tokens};
pub use spans::place_after;
pub use values::{atom_text, character_number, integer_value, string_characters};
