//! Characters in bit expressions: UTF-8, UTF-16 and UTF-32, written and read (RFC 3629, RFC 2781).
#![tactic(auto)]

mod decoding;
mod encoding;
mod laws;

pub use decoding::decode;
pub use encoding::{BadChar, encode};
pub use laws::{character_reads_back, one_character};
