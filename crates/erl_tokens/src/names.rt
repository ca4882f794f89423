ghost use Rattle.std.specs.Prelude.{◌≡◌, ◌<◌, ◌≤◌, length};
ghost use Rattle.std.specs.List.{prefix_len, find};
ghost use Rattle.erl_syntax.specs.Spellings.{is_spelled};
ghost use Rattle.erl_syntax.specs.Tokens.{is_name, begins_name, name, named, name_kind};
ghost use Rattle.erl_syntax.specs.declared.token.TheConstants.{RESERVED};
ghost use Rattle.erl_tokens.specs.Pieces.{IsWithin};

use erl_syntax::{LexCause, Piece, TokenKind};

/// The most characters of an atom.
pub(crate) const ATOM_LEN: usize = 255;

/// Whether a name goes on with the byte.
fn is_name(b: u8) -> bool
    ensures { result ≡ is_name b }
{
    b.is_ascii_alphanumeric() || b == b'_' || b == b'@'
}

/// Whether a name begins with the byte.
pub(crate) fn begins_name(b: u8) -> bool
    ensures { result ≡ begins_name b }
{
    b.is_ascii_alphabetic() || b == b'_'
}

/// How many bytes at the front go on with a name.
fn name_run(bs: &[u8]) -> usize
    ensures value { result ≡ prefix_len is_name bs.now }
    ensures within { result ≤ length bs.now }
{
    let mut n = 0;
    while n < bs.len() && is_name(bs[n]) {
        n += 1;
    }
    n
}

/// The kind of a name that is no reserved word.
fn name_kind(name: &[u8]) -> TokenKind
    requires { 0 < length name.now }
    ensures { result ≡ name_kind name.now }
{
    if name[0].is_ascii_lowercase() {
        TokenKind::Atom
    } else if name[0] == b'_' && name.len() == 1 {
        TokenKind::Underscore
    } else {
        TokenKind::Variable
    }
}

/// The token that a whole name is.
fn named(name: &[u8]) -> Piece
    requires { 0 < length name.now }
    ensures value { result ≡ named (find (is_spelled name.now) RESERVED) name.now }
    ensures within { IsWithin (length name.now) result }
{
    match TokenKind::reserved(name) {
        Some(word) => Piece::Token(word, name.len()),
        None => {
            if name[0].is_ascii_lowercase() && name.len() > ATOM_LEN {
                Piece::Fault(LexCause::AtomTooLong, 0)
            } else {
                Piece::Token(name_kind(name), name.len())
            }
        }
    }
}

/// The name at the front.
pub(crate) fn name(bs: &[u8]) -> Piece
    requires { 0 < length bs.now }
    ensures value { result ≡ name bs.now }
    ensures within { IsWithin (length bs.now) result }
{
    let len = 1 + name_run(&bs[1..]);
    named(&bs[..len])
}
