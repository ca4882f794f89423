ghost use Rattle.std.specs.Prelude.{◌≡◌, ◌<◌, ◌≤◌, ◌+◌, length, drop};
ghost use Rattle.erl_syntax.specs.Reading.{longest_text};
ghost use Rattle.erl_syntax.specs.Characters.{spelled, spelled_len, spelled_number, between_quotes};
ghost use Rattle.erl_syntax.specs.Tokens.{no_escape, quoted, string, quoted_atom, character, limited};
ghost use Rattle.erl_tokens.specs.Pieces.{IsWithin};

use crate::characters::{character_len, first_number};
use crate::escapes::{Escaped, escape};
use crate::names::ATOM_LEN;
use erl_syntax::{LexCause, Piece, TokenKind};

/// The character or escape at the front: the number that it stands for, and its bytes.
pub(crate) fn unit(bs: &[u8]) -> Escaped
    requires { 0 < length bs.now }
    ensures len { result.len ≡ spelled_len bs.now }
    ensures number { result.number ≡ spelled_number bs.now }
    ensures within { (0 < result.len) × (result.len ≤ length bs.now) }
{
    if bs[0] != b'\\' {
        return Escaped {
            number: first_number(bs),
            len: character_len(bs),
        };
    }
    match escape(&bs[1..]) {
        Some(escaped) => Escaped {
            number: escaped.number,
            len: 1 + escaped.len,
        },
        None => Escaped {
            number: u32::from(b'\\'),
            len: 1,
        },
    }
}

/// What a backslash makes of the text, where the bytes behind it begin no escape.
fn no_escape(bs: &[u8], cut: bool, at: usize) -> Piece
    requires { at < longest_text }
    ensures value { result ≡ no_escape cut at bs.now }
    ensures within { IsWithin (at + 1 + length bs.now) result }
{
    if cut && bs.is_empty() {
        Piece::Fault(LexCause::NotUtf8, at + 1)
    } else {
        Piece::Fault(LexCause::BadEscape, at)
    }
}

/// The token of this kind up to the closing quote, or its first fault.
fn quoted(bs: &[u8], mark: u8, kind: TokenKind, cut: bool) -> Piece
    requires some { 0 < length bs.now }
    requires room { length bs.now ≤ longest_text }
    ensures value { result ≡ quoted mark kind cut 1 0 (drop 1 bs.now) }
    ensures within { IsWithin (length bs.now) result }
{
    let mut at = 1;
    while at < bs.len() {
        if bs[at] == mark {
            return Piece::Token(kind, at + 1);
        }
        if bs[at] == b'\\' {
            let Some(escaped) = escape(&bs[at + 1..]) else {
                return no_escape(&bs[at + 1..], cut, at);
            };
            at += escaped.len;
        }
        at += 1;
    }
    if cut {
        Piece::Fault(LexCause::NotUtf8, at)
    } else {
        Piece::Fault(LexCause::UnclosedQuote, 0)
    }
}

/// How many characters the bytes between quotes stand for.
fn spelled_count(bs: &[u8]) -> usize
    ensures { result ≡ length (spelled bs.now) }
{
    let mut count = 0;
    let mut at = 0;
    while at < bs.len() {
        at += unit(&bs[at..]).len;
        count += 1;
    }
    count
}

/// The string at the front.
pub(crate) fn string(bs: &[u8], cut: bool) -> Piece
    requires some { 0 < length bs.now }
    requires room { length bs.now ≤ longest_text }
    ensures value { result ≡ string cut bs.now }
    ensures within { IsWithin (length bs.now) result }
{
    quoted(bs, b'"', TokenKind::Str, cut)
}

/// The quoted atom at the front.
pub(crate) fn quoted_atom(bs: &[u8], cut: bool) -> Piece
    requires some { 0 < length bs.now }
    requires room { length bs.now ≤ longest_text }
    ensures value { result ≡ quoted_atom cut bs.now }
    ensures within { IsWithin (length bs.now) result }
{
    match quoted(bs, b'\'', TokenKind::Atom, cut) {
        Piece::Token(kind, len) => limited(&bs[..len], kind),
        piece => piece,
    }
}

/// The quoted atom of those bytes, or that it is too long.
fn limited(bs: &[u8], kind: TokenKind) -> Piece
    ensures { result ≡ limited bs.now (Piece.Token kind (length bs.now)) }
{
    if spelled_count(between_quotes(bs)) > ATOM_LEN {
        Piece::Fault(LexCause::AtomTooLong, 0)
    } else {
        Piece::Token(kind, bs.len())
    }
}

/// The bytes between the quotes of a string or a quoted atom.
pub(crate) fn between_quotes(bs: &[u8]) -> &[u8]
    ensures { result.now ≡ between_quotes bs.now }
{
    if bs.len() < 2 {
        &[]
    } else {
        &bs[1..bs.len() - 1]
    }
}

/// `$` and, behind it, a character or an escape.
pub(crate) fn character(bs: &[u8], cut: bool) -> Piece
    requires { 0 < length bs.now }
    ensures value { result ≡ character cut bs.now }
    ensures within { IsWithin (length bs.now) result }
{
    if bs.len() == 1 {
        return if cut {
            Piece::Fault(LexCause::NotUtf8, 1)
        } else {
            Piece::Fault(LexCause::UnexpectedCharacter, 0)
        };
    }
    if bs[1] != b'\\' {
        return Piece::Token(TokenKind::Character, 1 + character_len(&bs[1..]));
    }
    match escape(&bs[2..]) {
        Some(escaped) => Piece::Token(TokenKind::Character, escaped.len + 2),
        None => no_escape(&bs[2..], cut, 1),
    }
}
