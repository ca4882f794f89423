ghost use Rattle.std.specs.Prelude.{◌≡◌, ◌<◌, ◌≤◌, length};
ghost use Rattle.std.specs.List.{find};
ghost use Rattle.erl_syntax.specs.Spellings.{begins_with};
ghost use Rattle.erl_syntax.specs.Tokens.{mark, full_stop, ends_form, white_len};
ghost use Rattle.erl_tokens.specs.Pieces.{IsWithin};

use crate::characters::byte_at;
use erl_syntax::{LexCause, MARKS, Piece, TokenKind};

/// The bytes of the white space at the front, or none.
pub(crate) fn white_len(bs: &[u8]) -> usize
    ensures value { result ≡ white_len bs.now }
    ensures within { result ≤ length bs.now }
{
    if bs.is_empty() {
        0
    } else if bs[0] <= 32 {
        1
    } else if bs.len() > 1 && bs[0] == 194 && 128 <= bs[1] && bs[1] <= 160 {
        2
    } else {
        0
    }
}

/// Whether white space, a comment or the end of the text comes.
fn ends_form(bs: &[u8], cut: bool) -> bool
    ensures { result ≡ ends_form cut bs.now }
{
    if bs.is_empty() {
        !cut
    } else {
        bs[0] == b'%' || 0 < white_len(bs)
    }
}

/// A full stop that ends a form.
fn full_stop(bs: &[u8], cut: bool) -> Piece
    requires { 0 < length bs.now }
    ensures value { result ≡ full_stop cut bs.now }
    ensures within { IsWithin (length bs.now) result }
{
    if bs[0] == b'.' && ends_form(&bs[1..], cut) {
        Piece::Token(TokenKind::FullStop, 1)
    } else {
        Piece::Fault(LexCause::UnexpectedCharacter, 0)
    }
}

/// Whether the text begins with the mark.
fn begins_with(bs: &[u8], kind: TokenKind) -> bool
    ensures { result ≡ begins_with bs.now kind }
{
    bs.starts_with(kind.spelling())
}

/// The longest mark at the front.
fn longest_mark(bs: &[u8]) -> Option<TokenKind>
    ensures { result ≡ find (begins_with bs.now) MARKS }
{
    MARKS.iter().copied().find(|kind| begins_with(bs, *kind))
}

/// The mark or the full stop at the front.
pub(crate) fn mark(bs: &[u8], cut: bool) -> Piece
    requires { 0 < length bs.now }
    ensures value { result ≡ mark cut bs.now }
    ensures within { IsWithin (length bs.now) result }
{
    match longest_mark(bs) {
        Some(kind) => Piece::Token(kind, kind.spelling().len()),
        None => full_stop(bs, cut),
    }
}
