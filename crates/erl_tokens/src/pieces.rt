ghost use Rattle.std.specs.Prelude.{◌≡◌, ◌<◌, ◌≤◌, ◌==◌, not, length};
ghost use Rattle.std.specs.List.{prefix_len};
ghost use Rattle.erl_syntax.specs.Reading.{longest_text};
ghost use Rattle.erl_syntax.specs.Tokens.{piece, comment, comment_len};
ghost use Rattle.erl_tokens.specs.Pieces.{IsWithin};

use crate::characters::is_digit;
use crate::integers::integer_at;
use crate::marks::{mark, white_len};
use crate::names::{begins_name, name};
use crate::quotes::{character, quoted_atom, string};
use erl_syntax::{LexCause, Piece};

/// How many bytes at the front go on with a line.
fn line_run(bs: &[u8]) -> usize
    ensures value { result ≡ prefix_len (λ b. not (b == 10)) bs.now }
    ensures within { result ≤ length bs.now }
{
    let mut n = 0;
    while n < bs.len() && bs[n] != b'\n' {
        n += 1;
    }
    n
}

/// The comment at the front.
fn comment(bs: &[u8], cut: bool) -> Piece
    requires { 0 < length bs.now }
    ensures value { result ≡ comment cut bs.now }
    ensures within { IsWithin (length bs.now) result }
{
    let len = 1 + line_run(&bs[1..]);
    if cut && len == bs.len() {
        Piece::Fault(LexCause::NotUtf8, len)
    } else {
        Piece::Blank(len)
    }
}

/// What stands at the front of a text that isn't at its end. `cut` says that a byte follows the text that belongs to no character.
pub(crate) fn front_piece(bs: &[u8], cut: bool) -> Piece
    requires some { 0 < length bs.now }
    requires room { length bs.now ≤ longest_text }
    ensures value { result ≡ piece cut bs.now }
    ensures within { IsWithin (length bs.now) result }
{
    let white = white_len(bs);
    if 0 < white {
        return Piece::Blank(white);
    }
    let first = bs[0];
    if first == b'%' {
        comment(bs, cut)
    } else if begins_name(first) {
        name(bs)
    } else if is_digit(10, first) {
        integer_at(bs)
    } else if first == b'$' {
        character(bs, cut)
    } else if first == b'"' {
        string(bs, cut)
    } else if first == b'\'' {
        quoted_atom(bs, cut)
    } else {
        mark(bs, cut)
    }
}
