ghost use Rattle.std.specs.Prelude.{◌≡◌, ◌<◌, ◌≤◌, ◌+◌, ◌&&◌, false, nat_le, length, MatchOption, slice_index};
ghost use Rattle.erl_syntax.specs.Characters.{is_digit, number};
ghost use Rattle.erl_syntax.specs.Tokens.{integer_at, decimal, based, is_based, integer, digits_len, goes_on};
ghost use Rattle.erl_tokens.specs.Pieces.{IsWithin};

use crate::characters::{byte_at, digit_run, is_at, is_digit, number};
use erl_syntax::{LexCause, Piece, TokenKind};

/// Whether digits of the base go on with that byte before the next one: a digit, or `_` before a digit.
fn goes_on(base: u8, b: u8, next: u8) -> bool
    ensures { result ≡ goes_on base b next }
{
    is_digit(base, b) || b == b'_' && is_digit(base, next)
}

/// How many bytes go on with digits of the base, with single `_` between two of them.
fn digits_len(bs: &[u8], base: u8) -> usize
    ensures value { result ≡ digits_len base bs.now }
    ensures within { result ≤ length bs.now }
{
    let mut n = 0;
    while n < bs.len() && goes_on(base, bs[n], byte_at(bs, n + 1)) {
        n += 1;
    }
    n
}

/// The token of digits of a base that take so many bytes, or that their number is too wide.
fn integer(digits: &[u8], base: u8, len: usize) -> Piece
    requires { (0 < base) × (base ≤ 36) }
    ensures { result ≡ integer (number base digits.now) len }
{
    match number(digits, base) {
        Some(_) => Piece::Token(TokenKind::Integer, len),
        None => Piece::Fault(LexCause::IntegerTooWide, 0),
    }
}

/// The base of those digits, from 2 to 36.
pub(crate) fn base_of(digits: &[u8]) -> Option<u8>
    ensures { MatchOption result (nat_le 2 (number 10 digits.now) && nat_le (number 10 digits.now) 36 ≡ false) (λ base. (base ≡ number 10 digits.now) × (2 ≤ base) × (base ≤ 36)) }
{
    match number(digits, 10) {
        Some(base) if 2 <= base && base <= 36 => Some(base as u8),
        _ => None,
    }
}

/// The integer of a base and, behind `#`, digits of that base.
fn based(base_digits: &[u8], bs: &[u8]) -> Piece
    ensures value { result ≡ based (number 10 base_digits.now) (length base_digits.now + 1) bs.now }
    ensures within { IsWithin (length base_digits.now + 1 + length bs.now) result }
{
    let Some(base) = base_of(base_digits) else {
        return Piece::Fault(LexCause::BadNumber, 0);
    };
    if bs.is_empty() || !is_digit(base, bs[0]) {
        return Piece::Fault(LexCause::BadNumber, 0);
    }
    let len = 1 + digits_len(&bs[1..], base);
    integer(&bs[..len], base, base_digits.len() + 1 + len)
}

/// The integer of decimal digits.
fn decimal(bs: &[u8]) -> Piece
    requires { 0 < length bs.now }
    ensures value { result ≡ decimal bs.now }
    ensures within { IsWithin (length bs.now) result }
{
    let len = 1 + digits_len(&bs[1..], 10);
    if is_at(bs, len, b'.') && is_digit(10, byte_at(bs, len + 1)) {
        Piece::Fault(LexCause::Float, 0)
    } else {
        integer(&bs[..len], 10, len)
    }
}

/// The integer at the front, where a digit stands.
pub(crate) fn integer_at(bs: &[u8]) -> Piece
    requires { 0 < length bs.now }
    ensures value { result ≡ integer_at bs.now }
    ensures within { IsWithin (length bs.now) result }
{
    let len = 1 + digit_run(&bs[1..], 10);
    if is_at(bs, len, b'#') {
        based(&bs[..len], &bs[len + 1..])
    } else {
        decimal(bs)
    }
}
