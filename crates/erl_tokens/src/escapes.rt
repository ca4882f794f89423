ghost use Rattle.std.specs.Prelude.{◌≡◌, ◌≤◌, ◌<◌, ◌+◌, ◌-◌, length, drop, take, slice_index, IfSome};
ghost use Rattle.erl_tokens.specs.Escapes.{IsEscape};
ghost use Rattle.erl_syntax.specs.Characters.{escape_len, escape_number, named_number, hexadecimal_len, hexadecimal_number, braced_len, control_len, octal_len, octal_number, number, is_digit};
ghost use Rattle.bits_value.specs.Utf.{is_character};
ghost use Rattle.std.specs.List.{prefix_len};
ghost use Rattle.std.specs.Char.{digit_value};

use crate::characters::{
    byte_at, character_len, digit_run, digit_value, first_number, is_at, is_digit, number,
};

/// What follows a backslash: the number of the character that it stands for, and its bytes.
#[derive(Clone, Copy, Debug)]
pub(crate) struct Escaped {
    pub(crate) number: u32,
    pub(crate) len: usize,
}

/// The escape after a backslash, if one stands there.
pub(crate) fn escape(bs: &[u8]) -> Option<Escaped>
    ensures value { IsEscape result (escape_len bs.now) (escape_number bs.now) }
    ensures within { IfSome result (λ e. (0 < e.len) × (e.len ≤ length bs.now)) }
{
    if bs.is_empty() {
        return None;
    }
    if is_digit(8, bs[0]) {
        Some(octal(bs))
    } else if bs[0] == b'x' {
        hexadecimal(&bs[1..])
    } else if bs[0] == b'^' {
        control(&bs[1..])
    } else {
        Some(Escaped {
            number: named(bs),
            len: character_len(bs),
        })
    }
}

/// An octal digit, and up to two more.
fn octal(bs: &[u8]) -> Escaped
    requires { 0 < length bs.now }
    ensures len { result.len ≡ octal_len bs.now }
    ensures number { result.number ≡ octal_number bs.now }
    ensures within { (0 < result.len) × (result.len ≤ length bs.now) }
{
    let first = u32::from(digit_value(bs[0]));
    if bs.len() < 2 || !is_digit(8, bs[1]) {
        return Escaped {
            number: first,
            len: 1,
        };
    }
    let second = first * 8 + u32::from(digit_value(bs[1]));
    if bs.len() < 3 || !is_digit(8, bs[2]) {
        return Escaped {
            number: second,
            len: 2,
        };
    }
    Escaped {
        number: second * 8 + u32::from(digit_value(bs[2])),
        len: 3,
    }
}

/// After `x`: two hexadecimal digits, or those between braces.
fn hexadecimal(bs: &[u8]) -> Option<Escaped>
    ensures value { IsEscape result (hexadecimal_len bs.now) (hexadecimal_number bs.now) }
    ensures within { IfSome result (λ e. (1 < e.len) × (e.len ≤ length bs.now + 1)) }
{
    if is_at(bs, 0, b'{') {
        return braced(&bs[1..]);
    }
    if bs.len() < 2 || !is_digit(16, bs[0]) || !is_digit(16, bs[1]) {
        return None;
    }
    Some(Escaped {
        number: u32::from(digit_value(bs[0])) * 16 + u32::from(digit_value(bs[1])),
        len: 3,
    })
}

/// After `x{`: hexadecimal digits and `}`.
fn braced(bs: &[u8]) -> Option<Escaped>
    ensures value { IsEscape result (braced_len bs.now) (number 16 (take (prefix_len (is_digit 16) bs.now) bs.now)) }
    ensures within { IfSome result (λ e. (1 < e.len) × (e.len ≤ length bs.now + 2)) }
{
    let digits = digit_run(bs, 16);
    if digits == 0 || !is_at(bs, digits, b'}') {
        return None;
    }
    let number = number(&bs[..digits], 16)?;
    if !is_character(number) {
        return None;
    }
    Some(Escaped {
        number: number as u32,
        len: digits + 3,
    })
}

/// Whether the number is a character's.
fn is_character(number: u128) -> bool
    ensures value { result ≡ is_character number }
{
    number < 0xD800 || (0xE000 <= number && number < 0x11_0000)
}

/// After `^`: a letter, which stands for its number in the alphabet.
fn control(bs: &[u8]) -> Option<Escaped>
    ensures value { IsEscape result (control_len bs.now) (digit_value (slice_index bs.now 0) - 9) }
    ensures within { IfSome result (λ e. (1 < e.len) × (e.len ≤ length bs.now + 1)) }
{
    if bs.is_empty() || !bs[0].is_ascii_alphabetic() {
        return None;
    }
    Some(Escaped {
        number: u32::from(digit_value(bs[0])).saturating_sub(9),
        len: 2,
    })
}

/// The number of a control character, a space or delete by its letter, or of any other character its own.
fn named(bs: &[u8]) -> u32
    ensures { result ≡ named_number bs.now }
{
    match byte_at(bs, 0) {
        b'b' => 8,
        b'd' => 127,
        b'e' => 27,
        b'f' => 12,
        b'n' => 10,
        b'r' => 13,
        b's' => 32,
        b't' => 9,
        b'v' => 11,
        _ => first_number(bs),
    }
}
