ghost use Rattle.std.specs.Prelude.{◌≡◌, ℕ, ◌+◌, ◌≤◌, ◌<◌, ◌*◌, ◌%◌, ◌^◌, length, slice_index, MatchOption, IsTrue, ◌==◌};
ghost use Rattle.std.specs.List.{prefix_len};
ghost use Rattle.std.specs.Char.{digit_value};
ghost use Rattle.erl_syntax.specs.Characters.{is_continuation, character_len, is_digit, first_number, number, with_digit};
ghost use Rattle.erl_syntax.specs.Tokens.{is_name, digits_len, comment_len};

/// An integer of this profile is below it.
pub(crate) const LIMIT: u128 = 1 << 127;

/// The byte at that index, or 0 past the end.
pub(crate) fn byte_at(bs: &[u8], index: usize) -> u8
    ensures { result ≡ slice_index bs.now index }
{
    if index < bs.len() { bs[index] } else { 0 }
}

/// Whether that byte, which is not 0, stands at the index.
pub(crate) fn is_at(bs: &[u8], index: usize, b: u8) -> bool
    requires { 0 < b }
    ensures value { result ≡ (slice_index bs.now index == b) }
    ensures inside { IsTrue result → index < length bs.now }
{
    byte_at(bs, index) == b
}

/// Whether the byte goes on with a character (RFC 3629: 10xxxxxx).
pub(crate) fn is_continuation(b: u8) -> bool
    ensures { result ≡ is_continuation b }
{
    128 <= b && b < 192
}

/// The value of a digit or a letter, from 0 to 35, and 36 for any other byte.
pub(crate) fn digit_value(b: u8) -> u8
    ensures value { result ≡ digit_value b }
    ensures small { result ≤ 36 }
{
    if b < b'0' {
        36
    } else if b <= b'9' {
        b - b'0'
    } else if b < b'A' {
        36
    } else if b <= b'Z' {
        b - 55
    } else if b < b'a' {
        36
    } else if b <= b'z' {
        b - 87
    } else {
        36
    }
}

/// Whether the byte is a digit of the base.
pub(crate) fn is_digit(base: u8, b: u8) -> bool
    ensures { result ≡ is_digit base b }
{
    digit_value(b) < base
}

/// How many digits of the base stand at the front.
pub(crate) fn digit_run(bs: &[u8], base: u8) -> usize
    ensures value { result ≡ prefix_len (is_digit base) bs.now }
    ensures within { result ≤ length bs.now }
{
    let mut n = 0;
    while n < bs.len() && is_digit(base, bs[n]) {
        n += 1;
    }
    n
}

/// How many bytes at the front go on with a character.
pub(crate) fn continuation_run(bs: &[u8]) -> usize
    ensures value { result ≡ prefix_len is_continuation bs.now }
    ensures within { result ≤ length bs.now }
{
    let mut n = 0;
    while n < bs.len() && is_continuation(bs[n]) {
        n += 1;
    }
    n
}

/// How many bytes the character at the front takes.
pub(crate) fn character_len(bs: &[u8]) -> usize
    requires { 0 < length bs.now }
    ensures value { result ≡ character_len bs.now }
    ensures within { (0 < result) × (result ≤ length bs.now) }
{
    1 + continuation_run(&bs[1..])
}

/// The number of the character at the front, from its first byte and the low six bits of each that goes on.
pub(crate) fn first_number(bs: &[u8]) -> u32
    ensures value { result ≡ first_number bs.now }
    ensures small { result < 2 ^ 22 }
{
    let first = u32::from(byte_at(bs, 0));
    let second = u32::from(byte_at(bs, 1) % 64);
    let third = u32::from(byte_at(bs, 2) % 64);
    if first < 128 {
        first
    } else if first < 224 {
        first.saturating_sub(192) * 64 + second
    } else if first < 240 {
        ((first - 224) * 64 + second) * 64 + third
    } else {
        let fourth = u32::from(byte_at(bs, 3) % 64);
        (((first - 240) * 64 + second) * 64 + third) * 64 + fourth
    }
}

/// The number of the digits, `_` left out, where it is below 2^127.
pub(crate) fn number(bs: &[u8], base: u8) -> Option<u128>
    requires { (0 < base) × (base ≤ 36) }
    ensures value { MatchOption result (2 ^ 127 ≤ number base bs.now) (λ n. n ≡ number base bs.now) }
    ensures small { MatchOption result (Unit {0}) (λ n. n < 2 ^ 127) }
{
    let mut number: u128 = 0;
    for b in bs {
        let Some(more) = with_digit(number, base, *b) else {
            return None;
        };
        number = more;
    }
    Some(number)
}

/// The number with one more digit behind it, where it is below 2^127.
fn with_digit(number: u128, base: u8, b: u8) -> Option<u128>
    requires { number < 2 ^ 127 }
    ensures value { MatchOption result (2 ^ 127 ≤ with_digit base number b) (λ n. n ≡ with_digit base number b) }
    ensures small { MatchOption result (Unit {0}) (λ n. n < 2 ^ 127) }
{
    if b == b'_' {
        return Some(number);
    }
    let next = number
        .checked_mul(u128::from(base))?
        .checked_add(u128::from(digit_value(b)))?;
    if next < LIMIT { Some(next) } else { None }
}
