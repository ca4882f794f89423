// The word and the numbers of a line.
ghost use Rattle.std.specs.Prelude.{◌≡◌, ◌↔◌, ◌≤◌, ◌<◌, ◌^◌, IsTrue, ℕ, List, length, take, drop, decimal, MatchOption};
ghost use Rattle.report_text.specs.Fields.{AreNumbers, IsCut, IsField, IsWord};

use arrayvec::ArrayVec;
use itoa::Buffer;

// The most numbers that a line of an order has.
const MOST: usize = 4;

pub(crate) fn is_same(word: &[u8], other: &[u8]) -> bool
    ensures { IsTrue result ↔ (word.now ≡ other.now) }
{
    word == other
}

// The number that the bytes spell in decimal, without a leading zero, if they spell one.
fn number(digits: &[u8]) -> Option<u64>
    ensures { MatchOption result ((n : ℕ) → n < 2 ^ 64 → digits.now ≡ decimal n → ⊥) (λ n. digits.now ≡ decimal n) }
{
    let Ok(text) = str::from_utf8(digits) else {
        return None;
    };
    let Ok(number) = text.parse::<u64>() else {
        return None;
    };
    let mut buffer = Buffer::new();
    if buffer.format(number) != text {
        return None;
    }
    Some(number)
}

// How many bytes stand before the first that is a space or below.
pub(crate) fn word_len(bytes: &[u8]) -> usize
    ensures inside { result ≤ length bytes.now }
    ensures word { IsWord (take result bytes.now) }
    ensures cut { IsCut (drop result bytes.now) }
{
    for (index, byte) in bytes.iter().enumerate() {
        if *byte <= b' ' {
            return index;
        }
    }
    bytes.len()
}

// A number behind a space, and the bytes behind it.
#[derive(Clone, Copy, Debug)]
struct Field<'a> {
    number: u64,
    rest: &'a [u8],
}

// The number behind a space that stands in front, if one does.
fn front_field(bytes: &[u8]) -> Option<Field<'_>>
    ensures { MatchOption result ((n : ℕ) (rest : List ℕ) → IsField bytes.now n rest → ⊥) (λ found. IsField bytes.now found.number found.rest.now) }
{
    if bytes.is_empty() || bytes[0] != b' ' {
        return None;
    }
    let after = &bytes[1..];
    let (digits, rest) = after.split_at(word_len(after));
    let Some(number) = number(digits) else {
        return None;
    };
    Some(Field { number, rest })
}

// The numbers that the bytes spell up to the line feed that ends them, each behind a space, if they do.
pub(crate) fn numbers(bytes: &[u8]) -> Option<ArrayVec<u64, MOST>>
    ensures { MatchOption result ((ns : List ℕ) → AreNumbers bytes.now ns → ⊥) (λ ns. AreNumbers bytes.now ns.items) }
{
    let mut numbers = ArrayVec::new();
    let mut rest = bytes;
    while let Some(found) = front_field(rest) {
        if numbers.len() >= MOST {
            return None;
        }
        numbers.push(found.number);
        rest = found.rest;
    }
    if !is_same(rest, b"\n") {
        return None;
    }
    Some(numbers)
}
