ghost use Rattle.std.specs.Prelude.{◌≡◌, ◌+◌, ◌-◌, ◌*◌, ◌<◌, ◌≤◌, ◌↔◌, ℕ, IsTrue, IfSome, IfNone, length, take, drop};
ghost use Rattle.bits_value.specs.Bits.{all_bits};
ghost use Rattle.bits_value.specs.Utf.{is_character, utf_bytes, Begins};
ghost use Rattle.utf_segments.specs.Reading.{candidate, utf8_candidate, unit_of, pair_of, utf32_candidate};

use crate::encoding::encode;
use bits_value::{Bits, Endian, UtfKind, copy_bits};

/// The `count` bytes of the bits from `off` on, and zeros after them.
fn front(source: &Bits<'_>, off: u32, count: u32) -> [u8; 4]
    requires short { count ≤ 4 }
    requires inside { off + 8 * count ≤ length source.now }
    ensures { take (8 * count) (all_bits result) ≡ take (8 * count) (drop off source.now) }
{
    let mut bytes = [0u8; 4];
    copy_bits(&mut bytes, 0, source.part(off, 8 * count));
    bytes
}

fn utf8_character(a: u32, b: u32, c: u32, d: u32) -> u32
    requires { a < 256 }
    ensures { result ≡ utf8_candidate a b c d }
{
    if a < 0x80 {
        a
    } else if a < 0xE0 {
        a % 0x20 * 0x40 + b % 0x40
    } else if a < 0xF0 {
        a % 0x10 * 0x1000 + b % 0x40 * 0x40 + c % 0x40
    } else {
        a % 8 * 0x4_0000 + b % 0x40 * 0x1000 + c % 0x40 * 0x40 + d % 0x40
    }
}

fn unit(endian: Endian, a: u32, b: u32) -> u32
    requires first { a < 256 }
    requires second { b < 256 }
    ensures is { result ≡ unit_of endian a b }
    ensures small { result < 65536 }
{
    match endian {
        Endian::Big => a * 0x100 + b,
        Endian::Little => b * 0x100 + a,
    }
}

fn pair(high: u32, low: u32) -> u32
    requires { high < 65536 }
    ensures { result ≡ pair_of high low }
{
    if high / 0x400 == 0x36 {
        0x1_0000 + high % 0x400 * 0x400 + low % 0x400
    } else {
        high
    }
}

fn utf32_character(endian: Endian, a: u32, b: u32, c: u32, d: u32) -> u32
    requires first { a < 256 }
    requires second { b < 256 }
    requires third { c < 256 }
    requires fourth { d < 256 }
    ensures { result ≡ utf32_candidate endian a b c d }
{
    match endian {
        Endian::Big => a * 0x100_0000 + b * 0x1_0000 + c * 0x100 + d,
        Endian::Little => d * 0x100_0000 + c * 0x1_0000 + b * 0x100 + a,
    }
}

/// The character that the bytes speak of, if they spell one.
fn character(kind: UtfKind, endian: Endian, a: u8, b: u8, c: u8, d: u8) -> u32
    ensures { result ≡ candidate kind endian a b c d }
{
    let (a, b, c, d) = (a as u32, b as u32, c as u32, d as u32);
    match kind {
        UtfKind::Utf8 => utf8_character(a, b, c, d),
        UtfKind::Utf16 => pair(unit(endian, a, b), unit(endian, c, d)),
        UtfKind::Utf32 => utf32_character(endian, a, b, c, d),
    }
}

/// Whether the first `count` bytes begin with these.
fn begins(word: &[u8], count: u32, bytes: &[u8]) -> bool
    requires { count ≤ length word.now }
    ensures { IsTrue result ↔ (length bytes.now ≤ count) × (take (length bytes.now) word.now ≡ bytes.now) }
{
    bytes.len() <= count as usize && &word[..bytes.len()] == bytes
}

/// The character that stands at bit `off`, and the number of its bytes; None exactly where none stands there.
pub fn decode(kind: UtfKind, endian: Endian, source: Bits<'_>, off: u32) -> Option<(u32, u8)>
    requires inside { off ≤ length source }
    ensures found { IfSome result (λ found. IsTrue (is_character found.0) × (found.1 ≡ length (utf_bytes kind endian found.0)) × Begins (all_bits (utf_bytes kind endian found.0)) (drop off source.entry)) }
    ensures none { IfNone result ((c : ℕ) → IsTrue (is_character c) → Begins (all_bits (utf_bytes kind endian c)) (drop off source.entry) → ⊥) }
{
    let count = ((source.len() - off) / 8).min(4);
    let word = front(&source, off, count);
    let character = character(kind, endian, word[0], word[1], word[2], word[3]);
    match encode(kind, endian, character as i128) {
        Ok(bytes) => {
            if begins(&word, count, &bytes) {
                Some((character, bytes.len() as u8))
            } else {
                None
            }
        }
        Err(_) => None,
    }
}
