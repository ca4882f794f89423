ghost use Rattle.std.specs.Prelude.{◌≡◌, ◌<◌, ◌^◌, IsTrue, IfOk, OnErr, MatchOption, pos};
ghost use Rattle.bits_value.specs.Utf.{is_character, IsCharacter, utf8_bytes, unit_bytes, utf16_bytes, utf32_bytes, utf_bytes, Utf};

use arrayvec::ArrayVec;
use bits_value::{Endian, UtfKind};
use thiserror::Error;

/// The integer is no character: it is outside 0 to 16#D7FF and 16#E000 to 16#10FFFF.
#[derive(Debug, Drop, Error)]
#[error("no character")]
pub struct BadChar;

/// The character that this integer is.
fn character_of(value: i128) -> Option<u32>
    ensures { MatchOption result (IsCharacter value → ⊥) (λ c. (value ≡ pos c) × IsTrue (is_character c)) }
{
    if value < 0 || value >= 0x11_0000 {
        return None;
    }
    let character = value as u32;
    if character < 0xD800 || character >= 0xE000 {
        Some(character)
    } else {
        None
    }
}

fn utf8(character: u32) -> ArrayVec<u8, 4>
    requires { IsTrue (is_character character) }
    ensures { result.items ≡ utf8_bytes character }
{
    let mut bytes = ArrayVec::new();
    if character < 0x80 {
        bytes.push(character as u8);
    } else if character < 0x800 {
        bytes.push((0xC0 + character / 0x40) as u8);
        bytes.push((0x80 + character % 0x40) as u8);
    } else if character < 0x1_0000 {
        bytes.push((0xE0 + character / 0x1000) as u8);
        bytes.push((0x80 + character / 0x40 % 0x40) as u8);
        bytes.push((0x80 + character % 0x40) as u8);
    } else {
        bytes.push((0xF0 + character / 0x4_0000) as u8);
        bytes.push((0x80 + character / 0x1000 % 0x40) as u8);
        bytes.push((0x80 + character / 0x40 % 0x40) as u8);
        bytes.push((0x80 + character % 0x40) as u8);
    }
    bytes
}

/// The two bytes of a unit.
fn unit(value: u32, endian: Endian) -> [u8; 2]
    requires { value < 2 ^ 16 }
    ensures { result ≡ unit_bytes endian value }
{
    let high = (value / 0x100) as u8;
    let low = (value % 0x100) as u8;
    match endian {
        Endian::Big => [high, low],
        Endian::Little => [low, high],
    }
}

fn utf16(character: u32, endian: Endian) -> ArrayVec<u8, 4>
    requires { IsTrue (is_character character) }
    ensures { result.items ≡ utf16_bytes endian character }
{
    let mut bytes = ArrayVec::new();
    if character < 0x1_0000 {
        let [a, b] = unit(character, endian);
        bytes.push(a);
        bytes.push(b);
    } else {
        let rest = character - 0x1_0000;
        let [a, b] = unit(0xD800 + rest / 0x400, endian);
        let [c, d] = unit(0xDC00 + rest % 0x400, endian);
        bytes.push(a);
        bytes.push(b);
        bytes.push(c);
        bytes.push(d);
    }
    bytes
}

fn utf32(character: u32, endian: Endian) -> ArrayVec<u8, 4>
    requires { IsTrue (is_character character) }
    ensures { result.items ≡ utf32_bytes endian character }
{
    let top = (character / 0x100_0000) as u8;
    let high = (character / 0x1_0000 % 0x100) as u8;
    let middle = (character / 0x100 % 0x100) as u8;
    let low = (character % 0x100) as u8;
    match endian {
        Endian::Big => ArrayVec::from([top, high, middle, low]),
        Endian::Little => ArrayVec::from([low, middle, high, top]),
    }
}

/// The character's bytes.
pub fn spelling(kind: UtfKind, endian: Endian, character: u32) -> ArrayVec<u8, 4>
    requires { IsTrue (is_character character) }
    ensures { result.items ≡ utf_bytes kind endian character }
{
    match kind {
        UtfKind::Utf8 => utf8(character),
        UtfKind::Utf16 => utf16(character, endian),
        UtfKind::Utf32 => utf32(character, endian),
    }
}

/// The bytes that spell this integer as a character. UTF-8 has one byte order whatever the endianness.
///
/// # Errors
///
/// `BadChar` exactly where the integer is no character.
pub fn encode(kind: UtfKind, endian: Endian, value: i128) -> Result<ArrayVec<u8, 4>, BadChar>
    ensures spelled { IfOk result (λ bytes. Utf kind endian value bytes.items) }
    ensures refused { OnErr result (IsCharacter value → ⊥) }
{
    match character_of(value) {
        Some(character) => Ok(spelling(kind, endian, character)),
        None => Err(BadChar),
    }
}
