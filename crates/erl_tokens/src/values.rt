ghost use Rattle.std.specs.Prelude.{◌≡◌, ◌≤◌, ◌++◌, pos, OnOk, string_bytes, IfOk, IfSome, IsSome, MatchOption, ◌<◌, ◌^◌};
ghost use Rattle.std.specs.Char.{encode_utf8};
ghost use Rattle.erl_syntax.specs.Characters.{integer_value, character_number, string_characters, atom_text, as_character, number};
ghost use Rattle.erl_tokens.specs.Values.{IsInteger};

use crate::characters::{digit_run, is_at, number};
use crate::integers::base_of;
use crate::quotes::{between_quotes, unit};
use erl_syntax::Text;
use std::alloc::{AllocError, Global};

/// The value of the bytes of an integer token, which is below 2^127.
pub fn integer_value(token: &[u8]) -> Option<i128>
    ensures value { IfSome result (λ v. v ≡ pos (integer_value token.now)) }
    ensures succeeds { IsInteger token.now → IsSome result }
{
    if token.is_empty() {
        return Some(0);
    }
    let len = 1 + digit_run(&token[1..], 10);
    if !is_at(token, len, b'#') {
        return value_in(10, token);
    }
    match base_of(&token[..len]) {
        Some(base) => value_in(base, &token[len + 1..]),
        None => None,
    }
}

/// The value of digits of a base, where it is below 2^127.
fn value_in(base: u8, digits: &[u8]) -> Option<i128>
    requires { (0 < base) × (base ≤ 36) }
    ensures { MatchOption result (2 ^ 127 ≤ number base digits.now) (λ v. v ≡ pos (number base digits.now)) }
{
    match number(digits, base) {
        Some(value) => Some(value as i128),
        None => None,
    }
}

/// The number of the character that the bytes of a `$` token stand for.
pub fn character_number(token: &[u8]) -> u32
    ensures { result ≡ character_number token.now }
{
    if token.len() < 2 {
        return 0;
    }
    unit(&token[1..]).number
}

/// The numbers of the characters that the bytes of a string token stand for.
pub fn string_characters(alloc: Global, token: &[u8]) -> Result<Vec<u32>, AllocError>
    ensures { IfOk result (λ v. v.items ≡ string_characters token.now) }
{
    let bs = between_quotes(token);
    let mut characters = Vec::new(alloc);
    let mut at = 0;
    while at < bs.len() {
        let unit = unit(&bs[at..]);
        characters.push(unit.number)?;
        at += unit.len;
    }
    Ok(characters)
}

/// The character of that number, or the replacement character where it is no character's.
fn as_character(number: u32) -> char
    ensures { result ≡ as_character number }
{
    char::from_u32(number).unwrap_or('\u{FFFD}')
}

/// The characters of an atom in UTF-8, by the bytes of its token.
pub fn atom_text(alloc: Global, token: &[u8]) -> Result<Text, AllocError>
    ensures { IfOk result (λ text. text ≡ atom_text token.now) }
{
    if !is_at(token, 0, b'\'') {
        return Ok(Text::of(token.to_vec(alloc)?));
    }
    let bs = between_quotes(token);
    let mut text = String::new(alloc);
    let mut at = 0;
    while at < bs.len() {
        let unit = unit(&bs[at..]);
        text.push(as_character(unit.number))?;
        at += unit.len;
    }
    Ok(Text::of(text.into_bytes()))
}
