//! Decimal text of integers.

ghost use Rattle.std.specs.Prelude.{◌≡◌, ◌-◌, ◌^◌, ℕ, Bool, List, pos, neg_ℤ, min, cond, Some, None, Option};
ghost use Rattle.std.specs.Char.{digit_value};
ghost use Rattle.bits_value.specs.Number.{bounded};
ghost use Rattle.erl_syntax.specs.Characters.{is_digit as digit_is};
ghost use Rattle.term_value.specs.Arithmetic.{value_or_limit};
ghost use Rattle.term_value.specs.BuiltIns.{binary_to_integer as binary_to_integer_of, digits_number as digits_number_of, integer_of as integer_of_text, positive as positive_of, negative as negative_of};
ghost use Rattle.term_value.specs.Primitives.{bounded_result};
ghost use Rattle.term_value.specs.Terms.{value_of};
ghost use Rattle.term_value.specs.Value.{VBits};
ghost use Rattle.expr_eval.specs.Answers.{IsComputed, IsEvaluated, IsPlain};
ghost use Rattle.expr_eval.specs.Digits.{at_most};
ghost use Rattle.expr_eval.specs.Kinds.{HasBits};

use crate::bytes::bytes_in;
use crate::operators::number_term;
use crate::reason::{Answer, EvalFault, bad_argument};
use bit_store::Store;
use bits_value::Bits;
use std::alloc::Global;
use term_value::{Arith, Term};

/// The magnitude of the smallest integer, 2^127.
const MAGNITUDE_OF_SMALLEST: u128 = 170_141_183_460_469_231_731_687_303_715_884_105_728;

/// `binary_to_integer/1`
pub(crate) fn binary_to_integer<R, S: Store<R>>(
    alloc: Global,
    store: &S,
    binary: &Term<R>,
) -> Answer<R>
    requires { HasBits (S.has store.now) binary.now }
    ensures is { IsEvaluated (S.shown store.now) result (bounded_result (binary_to_integer_of (value_of (S.shown store.now) binary.now))) }
    ensures plain { IsPlain result }
{
    match binary {
        Term::Bits(of) => integer_in(alloc, store.look(of)),
        _ => bad_argument(),
    }
}

fn integer_in<R>(alloc: Global, bits: Bits<'_>) -> Answer<R>
    ensures is { (shown : R → List Bool) → IsEvaluated shown result (bounded_result (binary_to_integer_of (VBits bits.entry))) }
    ensures plain { IsPlain result }
{
    if bits.len() % 8 != 0 {
        return bad_argument();
    }
    match bytes_in(alloc, &bits) {
        Ok(text) => integer_of(&text),
        Err(_) => Err(EvalFault::NoMemory),
    }
}

// The integer of a text: a sign or none, and then at least one digit.
fn integer_of<R>(text: &[u8]) -> Answer<R>
    ensures is { (shown : R → List Bool) → IsComputed shown result (bounded_result (integer_of_text text.now)) }
    ensures plain { IsPlain result }
{
    let Some((first, rest)) = text.split_first() else {
        return bad_argument();
    };
    if *first == b'+' {
        positive(rest)
    } else if *first == b'-' {
        negative(rest)
    } else {
        positive(text)
    }
}

fn positive<R>(digits: &[u8]) -> Answer<R>
    ensures is { (shown : R → List Bool) → IsComputed shown result (bounded_result (positive_of (digits_number_of digits.now))) }
    ensures plain { IsPlain result }
{
    match digits_number(digits) {
        Some(number) => number_term(positive_value(number)),
        None => bad_argument(),
    }
}

fn negative<R>(digits: &[u8]) -> Answer<R>
    ensures is { (shown : R → List Bool) → IsComputed shown result (bounded_result (negative_of (digits_number_of digits.now))) }
    ensures plain { IsPlain result }
{
    match digits_number(digits) {
        Some(number) => number_term(negative_value(number)),
        None => bad_argument(),
    }
}

fn positive_value(number: u128) -> Arith
    ensures { (exact : ℕ) → number ≡ min exact (2 ^ 128 - 1) → result ≡ value_or_limit (bounded (pos exact)) }
{
    match i128::try_from(number) {
        Ok(number) => Arith::Value(number),
        Err(_) => Arith::Limit,
    }
}

fn negative_value(number: u128) -> Arith
    ensures { (exact : ℕ) → number ≡ min exact (2 ^ 128 - 1) → result ≡ value_or_limit (bounded (neg_ℤ (pos exact))) }
{
    match i128::try_from(number) {
        Ok(number) => Arith::Value(-number),
        Err(_) => {
            if number == MAGNITUDE_OF_SMALLEST {
                Arith::Value(i128::MIN)
            } else {
                Arith::Limit
            }
        }
    }
}

// The number of decimal digits, 2^128 - 1 where it is larger; None where there is none, or another byte.
fn digits_number(digits: &[u8]) -> Option<u128>
    ensures { result ≡ at_most (2 ^ 128 - 1) (digits_number_of digits.now) }
{
    if digits.is_empty() {
        return None;
    }
    let mut number = 0u128;
    for byte in digits {
        match digit(*byte) {
            Some(digit) => {
                number = number.saturating_mul(10).saturating_add(u128::from(digit));
            }
            None => return None,
        }
    }
    Some(number)
}

fn digit(byte: u8) -> Option<u8>
    ensures { result ≡ cond (digit_is 10 byte) (Some (digit_value byte)) None }
{
    if byte < b'0' || byte > b'9' {
        None
    } else {
        Some(byte - b'0')
    }
}
