//! The sizes of values, and the absolute value of an integer.

ghost use Rattle.std.specs.Prelude.{◌≡◌, ◌+◌, Bool, List, length, pos, nat_abs};
ghost use Rattle.bits_value.specs.Number.{bounded};
ghost use Rattle.term_value.specs.Arithmetic.{value_or_limit};
ghost use Rattle.term_value.specs.BuiltIns.{number, bit_size as bit_size_of, byte_size as byte_size_of, tuple_size as tuple_size_of, list_length as length_of, absolute as absolute_of};
ghost use Rattle.term_value.specs.Primitives.{bounded_result};
ghost use Rattle.term_value.specs.Seen.{count_of};
ghost use Rattle.term_value.specs.Terms.{value_of, row_of};
ghost use Rattle.expr_eval.specs.Answers.{IsComputed, IsPlain};
ghost use Rattle.expr_eval.specs.Kinds.{HasBits};

use crate::operators::number_term;
use crate::reason::{Answer, bad_argument};
use bit_store::Store;
use term_value::{Arith, Cells, Term};

/// The largest integer, 2^127 - 1.
const LARGEST: u128 = 170_141_183_460_469_231_731_687_303_715_884_105_727;

/// `bit_size/1`
pub(crate) fn bit_size<R, S: Store<R>>(store: &S, value: &Term<R>) -> Answer<R>
    requires { HasBits (S.has store.now) value.now }
    ensures is { IsComputed (S.shown store.now) result (bounded_result (bit_size_of (value_of (S.shown store.now) value.now))) }
    ensures plain { IsPlain result }
{
    match value {
        Term::Bits(of) => number_term(counted(store.look(of).len() as usize)),
        _ => bad_argument(),
    }
}

/// `byte_size/1`
pub(crate) fn byte_size<R, S: Store<R>>(store: &S, value: &Term<R>) -> Answer<R>
    requires { HasBits (S.has store.now) value.now }
    ensures is { IsComputed (S.shown store.now) result (bounded_result (byte_size_of (value_of (S.shown store.now) value.now))) }
    ensures plain { IsPlain result }
{
    match value {
        Term::Bits(of) => number_term(counted((store.look(of).len() as usize).div_ceil(8))),
        _ => bad_argument(),
    }
}

/// `tuple_size/1`
pub(crate) fn tuple_size<R>(value: &Term<R>) -> Answer<R>
    ensures is { (shown : R → List Bool) → IsComputed shown result (bounded_result (tuple_size_of (value_of shown value.now))) }
    ensures plain { IsPlain result }
{
    match value {
        Term::Tuple(items) => number_term(counted(items.get().items().len())),
        _ => bad_argument(),
    }
}

/// `length/1`
pub(crate) fn list_length<R>(value: &Term<R>) -> Answer<R>
    ensures is { (shown : R → List Bool) → IsComputed shown result (bounded_result (length_of (value_of shown value.now))) }
    ensures plain { IsPlain result }
{
    match value {
        Term::List(items) => number_term(length(items)),
        _ => bad_argument(),
    }
}

/// `abs/1`
pub(crate) fn absolute<R>(value: &Term<R>) -> Answer<R>
    ensures is { (shown : R → List Bool) → IsComputed shown result (bounded_result (absolute_of (value_of shown value.now))) }
    ensures plain { IsPlain result }
{
    match value {
        Term::Int(number) => number_term(magnitude(*number)),
        _ => bad_argument(),
    }
}

fn magnitude(number: i128) -> Arith
    ensures { result ≡ value_or_limit (bounded (pos (nat_abs number))) }
{
    match number.checked_abs() {
        Some(number) => Arith::Value(number),
        None => Arith::Limit,
    }
}

/// A number of items, bits or bytes.
pub(crate) fn counted(count: usize) -> Arith
    ensures { result ≡ value_or_limit (bounded (pos count)) }
{
    Arith::Value(count as i128)
}

// The kept number of items, which stands still at 2^32 - 1. From there on they are counted.
fn length<R>(items: &Cells<R>) -> Arith
    ensures { result ≡ value_or_limit (bounded (pos (count_of (row_of items.now)))) }
{
    match items.length() {
        u32::MAX => counted_items(items),
        length => counted(length as usize),
    }
}

fn counted_items<R>(items: &Cells<R>) -> Arith
    ensures { result ≡ value_or_limit (bounded (pos (count_of (row_of items.now)))) }
{
    let mut count = 0u128;
    let mut rest = items;
    while let Some((_, after)) = rest.split() {
        if count >= LARGEST {
            return Arith::Limit;
        }
        count += 1;
        rest = after;
    }
    Arith::Value(count as i128)
}
