//! Bytes of binaries as integers.

ghost use Rattle.std.specs.Prelude.{◌≡◌, ◌+◌, ◌/◌, ◌≤◌, ◌%◌, Bool, List, length, pos, take, drop, map, IfOk, ℕ};
ghost use Rattle.bits_value.specs.Number.{natural};
ghost use Rattle.term_value.specs.BuiltIns.{binary_to_list as binary_to_list_of, bytes_of};
ghost use Rattle.term_value.specs.Primitives.{bounded_result};
ghost use Rattle.term_value.specs.Terms.{value_of};
ghost use Rattle.term_value.specs.Value.{VBits};
ghost use Rattle.expr_eval.specs.Answers.{IsEvaluated, HasAnswer};
ghost use Rattle.expr_eval.specs.Kinds.{HasBits};

use crate::reason::{Answer, EvalFault, bad_argument};
use crate::rows::list_answer;
use bit_store::Store;
use bits_value::Bits;
use std::alloc::{AllocError, Global};
use term_value::Term;

/// The most items that a list may have.
const MOST_ITEMS: u32 = 1_048_576;

// The number of the eight bits from `off` on.
fn byte_at(bits: &Bits<'_>, off: u32) -> u8
    requires { off + 8 ≤ length bits.now }
    ensures { result ≡ natural (take 8 (drop off bits.now)) }
{
    match bits.uint(off, 8) {
        Some(number) => number as u8,
        None => 0,
    }
}

/// The numbers of the whole bytes.
pub(crate) fn bytes_in(alloc: Global, bits: &Bits<'_>) -> Result<Vec<u8>, AllocError>
    ensures { IfOk result (λ bytes. bytes.items ≡ bytes_of (length bits.now / 8) bits.now) }
{
    let count = bits.len() / 8;
    let mut bytes = Vec::new(alloc);
    for index in 0..count {
        bytes.push(byte_at(bits, 8 * index))?;
    }
    Ok(bytes)
}

/// `binary_to_list/1`
pub(crate) fn binary_to_list<R: Drop, S: Store<R>>(
    alloc: Global,
    store: &S,
    binary: &Term<R>,
) -> Answer<R>
    requires { HasBits (S.has store.now) binary.now }
    ensures is { IsEvaluated (S.shown store.now) result (bounded_result (binary_to_list_of (value_of (S.shown store.now) binary.now))) }
    ensures known { HasAnswer (S.has store.now) result }
{
    match binary {
        Term::Bits(of) => byte_list(alloc, store, store.look(of)),
        _ => bad_argument(),
    }
}

fn byte_list<R: Drop, S: Store<R>>(alloc: Global, store: &S, bits: Bits<'_>) -> Answer<R>
    ensures is { IsEvaluated (S.shown store.now) result (bounded_result (binary_to_list_of (VBits bits.entry))) }
    ensures known { HasAnswer (S.has store.now) result }
{
    if bits.len() % 8 != 0 {
        return bad_argument();
    }
    if bits.len() / 8 > MOST_ITEMS {
        return Err(EvalFault::Limit);
    }
    match integers(alloc, &bits) {
        Ok(items) => list_answer(alloc, items),
        Err(_) => Err(EvalFault::NoMemory),
    }
}

// The numbers of the whole bytes as terms.
fn integers<R: Drop>(alloc: Global, bits: &Bits<'_>) -> Result<Vec<Term<R>>, AllocError>
    ensures { IfOk result (λ items. items.items ≡ map (λ n. Term.Int (pos n)) (bytes_of (length bits.now / 8) bits.now)) }
{
    let count = bits.len() / 8;
    let mut items = Vec::new(alloc);
    for index in 0..count {
        items.push(Term::Int(i128::from(byte_at(bits, 8 * index))))?;
    }
    Ok(items)
}
