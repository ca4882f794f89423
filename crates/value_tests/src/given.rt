//! The arguments of rows, and what an evaluation of them is to answer.

ghost use Rattle.std.specs.Prelude.{◌≤◌, IfOk, IfSome, length};
ghost use Rattle.bits_value.specs.declared.TheConstants.{MAX_BITS};
ghost use Rattle.bit_store.specs.Stores.{AnyAtom};
ghost use Rattle.expr_eval.specs.Answers.{HasAnswer, HasReason};
ghost use Rattle.term_value.specs.Seen.{AreKnown};
ghost use Rattle.term_value.specs.Terms.{IsOver, row};

use bit_store::{Piece, PlainStore, Store, StoreLook, Window};
use bits_value::{Endian, Steps};
use erl_syntax::{FIXED_ATOMS, Text};
use expr_eval::{Answer, EvalFault, Reason};
use std::alloc::{AllocError, Global};
use term_value::{Cells, Term, list_of, show, tuple_of};

/// An argument.
#[derive(Clone, Copy)]
pub(crate) enum Given {
    Number(i128),
    /// By its place in `FIXED_ATOMS`.
    Atom(u32),
    Pid(u32),
    Binary(&'static [u8]),
    /// The number's lowest three bits.
    Bits(i128),
    /// The list of these numbers.
    List(&'static [i128]),
    /// The tuple of these numbers.
    Tuple(&'static [i128]),
    /// A list: the list of these numbers, the binary of these bytes, and an empty list.
    Nested(&'static [i128], &'static [u8]),
    /// So many bits, each 0.
    Zeros(u32),
    /// The list of two such bitstrings.
    ZerosTwice(u32, u32),
    /// The list of so many integers, each 0.
    Long(u32),
    /// So many lists, each the one item of the next, but for the innermost, which is empty.
    Deep(u32),
}

/// What an evaluation is to answer: a text is of the value, or of the reason.
#[derive(Clone, Copy)]
pub(crate) enum Want {
    Gives(&'static [u8]),
    Raises(&'static [u8]),
    Limit,
}

pub(crate) fn term(alloc: Global, store: &mut PlainStore, given: Given) -> Option<Term<Window>>
    ensures { IfSome result (λ term. IsOver (λ of. length of ≤ MAX_BITS) AnyAtom term) }
{
    match given {
        Given::Number(number) => Some(Term::Int(number)),
        Given::Atom(atom) => Some(Term::Atom(atom)),
        Given::Pid(pid) => Some(Term::Pid(pid)),
        Given::Binary(bytes) => binary(alloc, store, bytes),
        Given::Bits(value) => bits(store, value),
        Given::List(numbers) => list(alloc, numbers),
        Given::Tuple(numbers) => tuple(alloc, numbers),
        Given::Nested(numbers, bytes) => nested(alloc, store, numbers, bytes),
        Given::Zeros(len) => zeros(store, len),
        Given::ZerosTwice(first, second) => zeros_twice(alloc, store, first, second),
        Given::Long(count) => long(alloc, count),
        Given::Deep(count) => deep(alloc, count),
    }
}

fn binary(alloc: Global, store: &mut PlainStore, bytes: &[u8]) -> Option<Term<Window>>
    ensures { IfSome result (λ term. IsOver (λ of. length of ≤ MAX_BITS) AnyAtom term) }
{
    let Ok(copy) = bytes.to_vec(alloc) else {
        return None;
    };
    let pieces = [Piece::Bytes(Text::of(copy))];
    match store.fresh(&pieces, &mut Steps::new()) {
        Ok(made) => Some(Term::Bits(made)),
        Err(_) => None,
    }
}

fn bits(store: &mut PlainStore, value: i128) -> Option<Term<Window>>
    ensures { IfSome result (λ term. IsOver (λ of. length of ≤ MAX_BITS) AnyAtom term) }
{
    number_bits(store, value, 3)
}

fn zeros(store: &mut PlainStore, len: u32) -> Option<Term<Window>>
    ensures { IfSome result (λ term. IsOver (λ of. length of ≤ MAX_BITS) AnyAtom term) }
{
    number_bits(store, 0, len)
}

fn number_bits(store: &mut PlainStore, value: i128, bits: u32) -> Option<Term<Window>>
    ensures { IfSome result (λ term. IsOver (λ of. length of ≤ MAX_BITS) AnyAtom term) }
{
    let pieces = [Piece::Number {
        value,
        bits,
        endian: Endian::Big,
    }];
    match store.fresh(&pieces, &mut Steps::new()) {
        Ok(made) => Some(Term::Bits(made)),
        Err(_) => None,
    }
}

#[tactic(auto, using(crate::proofs::KnownRows::known_last))]
fn integers(alloc: Global, numbers: &[i128]) -> Result<Vec<Term<Window>>, AllocError>
    ensures { IfOk result (λ items. AreKnown (λ of. length of ≤ MAX_BITS) AnyAtom (row items.items)) }
{
    let mut items = Vec::new(alloc);
    for number in numbers {
        items.push(Term::Int(*number))?;
    }
    Ok(items)
}

fn list(alloc: Global, numbers: &[i128]) -> Option<Term<Window>>
    ensures { IfSome result (λ term. IsOver (λ of. length of ≤ MAX_BITS) AnyAtom term) }
{
    match integers(alloc, numbers) {
        Ok(items) => listed(alloc, items),
        Err(_) => None,
    }
}

#[tactic(auto, using(crate::proofs::KnownRows::seen_known))]
fn listed(alloc: Global, items: Vec<Term<Window>>) -> Option<Term<Window>>
    requires { AreKnown (λ of. length of ≤ MAX_BITS) AnyAtom (row items.items) }
    ensures { IfSome result (λ term. IsOver (λ of. length of ≤ MAX_BITS) AnyAtom term) }
{
    match list_of(alloc, items) {
        Ok(made) => made,
        Err(_) => None,
    }
}

fn tuple(alloc: Global, numbers: &[i128]) -> Option<Term<Window>>
    ensures { IfSome result (λ term. IsOver (λ of. length of ≤ MAX_BITS) AnyAtom term) }
{
    match integers(alloc, numbers) {
        Ok(items) => tupled(alloc, items),
        Err(_) => None,
    }
}

#[tactic(auto, using(crate::proofs::KnownRows::seen_known))]
fn tupled(alloc: Global, items: Vec<Term<Window>>) -> Option<Term<Window>>
    requires { AreKnown (λ of. length of ≤ MAX_BITS) AnyAtom (row items.items) }
    ensures { IfSome result (λ term. IsOver (λ of. length of ≤ MAX_BITS) AnyAtom term) }
{
    match tuple_of(alloc, items) {
        Ok(made) => made,
        Err(_) => None,
    }
}

fn nested(
    alloc: Global,
    store: &mut PlainStore,
    numbers: &[i128],
    bytes: &[u8],
) -> Option<Term<Window>>
    ensures { IfSome result (λ term. IsOver (λ of. length of ≤ MAX_BITS) AnyAtom term) }
{
    let first = list(alloc, numbers)?;
    let second = binary(alloc, store, bytes)?;
    match vec![in alloc; first, second, Term::List(Cells::Empty)] {
        Ok(items) => listed(alloc, items),
        Err(_) => None,
    }
}

fn zeros_twice(
    alloc: Global,
    store: &mut PlainStore,
    first: u32,
    second: u32,
) -> Option<Term<Window>>
    ensures { IfSome result (λ term. IsOver (λ of. length of ≤ MAX_BITS) AnyAtom term) }
{
    let first = zeros(store, first)?;
    let second = zeros(store, second)?;
    match vec![in alloc; first, second] {
        Ok(items) => listed(alloc, items),
        Err(_) => None,
    }
}

fn long(alloc: Global, count: u32) -> Option<Term<Window>>
    ensures { IfSome result (λ term. IsOver (λ of. length of ≤ MAX_BITS) AnyAtom term) }
{
    match zero_items(alloc, count) {
        Ok(items) => listed(alloc, items),
        Err(_) => None,
    }
}

#[tactic(auto, using(crate::proofs::KnownRows::known_last))]
fn zero_items(alloc: Global, count: u32) -> Result<Vec<Term<Window>>, AllocError>
    ensures { IfOk result (λ items. AreKnown (λ of. length of ≤ MAX_BITS) AnyAtom (row items.items)) }
{
    let mut items = Vec::new(alloc);
    for _item in 0..count {
        items.push(Term::Int(0))?;
    }
    Ok(items)
}

fn deep(alloc: Global, count: u32) -> Option<Term<Window>>
    ensures { IfSome result (λ term. IsOver (λ of. length of ≤ MAX_BITS) AnyAtom term) }
{
    let mut term = Term::List(Cells::Empty);
    for _level in 1..count {
        let Some(around) = one_item(alloc, term) else {
            return None;
        };
        term = around;
    }
    Some(term)
}

fn one_item(alloc: Global, term: Term<Window>) -> Option<Term<Window>>
    requires { IsOver (λ of. length of ≤ MAX_BITS) AnyAtom term }
    ensures { IfSome result (λ term. IsOver (λ of. length of ≤ MAX_BITS) AnyAtom term) }
{
    match vec![in alloc; term] {
        Ok(items) => listed(alloc, items),
        Err(_) => None,
    }
}

#[tactic(auto, using(crate::proofs::KnownRows::known_last))]
pub(crate) fn terms(
    alloc: Global,
    store: &mut PlainStore,
    given: &[Given],
) -> Option<Vec<Term<Window>>>
    ensures { IfSome result (λ terms. AreKnown (λ of. length of ≤ MAX_BITS) AnyAtom (row terms.items)) }
{
    let mut terms = Vec::new(alloc);
    for each in given {
        let Some(term) = term(alloc, store, *each) else {
            return None;
        };
        if terms.push(term).is_err() {
            return None;
        }
    }
    Some(terms)
}

/// The names of the atoms.
pub(crate) fn names(alloc: Global) -> Option<Vec<Text>> {
    let mut names = Vec::new(alloc);
    for name in FIXED_ATOMS {
        let Ok(copy) = name.to_vec(alloc) else {
            return None;
        };
        if names.push(Text::of(copy)).is_err() {
            return None;
        }
    }
    Some(names)
}

/// Whether this is the answer that is wanted.
pub(crate) fn is_wanted(
    alloc: Global,
    look: &StoreLook<'_, PlainStore>,
    answer: Answer<Window>,
    want: Want,
) -> bool
    requires { HasAnswer (λ of. length of ≤ MAX_BITS) answer }
{
    match answer {
        Ok(term) => match want {
            Want::Gives(text) => shows(alloc, look, &term, text),
            _ => false,
        },
        Err(EvalFault::Raised(reason)) => match want {
            Want::Raises(text) => is_reason(alloc, look, reason, text),
            _ => false,
        },
        Err(EvalFault::Limit) => matches!(want, Want::Limit),
        Err(EvalFault::NoMemory) => false,
    }
}

fn is_reason(
    alloc: Global,
    look: &StoreLook<'_, PlainStore>,
    reason: Reason<Window>,
    text: &[u8],
) -> bool
    requires { HasReason (λ of. length of ≤ MAX_BITS) reason }
{
    match reason {
        Reason::BadArg => text == b"badarg".as_slice(),
        Reason::BadArith => text == b"badarith".as_slice(),
        Reason::FunctionClause => text == b"function_clause".as_slice(),
        Reason::Other(term) => shows(alloc, look, &term, text),
        _ => false,
    }
}

fn shows(alloc: Global, look: &StoreLook<'_, PlainStore>, term: &Term<Window>, text: &[u8]) -> bool
    requires { IsOver (λ of. length of ≤ MAX_BITS) AnyAtom term.now }
{
    match show(alloc, look, term) {
        Ok(shown) => shown.bytes() == text,
        Err(_) => false,
    }
}
