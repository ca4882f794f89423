//! Tuples and lists of values.

ghost use Rattle.std.specs.Prelude.{◌≡◌, ◌∷◌, ◌++◌, [], IfOk, IfErr, IfSome, Err, Bool, List};
ghost use Rattle.bit_store.specs.Stores.{AnyAtom};
ghost use Rattle.term_value.specs.Bounds.{within};
ghost use Rattle.term_value.specs.Made.{given};
ghost use Rattle.term_value.specs.Primitives.{prim, bounded_result, listed_on};
ghost use Rattle.term_value.specs.Seen.{meanings, then, AreKnown};
ghost use Rattle.term_value.specs.Setting.{Setting};
ghost use Rattle.term_value.specs.Terms.{row, row_of, seen, value_of, IsOver};
ghost use Rattle.term_value.specs.Tree as t;
ghost use Rattle.term_value.specs.Value.{VList, more};
ghost use Rattle.expr_eval.specs.Answers.{IsEvaluated, HasAnswer};
ghost use Rattle.proc_values.specs.Rows.{onto};

use bit_store::Store;
use expr_eval::{Answer, EvalFault, Reason};
use std::alloc::Global;
use term_value::{Cells, Term, cons, is_bounded, list_of, tuple_of};

/// The tuple of these values.
pub(crate) fn tuple<R: Drop, S: Store<R>>(
    alloc: Global,
    store: &S,
    values: Vec<Term<R>>,
) -> Answer<R>
    requires { AreKnown (S.has store.now) AnyAtom (row values.items) }
    ensures is { (s : Setting) → IsEvaluated (S.shown store.now) result (prim s t.MakeTuple (meanings (S.shown store.now) (row values.items))) }
    ensures known { HasAnswer (S.has store.now) result }
{
    match tuple_of(alloc, values) {
        Ok(made) => bounded_term(store, made),
        Err(_) => Err(EvalFault::NoMemory),
    }
}

/// The list of these values.
pub(crate) fn list<R: Drop, S: Store<R>>(
    alloc: Global,
    store: &S,
    values: Vec<Term<R>>,
) -> Answer<R>
    requires { AreKnown (S.has store.now) AnyAtom (row values.items) }
    ensures is { (s : Setting) → IsEvaluated (S.shown store.now) result (prim s t.MakeList (meanings (S.shown store.now) (row values.items))) }
    ensures known { HasAnswer (S.has store.now) result }
{
    match list_of(alloc, values) {
        Ok(made) => bounded_term(store, made),
        Err(_) => Err(EvalFault::NoMemory),
    }
}

// The term, or the limit.
fn bounded_term<R: Drop, S: Store<R>>(store: &S, made: Option<Term<R>>) -> Answer<R>
    requires { IfSome made (IsOver (S.has store.now) AnyAtom) }
    ensures is { IsEvaluated (S.shown store.now) result (given (S.shown store.now) made) }
    ensures known { HasAnswer (S.has store.now) result }
{
    match made {
        Some(term) => Ok(term),
        None => Err(EvalFault::Limit),
    }
}

/// The list of the values before the last, which is its tail.
pub(crate) fn list_on<R: Drop, S: Store<R>>(
    alloc: Global,
    store: &S,
    values: Vec<Term<R>>,
) -> Answer<R>
    requires { AreKnown (S.has store.now) AnyAtom (row values.items) }
    ensures is { IsEvaluated (S.shown store.now) result (bounded_result (listed_on (meanings (S.shown store.now) (row values.items)))) }
    ensures known { HasAnswer (S.has store.now) result }
{
    let mut items = values;
    match items.pop() {
        Some(tail) => list_with(alloc, store, items, tail),
        None => Err(EvalFault::Raised(Reason::BadArg)),
    }
}

// The list of these items before a tail, which has to be a list.
fn list_with<R: Drop, S: Store<R>>(
    alloc: Global,
    store: &S,
    items: Vec<Term<R>>,
    tail: Term<R>,
) -> Answer<R>
    requires items { AreKnown (S.has store.now) AnyAtom (row items.items) }
    requires tail { IsOver (S.has store.now) AnyAtom tail }
    ensures is { IsEvaluated (S.shown store.now) result (bounded_result (listed_on (meanings (S.shown store.now) (row (items.items ++ tail ∷ []))))) }
    ensures known { HasAnswer (S.has store.now) result }
{
    match tail {
        Term::List(tail) => list_before(alloc, store, items, tail),
        _ => Err(EvalFault::Raised(Reason::BadArg)),
    }
}

// The list of these items and then those of the tail.
#[tactic(auto, using(crate::proofs::Prepended::onto_last))]
fn list_before<R: Drop, S: Store<R>>(
    alloc: Global,
    store: &S,
    items: Vec<Term<R>>,
    tail: Cells<R>,
) -> Answer<R>
    requires items { AreKnown (S.has store.now) AnyAtom (row items.items) }
    requires tail { AreKnown (S.has store.now) AnyAtom (row_of tail) }
    ensures is { IsEvaluated (S.shown store.now) result (within (VList (meanings (S.shown store.now) (onto items.items (row_of tail))))) }
    ensures known { HasAnswer (S.has store.now) result }
{
    let mut left = items;
    let mut list = tail;
    while let Some(item) = left.pop() {
        match longer(alloc, store, item, list) {
            Ok(made) => list = made,
            Err(fault) => return Err(fault),
        }
    }
    let made = Term::List(list);
    if is_bounded(&made) {
        Ok(made)
    } else {
        Err(EvalFault::Limit)
    }
}

// The list with this item in front.
fn longer<R: Drop, S: Store<R>>(
    alloc: Global,
    store: &S,
    item: Term<R>,
    rest: Cells<R>,
) -> Result<Cells<R>, EvalFault<R>>
    ensures is { IfOk result (λ list. row_of list ≡ then (seen item) (row_of rest)) }
    ensures refused { IfErr result (λ fault. IsEvaluated (S.shown store.now) (Err fault) (within (VList (more (value_of (S.shown store.now) item) (meanings (S.shown store.now) (row_of rest)))))) }
    ensures known { IfErr result (λ fault. HasAnswer (S.has store.now) (Err fault)) }
{
    match cons(alloc, item, rest) {
        Ok(Some(Term::List(list))) => Ok(list),
        Ok(_) => Err(EvalFault::Limit),
        Err(_) => Err(EvalFault::NoMemory),
    }
}
