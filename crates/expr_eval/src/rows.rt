//! Tuples and lists of the items of others.

ghost use Rattle.std.specs.Prelude.{◌≡◌, Bool, List, IfOk};
ghost use Rattle.bit_store.specs.Stores.{AnyAtom};
ghost use Rattle.term_value.specs.Bounds.{within};
ghost use Rattle.term_value.specs.BuiltIns.{tuple_to_list as tuple_to_list_of, list_to_tuple as list_to_tuple_of, list_reversed};
ghost use Rattle.term_value.specs.Primitives.{bounded_result};
ghost use Rattle.term_value.specs.Seen.{meanings, SList, STuple};
ghost use Rattle.term_value.specs.Terms.{value_of, row, row_of, IsOver};
ghost use Rattle.term_value.specs.Value.{VList, VTuple};
ghost use Rattle.expr_eval.specs.Answers.{IsEvaluated, HasAnswer, IsAnswerWith};

use crate::reason::{Answer, EvalFault, Reason, bad_argument};
use bit_store::Store;
use shares::Share;
use std::alloc::{AllocError, Global};
use term_value::{Cells, Term, list_of, tuple_of};

// The items, shared.
fn shared_items<R: Share + Drop>(
    alloc: Global,
    items: &[Term<R>],
) -> Result<Vec<Term<R>>, AllocError>
    ensures { IfOk result (λ copy. copy.items ≡ items.now) }
{
    let mut copy = Vec::new(alloc);
    for item in items {
        copy.push(item.share()?)?;
    }
    Ok(copy)
}

// The items of a list, shared.
#[tactic(auto, using(crate::proofs::RowItems::onto_nothing, crate::proofs::RowItems::onto_next))]
fn items_of<R: Share + Drop>(alloc: Global, list: &Cells<R>) -> Result<Vec<Term<R>>, AllocError>
    ensures { IfOk result (λ items. row items.items ≡ row_of list.now) }
{
    let mut items = Vec::new(alloc);
    let mut left = list;
    while let Some((item, rest)) = left.split() {
        items.push(item.share()?)?;
        left = rest;
    }
    Ok(items)
}

/// The list of these items; Limit past a bound.
pub(crate) fn list_answer<R: Drop>(alloc: Global, items: Vec<Term<R>>) -> Answer<R>
    ensures is { (shown : R → List Bool) → IsEvaluated shown result (within (VList (meanings shown (row items.items)))) }
    ensures kept { IsAnswerWith (SList (row items.items)) result }
{
    match list_of(alloc, items) {
        Ok(made) => match made {
            Some(list) => Ok(list),
            None => Err(EvalFault::Limit),
        },
        Err(_) => Err(EvalFault::NoMemory),
    }
}

/// The tuple of these items; Limit past a bound.
pub(crate) fn tuple_answer<R: Drop>(alloc: Global, items: Vec<Term<R>>) -> Answer<R>
    ensures is { (shown : R → List Bool) → IsEvaluated shown result (within (VTuple (meanings shown (row items.items)))) }
    ensures kept { IsAnswerWith (STuple (row items.items)) result }
{
    match tuple_of(alloc, items) {
        Ok(made) => match made {
            Some(tuple) => Ok(tuple),
            None => Err(EvalFault::Limit),
        },
        Err(_) => Err(EvalFault::NoMemory),
    }
}

/// `tuple_to_list/1`
pub(crate) fn tuple_to_list<R: Share + Drop, S: Store<R>>(
    alloc: Global,
    store: &S,
    tuple: &Term<R>,
) -> Answer<R>
    requires { IsOver (S.has store.now) AnyAtom tuple.now }
    ensures is { IsEvaluated (S.shown store.now) result (bounded_result (tuple_to_list_of (value_of (S.shown store.now) tuple.now))) }
    ensures known { HasAnswer (S.has store.now) result }
{
    match tuple {
        Term::Tuple(items) => match shared_items(alloc, items.get().items()) {
            Ok(items) => list_answer(alloc, items),
            Err(_) => Err(EvalFault::NoMemory),
        },
        _ => bad_argument(),
    }
}

/// `list_to_tuple/1`
pub(crate) fn list_to_tuple<R: Share + Drop, S: Store<R>>(
    alloc: Global,
    store: &S,
    list: &Term<R>,
) -> Answer<R>
    requires { IsOver (S.has store.now) AnyAtom list.now }
    ensures is { IsEvaluated (S.shown store.now) result (bounded_result (list_to_tuple_of (value_of (S.shown store.now) list.now))) }
    ensures known { HasAnswer (S.has store.now) result }
{
    match list {
        Term::List(items) => match items_of(alloc, items) {
            Ok(items) => tuple_answer(alloc, items),
            Err(_) => Err(EvalFault::NoMemory),
        },
        _ => bad_argument(),
    }
}

/// `lists:reverse/1`
pub(crate) fn reversed<R: Share + Drop, S: Store<R>>(
    alloc: Global,
    store: &S,
    list: &Term<R>,
) -> Answer<R>
    requires { IsOver (S.has store.now) AnyAtom list.now }
    ensures is { IsEvaluated (S.shown store.now) result (bounded_result (list_reversed (value_of (S.shown store.now) list.now))) }
    ensures known { HasAnswer (S.has store.now) result }
{
    match list {
        Term::List(items) => match items_of(alloc, items) {
            Ok(mut items) => {
                items.reverse();
                list_answer(alloc, items)
            }
            Err(_) => Err(EvalFault::NoMemory),
        },
        _ => Err(EvalFault::Raised(Reason::FunctionClause)),
    }
}
