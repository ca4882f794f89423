//! Items of tuples and lists, and the greater and the smaller of two values.

ghost use Rattle.std.specs.Prelude.{◌≡◌, ◌≢◌, ◌+◌, ◌<◌, ◌^◌, ℕ, Bool, List, length, pos, IfSome, IfNone};
ghost use Rattle.term_value.specs.Value.{VInt, VTuple};
ghost use Rattle.term_value.specs.Seen.{AreKnown, meanings};
ghost use Rattle.term_value.specs.BuiltIns.{element as element_of, head as head_of, tail as tail_of, greater as greater_of, smaller as smaller_of};
ghost use Rattle.term_value.specs.Bounds.{within, value_or_limit};
ghost use Rattle.term_value.specs.Made.{items_within};
ghost use Rattle.term_value.specs.Primitives.{bounded_result};
ghost use Rattle.term_value.specs.Order.{order as order_of};
ghost use Rattle.term_value.specs.Result.{Gives};
ghost use Rattle.term_value.specs.Terms.{value_of, row, IsOver};
ghost use Rattle.bit_store.specs.Stores.{AnyAtom};
ghost use Rattle.expr_eval.specs.Answers.{IsEvaluated, HasAnswer, IsAnswerOf, setting};

use crate::caller::Caller;
use crate::reason::{Answer, EvalFault, bad_argument};
use bit_store::{Store, StoreLook};
use shares::Share;
use std::cmp::Ordering;
use term_value::{Term, compare, is_bounded};

/// An argument's item or the argument itself, shared; Limit where it is not within the bounds.
pub(crate) fn shared<R: Share + Drop, S: Store<R>>(store: &S, term: &Term<R>) -> Answer<R>
    requires { IsOver (S.has store.now) AnyAtom term.now }
    ensures is { IsEvaluated (S.shown store.now) result (within (value_of (S.shown store.now) term.now)) }
    ensures known { HasAnswer (S.has store.now) result }
{
    match term {
        Term::Int(number) => Ok(Term::Int(*number)),
        Term::Bits(of) => match of.share() {
            Ok(of) => Ok(Term::Bits(of)),
            Err(_) => Err(EvalFault::NoMemory),
        },
        _ => shared_within(term),
    }
}

// The same term, where its items are within the bounds.
fn shared_within<R: Share + Drop>(term: &Term<R>) -> Answer<R>
    ensures is { (shown : R → List Bool) → IsEvaluated shown result (value_or_limit (items_within (value_of shown term.now)) (value_of shown term.now)) }
    ensures same { IsAnswerOf term.now result }
{
    if !is_bounded(term) {
        return Err(EvalFault::Limit);
    }
    match term.share() {
        Ok(term) => Ok(term),
        Err(_) => Err(EvalFault::NoMemory),
    }
}

/// `element/2`, counted from 1.
pub(crate) fn element<R: Share + Drop, S: Store<R>>(
    store: &S,
    place: &Term<R>,
    tuple: &Term<R>,
) -> Answer<R>
    requires { IsOver (S.has store.now) AnyAtom tuple.now }
    ensures is { IsEvaluated (S.shown store.now) result (bounded_result (element_of (value_of (S.shown store.now) place.now) (value_of (S.shown store.now) tuple.now))) }
    ensures known { HasAnswer (S.has store.now) result }
{
    match place {
        Term::Int(place) => match tuple {
            Term::Tuple(items) => item_at(store, items.get().items(), *place),
            _ => bad_argument(),
        },
        _ => bad_argument(),
    }
}

fn item_at<R: Share + Drop, S: Store<R>>(store: &S, items: &[Term<R>], place: i128) -> Answer<R>
    requires { AreKnown (S.has store.now) AnyAtom (row items.now) }
    ensures is { IsEvaluated (S.shown store.now) result (bounded_result (element_of (VInt place) (VTuple (meanings (S.shown store.now) (row items.now))))) }
    ensures known { HasAnswer (S.has store.now) result }
{
    match index_of(place) {
        Some(index) => match items.get(index) {
            Some(item) => shared(store, item),
            None => bad_argument(),
        },
        None => bad_argument(),
    }
}

// The index of a place that is counted from 1.
fn index_of(place: i128) -> Option<usize>
    ensures some { IfSome result (λ index. place ≡ pos (index + 1)) }
    ensures none { IfNone result ((index : ℕ) → index < 2 ^ 64 → place ≢ pos (index + 1)) }
{
    if place < 1 {
        return None;
    }
    match usize::try_from(place - 1) {
        Ok(index) => Some(index),
        Err(_) => None,
    }
}

/// `hd/1`
pub(crate) fn head<R: Share + Drop, S: Store<R>>(store: &S, list: &Term<R>) -> Answer<R>
    requires { IsOver (S.has store.now) AnyAtom list.now }
    ensures is { IsEvaluated (S.shown store.now) result (bounded_result (head_of (value_of (S.shown store.now) list.now))) }
    ensures known { HasAnswer (S.has store.now) result }
{
    match list {
        Term::List(items) => match items.split() {
            Some((item, _)) => shared(store, item),
            None => bad_argument(),
        },
        _ => bad_argument(),
    }
}

/// `tl/1`
pub(crate) fn tail<R: Share + Drop, S: Store<R>>(store: &S, list: &Term<R>) -> Answer<R>
    requires { IsOver (S.has store.now) AnyAtom list.now }
    ensures is { IsEvaluated (S.shown store.now) result (bounded_result (tail_of (value_of (S.shown store.now) list.now))) }
    ensures known { HasAnswer (S.has store.now) result }
{
    match list {
        Term::List(items) => match items.split() {
            Some((_, rest)) => match rest.again() {
                Ok(rest) => bounded(Term::List(rest)),
                Err(_) => Err(EvalFault::NoMemory),
            },
            None => bad_argument(),
        },
        _ => bad_argument(),
    }
}

// A list, where it is within the bounds.
fn bounded<R: Drop>(list: Term<R>) -> Answer<R>
    ensures is { (shown : R → List Bool) → IsEvaluated shown result (value_or_limit (items_within (value_of shown list)) (value_of shown list)) }
    ensures same { IsAnswerOf list result }
{
    if is_bounded(&list) {
        Ok(list)
    } else {
        Err(EvalFault::Limit)
    }
}

/// `max/2`: the first where both are equal.
pub(crate) fn greater<R: Share + Drop, S: Store<R>>(
    caller: &Caller<'_>,
    store: &S,
    left: &Term<R>,
    right: &Term<R>,
) -> Answer<R>
    requires left { IsOver (S.has store.now) AnyAtom left.now }
    requires right { IsOver (S.has store.now) AnyAtom right.now }
    ensures is { IsEvaluated (S.shown store.now) result (bounded_result (Gives (greater_of (setting caller.now.names.now caller.now.pid) (value_of (S.shown store.now) left.now) (value_of (S.shown store.now) right.now)))) }
    ensures known { HasAnswer (S.has store.now) result }
{
    match order(caller, store, left, right) {
        Ordering::Less => shared(store, right),
        _ => shared(store, left),
    }
}

/// `min/2`: the first where both are equal.
pub(crate) fn smaller<R: Share + Drop, S: Store<R>>(
    caller: &Caller<'_>,
    store: &S,
    left: &Term<R>,
    right: &Term<R>,
) -> Answer<R>
    requires left { IsOver (S.has store.now) AnyAtom left.now }
    requires right { IsOver (S.has store.now) AnyAtom right.now }
    ensures is { IsEvaluated (S.shown store.now) result (bounded_result (Gives (smaller_of (setting caller.now.names.now caller.now.pid) (value_of (S.shown store.now) left.now) (value_of (S.shown store.now) right.now)))) }
    ensures known { HasAnswer (S.has store.now) result }
{
    match order(caller, store, left, right) {
        Ordering::Greater => shared(store, right),
        _ => shared(store, left),
    }
}

fn order<R, S: Store<R>>(
    caller: &Caller<'_>,
    store: &S,
    left: &Term<R>,
    right: &Term<R>,
) -> Ordering
    requires left { IsOver (S.has store.now) AnyAtom left.now }
    requires right { IsOver (S.has store.now) AnyAtom right.now }
    ensures { result ≡ order_of (setting caller.now.names.now caller.now.pid).names (value_of (S.shown store.now) left.now) (value_of (S.shown store.now) right.now) }
{
    let look = StoreLook {
        store,
        names: caller.names,
    };
    compare(&look, left, right)
}
