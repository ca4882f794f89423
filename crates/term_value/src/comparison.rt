//! The order of terms.

ghost use Rattle.std.specs.Prelude.{◌≡◌, ◌≤◌, List, Bool, ℕ};
ghost use Rattle.term_value.specs.Value.{VTuple};
ghost use Rattle.term_value.specs.Order.{order, orders};
ghost use Rattle.term_value.specs.Seen.{meanings, AreKnown};
ghost use Rattle.term_value.specs.Terms.{value_of, row_of, row, IsOver};

use crate::cells::Cells;
use crate::look::Look;
use crate::term::Term;
use bits_value::order;
use std::cmp::Ordering;

/// The order of two values (Erlang Reference Manual, "Expressions", Term Comparisons).
///
/// Number, atom, pid, tuple, list, bitstring. Tuples are compared by their number of items first, lists and bitstrings with a prefix
/// smaller, atoms by their characters. A list's items and a tuple's are compared one level further down, so the calls are as deep as the terms.
#[cycle(compare)]
pub fn compare<R, K: Look<R>>(look: &K, left: &Term<R>, right: &Term<R>) -> Ordering
    requires left { IsOver (K.has look.now) (K.knows look.now) left.now }
    requires right { IsOver (K.has look.now) (K.knows look.now) right.now }
    ensures { result ≡ order (K.named look.now) (value_of (K.shown look.now) left.now) (value_of (K.shown look.now) right.now) }
{
    match left {
        Term::Int(left) => match right {
            Term::Int(right) => left.cmp(right),
            _ => Ordering::Less,
        },
        Term::Atom(left) => match right {
            Term::Int(_) => Ordering::Greater,
            Term::Atom(right) => look.atom(*left).cmp(look.atom(*right)),
            _ => Ordering::Less,
        },
        Term::Pid(left) => match right {
            Term::Int(_) => Ordering::Greater,
            Term::Atom(_) => Ordering::Greater,
            Term::Pid(right) => left.cmp(right),
            _ => Ordering::Less,
        },
        Term::Tuple(left) => match right {
            Term::Tuple(right) => compare_tuples(look, left.get().items(), right.get().items()),
            Term::List(_) => Ordering::Less,
            Term::Bits(_) => Ordering::Less,
            _ => Ordering::Greater,
        },
        Term::List(left) => match right {
            Term::List(right) => compare_lists(look, left, right),
            Term::Bits(_) => Ordering::Less,
            _ => Ordering::Greater,
        },
        Term::Bits(left) => match right {
            Term::Bits(right) => order(look.bits(left), look.bits(right)),
            _ => Ordering::Greater,
        },
    }
}

// By the number of items, and then item by item.
#[cycle(compare)]
#[tactic(auto, using(crate::proofs::RowLemmas::row_length, crate::proofs::Measures::counts))]
fn compare_tuples<R, K: Look<R>>(look: &K, left: &[Term<R>], right: &[Term<R>]) -> Ordering
    requires left { AreKnown (K.has look.now) (K.knows look.now) (row left.now) }
    requires right { AreKnown (K.has look.now) (K.knows look.now) (row right.now) }
    ensures { result ≡ order (K.named look.now) (VTuple (meanings (K.shown look.now) (row left.now))) (VTuple (meanings (K.shown look.now) (row right.now))) }
{
    match left.len().cmp(&right.len()) {
        Ordering::Equal => compare_items(look, left, right),
        Ordering::Less => Ordering::Less,
        Ordering::Greater => Ordering::Greater,
    }
}

// By the first items that differ, a prefix being smaller.
#[cycle(compare)]
fn compare_items<R, K: Look<R>>(look: &K, left: &[Term<R>], right: &[Term<R>]) -> Ordering
    requires left { AreKnown (K.has look.now) (K.knows look.now) (row left.now) }
    requires right { AreKnown (K.has look.now) (K.knows look.now) (row right.now) }
    ensures { result ≡ orders (K.named look.now) (meanings (K.shown look.now) (row left.now)) (meanings (K.shown look.now) (row right.now)) }
{
    let mut ours = left;
    let mut theirs = right;
    while let Some((mine, our_rest)) = ours.split_first() {
        let Some((yours, their_rest)) = theirs.split_first() else {
            return Ordering::Greater;
        };
        match compare(look, mine, yours) {
            Ordering::Equal => {
                ours = our_rest;
                theirs = their_rest;
            }
            Ordering::Less => return Ordering::Less,
            Ordering::Greater => return Ordering::Greater,
        }
    }
    match theirs.split_first() {
        None => Ordering::Equal,
        Some(_) => Ordering::Less,
    }
}

// By the first items that differ, a prefix being smaller.
#[cycle(compare)]
fn compare_lists<R, K: Look<R>>(look: &K, left: &Cells<R>, right: &Cells<R>) -> Ordering
    requires left { AreKnown (K.has look.now) (K.knows look.now) (row_of left.now) }
    requires right { AreKnown (K.has look.now) (K.knows look.now) (row_of right.now) }
    ensures { result ≡ orders (K.named look.now) (meanings (K.shown look.now) (row_of left.now)) (meanings (K.shown look.now) (row_of right.now)) }
{
    let mut ours = left;
    let mut theirs = right;
    while let Some((mine, our_rest)) = ours.split() {
        let Some((yours, their_rest)) = theirs.split() else {
            return Ordering::Greater;
        };
        match compare(look, mine, yours) {
            Ordering::Equal => {
                ours = our_rest;
                theirs = their_rest;
            }
            Ordering::Less => return Ordering::Less,
            Ordering::Greater => return Ordering::Greater,
        }
    }
    match theirs {
        Cells::Empty => Ordering::Equal,
        Cells::More(_) => Ordering::Less,
    }
}
