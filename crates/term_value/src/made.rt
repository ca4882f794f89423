//! Tuples and lists within the bounds, and reasons: the only ways to make one that isn't empty.

ghost use Rattle.std.specs.Prelude.{◌≡◌, ◌^◌, ◌&&◌, nat_le, List, Bool, IfOk};
ghost use Rattle.term_value.specs.Value.{VTuple, VList, more};
ghost use Rattle.term_value.specs.Bounds.{is_within, within};
ghost use Rattle.term_value.specs.Made.{given, items_within, IsMadeOf};
ghost use Rattle.term_value.specs.Seen.{meanings, SAtom, SList, STuple, then, end};
ghost use Rattle.term_value.specs.Terms.{value_of, row_of, row, seen};

use crate::cells::Cells;
use crate::term::Term;
use crate::tuple::Items;
use shares::Held;
use std::alloc::{AllocError, Global};

fn fits(length: u32, weight: u32, depth: u32) -> bool
    ensures { result ≡ (nat_le length (2 ^ 20) && (nat_le weight (2 ^ 22) && nat_le depth 256)) }
{
    length <= 1 << 20 && weight <= 1 << 22 && depth <= 256
}

fn list_fits<R>(list: &Cells<R>) -> bool
    ensures { (shown : R → List Bool) → result ≡ is_within (VList (meanings shown (row_of list.now))) }
{
    fits(
        list.length(),
        list.weight().saturating_add(1),
        list.depth().saturating_add(1),
    )
}

fn tuple_fits<R>(items: &Items<R>) -> bool
    ensures { (shown : R → List Bool) → result ≡ is_within (VTuple (meanings shown items.now)) }
{
    fits(
        items.length(),
        items.weight().saturating_add(1),
        items.depth().saturating_add(1),
    )
}

/// Whether a term is within the bounds of its own items, in a few steps: those of length, weight and depth, where it is a tuple or a list.
pub fn is_bounded<R>(term: &Term<R>) -> bool
    ensures { (shown : R → List Bool) → result ≡ items_within (value_of shown term.now) }
{
    match term {
        Term::Tuple(items) => tuple_fits(items.get()),
        Term::List(items) => list_fits(items),
        _ => true,
    }
}

fn list_within<R: Drop>(list: Cells<R>) -> Option<Term<R>>
    ensures kept { IsMadeOf (SList (row_of list)) result }
    ensures is { (shown : R → List Bool) → given shown result ≡ within (VList (meanings shown (row_of list))) }
{
    if list_fits(&list) {
        Some(Term::List(list))
    } else {
        None
    }
}

/// The list of this item and then the others, in a few steps; None past a bound. The error says that no memory was left.
pub fn cons<R: Drop>(
    alloc: Global,
    item: Term<R>,
    rest: Cells<R>,
) -> Result<Option<Term<R>>, AllocError>
    ensures kept { IfOk result (IsMadeOf (SList (then (seen item) (row_of rest)))) }
    ensures is { (shown : R → List Bool) → IfOk result (λ made. given shown made ≡ within (VList (more (value_of shown item) (meanings shown (row_of rest))))) }
{
    let list = Cells::cons(alloc, item, rest)?;
    Ok(list_within(list))
}

/// The list of these items, in a few steps an item; None past a bound. The error says that no memory was left.
pub fn list_of<R: Drop>(alloc: Global, items: Vec<Term<R>>) -> Result<Option<Term<R>>, AllocError>
    ensures kept { IfOk result (IsMadeOf (SList (row items.items))) }
    ensures is { (shown : R → List Bool) → IfOk result (λ made. given shown made ≡ within (VList (meanings shown (row items.items)))) }
{
    let list = Cells::of(alloc, items)?;
    Ok(list_within(list))
}

/// The tuple of these items, in a few steps an item; None past a bound. The error says that no memory was left.
pub fn tuple_of<R: Drop>(alloc: Global, items: Vec<Term<R>>) -> Result<Option<Term<R>>, AllocError>
    ensures kept { IfOk result (IsMadeOf (STuple (row items.items))) }
    ensures is { (shown : R → List Bool) → IfOk result (λ made. given shown made ≡ within (VTuple (meanings shown (row items.items)))) }
{
    let items = Items::of(items);
    if tuple_fits(&items) {
        Ok(Some(Term::Tuple(Held::new(alloc, items)?)))
    } else {
        Ok(None)
    }
}

/// The tagged tuple of an atom and a term, as reasons are, in a few steps. It may be past the bounds, since no program looks into its own reason. The error says that no memory was left.
pub fn tagged<R: Drop>(alloc: Global, tag: u32, term: Term<R>) -> Result<Term<R>, AllocError>
    ensures { IfOk result (λ pair. seen pair ≡ STuple (then (SAtom tag) (then (seen term) end))) }
{
    let mut items = Vec::new(alloc);
    items.push(Term::Atom(tag))?;
    items.push(term)?;
    Ok(Term::Tuple(Held::new(alloc, Items::of(items))?))
}
