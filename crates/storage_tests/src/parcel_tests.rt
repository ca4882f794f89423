ghost use Rattle.std.specs.Prelude.{All, IfOk, OnOk};
ghost use Rattle.bit_store.specs.Stores.{AnyAtom};
ghost use Rattle.term_value.specs.Terms.{IsOver};
ghost use Rattle.off_heap.specs.Cells.{Valid};
ghost use Rattle.storage_tests.specs.Packable.{IsPackable};

use crate::given::Given::{Bytes, Copied};
use crate::given::{Call, Fault, Row as MadeRow, made_by, named, zeros};
use bit_store::StoreLook;
use bits_value::Steps;
use erl_syntax::{FIXED_ATOMS, Text};
use off_heap::{BitRef, Heap, Swept, discard};
use shares::Share;
use std::alloc::Global;
use std::test::Fail;
use term_value::{Term, list_of, show, tuple_of};

/// A term, where the items of a tuple or a list stand before it.
#[derive(Clone, Copy)]
enum Item {
    Int(i128),
    /// By its place in `FIXED_ATOMS`.
    Atom(u32),
    Pid(u32),
    /// A result of `MADE`.
    Bits(usize),
    /// A tuple of the last so many terms that stand in nothing yet.
    Tuple(usize),
    /// A list of them.
    List(usize),
}

/// A small bitstring; a room that is doubled from its own bits; a still cell, and parts of more and of fewer bits than 513.
const MADE: &[MadeRow] = &[
    (Call::Fresh(Bytes(&[0x12; 32])), (&[0x12], 256), 0, 0, false),
    (
        Call::Append(0, Copied(0, 0, 256)),
        (&[0x12], 512),
        512,
        1,
        true,
    ),
    (
        Call::Append(1, Copied(1, 0, 512)),
        (&[0x12], 1_024),
        512,
        1,
        true,
    ),
    (
        Call::Fresh(Copied(2, 0, 513)),
        (&[0x12], 513),
        513,
        2,
        false,
    ),
    (Call::Part(2, 4, 600), (&[0x21], 600), 0, 2, false),
    (Call::Part(3, 1, 512), (&[0x24], 512), 0, 2, false),
];

/// A term, how many bits a parcel of it moves, and how many cells it makes where it is adopted.
type Row = (&'static [Item], u64, u32);

const ROWS: &[Row] = &[
    (&[Item::Int(i128::MIN)], 0, 0),
    (&[Item::Atom(13)], 0, 0),
    (&[Item::Pid(7)], 0, 0),
    (&[Item::Tuple(0)], 0, 0),
    (&[Item::List(0)], 0, 0),
    (&[Item::Bits(0)], 0, 0),
    (&[Item::Bits(2)], 1_024, 1),
    (&[Item::Bits(3)], 513, 1),
    (&[Item::Bits(4)], 600, 1),
    // of 512 bits each: the whole of what was a room, and a part of a cell
    (&[Item::Bits(1)], 0, 0),
    (&[Item::Bits(5)], 0, 0),
    // {[A,[]],B,<0.3.0>}, where A and B are long
    (
        &[
            Item::Bits(3),
            Item::List(0),
            Item::List(2),
            Item::Bits(4),
            Item::Pid(3),
            Item::Tuple(3),
        ],
        1_113,
        2,
    ),
    // [A,{A},A,1]: each A is packed, and gets a cell of its own
    (
        &[
            Item::Bits(3),
            Item::Bits(3),
            Item::Tuple(1),
            Item::Bits(3),
            Item::Int(1),
            Item::List(4),
        ],
        1_539,
        3,
    ),
];

/// Takes the last terms off the stack, so many.
fn last_terms(
    heap: &Heap,
    stack: &mut Vec<Term<BitRef>>,
    count: usize,
) -> Result<Vec<Term<BitRef>>, Fault>
    requires { All (IsPackable heap.now.cells) stack.old.items }
    ensures items { IfOk result (λ items. All (IsPackable heap.now.cells) items.items) }
    ensures left { OnOk result (All (IsPackable heap.now.cells) stack.new.items) }
{
    if count > stack.len() {
        return Err(Fault::Unnamed);
    }
    let at = stack.len() - count;
    Ok(stack.split_off(at)?)
}

fn tuple(alloc: Global, heap: &Heap, items: Vec<Term<BitRef>>) -> Result<Term<BitRef>, Fault>
    requires { All (IsPackable heap.now.cells) items.items }
    ensures { IfOk result (IsPackable heap.now.cells) }
{
    match tuple_of(alloc, items)? {
        Some(term) => Ok(term),
        None => Err(Fault::Unnamed),
    }
}

fn list(alloc: Global, heap: &Heap, items: Vec<Term<BitRef>>) -> Result<Term<BitRef>, Fault>
    requires { All (IsPackable heap.now.cells) items.items }
    ensures { IfOk result (IsPackable heap.now.cells) }
{
    match list_of(alloc, items)? {
        Some(term) => Ok(term),
        None => Err(Fault::Unnamed),
    }
}

/// The term of one item. Its own items come off the stack.
fn item_term(
    alloc: Global,
    heap: &Heap,
    made: &[BitRef],
    item: Item,
    stack: &mut Vec<Term<BitRef>>,
) -> Result<Term<BitRef>, Fault>
    requires made { All (Valid heap.now.cells) made.now }
    requires stack { All (IsPackable heap.now.cells) stack.old.items }
    ensures packable { IfOk result (IsPackable heap.now.cells) }
    ensures left { OnOk result (All (IsPackable heap.now.cells) stack.new.items) }
{
    match item {
        Item::Int(number) => Ok(Term::Int(number)),
        Item::Atom(number) => Ok(Term::Atom(number)),
        Item::Pid(number) => Ok(Term::Pid(number)),
        Item::Bits(at) => {
            let of = named(heap, made, at)?;
            Ok(Term::Bits(of.share()?))
        }
        Item::Tuple(count) => {
            let items = last_terms(heap, stack, count)?;
            tuple(alloc, heap, items)
        }
        Item::List(count) => {
            let items = last_terms(heap, stack, count)?;
            list(alloc, heap, items)
        }
    }
}

/// The term of these items.
fn term_of(
    alloc: Global,
    heap: &Heap,
    made: &[BitRef],
    items: &[Item],
) -> Result<Term<BitRef>, Fault>
    requires { All (Valid heap.now.cells) made.now }
    ensures { IfOk result (IsPackable heap.now.cells) }
{
    let mut stack = Vec::new(alloc);
    for item in items {
        let term = item_term(alloc, heap, made, *item, &mut stack)?;
        stack.push(term)?;
    }
    match stack.pop() {
        Some(term) => Ok(term),
        None => Err(Fault::Unnamed),
    }
}

fn names(alloc: Global) -> Result<Vec<Text>, Fault> {
    let mut names = Vec::new(alloc);
    for name in FIXED_ATOMS {
        names.push(Text::of(name.to_vec(alloc)?))?;
    }
    Ok(names)
}

fn text(alloc: Global, heap: &Heap, term: &Term<BitRef>) -> Result<Text, Fault>
    requires { IsOver (Valid heap.now.cells) AnyAtom term.now }
{
    let names = names(alloc)?;
    let look = StoreLook {
        store: heap,
        names: &names,
    };
    Ok(show(alloc, &look, term)?)
}

/// Whether a heap has the term that another packed, which gave all its cells up since, and so many bits were moved.
fn holds(alloc: Global, row: &Row) -> Result<bool, Fault> {
    let mut heap = Heap::new(alloc);
    let Ok(made) = made_by(alloc, &mut heap, MADE, &mut Steps::new()) else {
        return Ok(false);
    };
    let term = term_of(alloc, &heap, &made, row.0)?;
    let before = text(alloc, &heap, &term)?;
    let mut steps = Steps::new();
    let parcel = heap.pack(&term, &mut steps)?;
    heap.empty();
    let mut other = Heap::new(alloc);
    zeros(&mut other, 513)?;
    let adopted = other.adopt(parcel)?;
    Ok(
        steps.moved == row.1
            && other.cells() == row.2.saturating_add(1)
            && text(alloc, &other, &adopted)?.bytes() == before.bytes(),
    )
}

/// What the giving up of a parcel that nobody wants tells.
fn given_up(alloc: Global, row: &Row) -> Result<Swept, Fault> {
    let mut heap = Heap::new(alloc);
    let Ok(made) = made_by(alloc, &mut heap, MADE, &mut Steps::new()) else {
        return Err(Fault::Unnamed);
    };
    let term = term_of(alloc, &heap, &made, row.0)?;
    Ok(discard(heap.pack(&term, &mut Steps::new())?))
}

#[test]
fn a_parcel_is_adopted_as_the_same_value(rt: HostRuntime) -> Result<(), Fail> {
    let nothing = Swept {
        left: 0,
        dropped: 0,
        last: 0,
    };
    for (at, row) in ROWS.iter().enumerate() {
        assert_eq!(rt; holds(rt.alloc(), row), Ok(true), "row {at}");
        assert_eq!(rt; given_up(rt.alloc(), row), Ok(nothing), "row {at}");
    }
    Ok(())
}
