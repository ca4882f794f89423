//! The literals of code as terms over a store.

ghost use Rattle.std.specs.Prelude.{◌≡◌, ◌<◌, ◌^◌, All, length, IfOk};
ghost use Rattle.bits_value.specs.declared.Endian.TheVariants.{Big};
ghost use Rattle.bit_store.specs.declared.piece.Piece.TheVariants.{Number};
ghost use Rattle.bit_store.specs.Pieces.{pieces_bits, IsInside, HasPiece};
ghost use Rattle.bit_store.specs.Stores.{AnyAtom, Keeps, RoseBy, itself};
ghost use Rattle.code_tree.specs.PlainTerms.{value};
ghost use Rattle.term_value.specs.Seen.{meanings, AreKnown};
ghost use Rattle.term_value.specs.Terms.{row, row_of, seen, value_of, IsOver};
ghost use Rattle.proc_values.specs.MadeBits.{bits_inside, all_bits_inside};

use crate::access::Access;
use crate::storage::Storage;
use bit_store::{Piece, Store, Window};
use bits_value::Endian;
use code_tree::PlainTerm;
use shares::Share;
use std::alloc::{AllocError, Global};
use term_value::{Cells, Term, list_of, tuple_of};

/// A literal as a term over the store: its tuples and lists are made anew, and its bitstrings are new ones.
///
/// The error says that no memory was left, or that a tuple or list of it is past the bounds, which no literal of a text is.
pub fn literal<R: Share + Drop, S: Store<R>>(
    alloc: Global,
    storage: &mut Storage<S>,
    term: &PlainTerm,
) -> Result<Term<R>, AllocError>
    ensures keeps { Keeps S.shown S.has storage.old.store storage.new.store }
    ensures is { IfOk result (λ made. value_of (S.shown storage.new.store) made ≡ value term.now) }
    ensures known { IfOk result (IsOver (S.has storage.new.store) AnyAtom) }
    ensures moved { RoseBy (bits_inside (value term.now)) storage.old.steps.moved storage.new.steps.moved }
{
    // read for its range alone
    let _moved = storage.steps.moved;
    copy(alloc, storage, term.term())
}

/// The same, in a store that may be written into or not.
#[cycle(literal)]
pub(crate) fn copy<R: Share + Drop, A: Access<R>>(
    alloc: Global,
    access: &mut A,
    term: &Term<Window>,
) -> Result<Term<R>, AllocError>
    ensures keeps { Keeps A.shown A.has access.old access.new }
    ensures is { IfOk result (λ made. value_of (A.shown access.new) made ≡ value (seen term.now)) }
    ensures known { IfOk result (IsOver (A.has access.new) AnyAtom) }
    ensures moved { A.moved access.old < 2 ^ 64 → RoseBy (bits_inside (value (seen term.now))) (A.moved access.old) (A.moved access.new) }
{
    match term {
        Term::Int(number) => Ok(Term::Int(*number)),
        Term::Atom(number) => Ok(Term::Atom(*number)),
        Term::Pid(number) => Ok(Term::Pid(*number)),
        Term::Tuple(items) => {
            let items = copies(alloc, access, items.get().items())?;
            tuple_of(alloc, items)?.ok_or(AllocError)
        }
        Term::List(items) => {
            let items = list_copies(alloc, access, items)?;
            list_of(alloc, items)?.ok_or(AllocError)
        }
        Term::Bits(bits) => Ok(Term::Bits(access.bits(alloc, bits)?)),
    }
}

// The items of a tuple.
#[cycle(literal)]
fn copies<R: Share + Drop, A: Access<R>>(
    alloc: Global,
    access: &mut A,
    items: &[Term<Window>],
) -> Result<Vec<Term<R>>, AllocError>
    ensures keeps { Keeps A.shown A.has access.old access.new }
    ensures are { IfOk result (λ made. meanings (A.shown access.new) (row made.items) ≡ meanings itself (row items.now)) }
    ensures known { IfOk result (λ made. AreKnown (A.has access.new) AnyAtom (row made.items)) }
    ensures moved { A.moved access.old < 2 ^ 64 → RoseBy (all_bits_inside (meanings itself (row items.now))) (A.moved access.old) (A.moved access.new) }
{
    let mut made = Vec::new(alloc);
    let mut left = items;
    while let Some((item, rest)) = left.split_first() {
        made.push(copy(alloc, access, item)?)?;
        left = rest;
    }
    Ok(made)
}

// The items of a list.
#[cycle(literal)]
fn list_copies<R: Share + Drop, A: Access<R>>(
    alloc: Global,
    access: &mut A,
    items: &Cells<Window>,
) -> Result<Vec<Term<R>>, AllocError>
    ensures keeps { Keeps A.shown A.has access.old access.new }
    ensures are { IfOk result (λ made. meanings (A.shown access.new) (row made.items) ≡ meanings itself (row_of items.now)) }
    ensures known { IfOk result (λ made. AreKnown (A.has access.new) AnyAtom (row made.items)) }
    ensures moved { A.moved access.old < 2 ^ 64 → RoseBy (all_bits_inside (meanings itself (row_of items.now))) (A.moved access.old) (A.moved access.new) }
{
    let mut made = Vec::new(alloc);
    let mut left = items;
    while let Some((item, rest)) = left.split() {
        made.push(copy(alloc, access, item)?)?;
        left = rest;
    }
    Ok(made)
}

/// A new bitstring of these bits.
pub(crate) fn fresh_bits<R: Share + Drop, S: Store<R>>(
    alloc: Global,
    storage: &mut Storage<S>,
    bits: &Window,
) -> Result<R, AllocError>
    ensures keeps { Keeps S.shown S.has storage.old.store storage.new.store }
    ensures known { IfOk result (S.has storage.new.store) }
    ensures shows { IfOk result (λ made. S.shown storage.new.store made ≡ bits.now) }
    ensures moved { RoseBy (length bits.now) storage.old.steps.moved storage.new.steps.moved }
{
    // read for its range alone: where it fails the ledger stands still
    let _moved = storage.steps.moved;
    let pieces = numbers(alloc, &storage.store, bits)?;
    match storage.store.fresh(&pieces, &mut storage.steps) {
        Ok(made) => Ok(made),
        Err(_) => Err(AllocError),
    }
}

// The bits as pieces, each a number of at most 64 bits.
fn numbers<R: Share + Drop, S: Store<R>>(
    alloc: Global,
    store: &S,
    window: &Window,
) -> Result<Vec<Piece<R>>, AllocError>
    ensures are { IfOk result (λ pieces. pieces_bits (S.shown store.now) pieces.items ≡ window.now) }
    ensures inside { IfOk result (λ pieces. All (IsInside (S.shown store.now)) pieces.items) }
    ensures valid { IfOk result (λ pieces. All (HasPiece (S.has store.now)) pieces.items) }
{
    let mut pieces = Vec::new(alloc);
    let bits = window.bits();
    let mut at = 0u32;
    while at < bits.len() {
        let count = (bits.len() - at).min(64);
        match bits.uint(at, count) {
            Some(value) => pieces.push(number(value, count))?,
            None => return Err(AllocError),
        }
        at += count;
    }
    Ok(pieces)
}

fn number<R>(value: i128, bits: u32) -> Piece<R>
    ensures { result ≡ Number value bits Big }
{
    Piece::Number {
        value,
        bits,
        endian: Endian::Big,
    }
}
