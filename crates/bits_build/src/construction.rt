//! Building a bitstring.

ghost use Rattle.std.specs.Prelude.{◌≡◌, ◌<◌, ◌≤◌, List, Bool, All, length, IfOk, IfErr, IfSome, OnErr, MatchOption, Option, Some, None, []};
ghost use Rattle.bits_value.specs.declared.TheConstants.{MAX_BITS};
ghost use Rattle.bit_store.specs.Stores.{Keeps, RoseBy};
ghost use Rattle.term_value.specs.Encode.{built, built_on};
ghost use Rattle.term_value.specs.Result.{Gives};
ghost use Rattle.term_value.specs.Value.{VBits};
ghost use Rattle.bits_build.specs.Parts.{HasPart, ArePieces, IsRefusal, alone, built_from, open_bits, parts_filled};

use crate::fault::BuildFault;
use crate::part::Part;
use crate::segment::segment_of;
use bit_store::{Piece, Store};
use bits_value::{MAX_BITS, Steps};
use erl_syntax::{Kind, SizeUse};
use shares::Share;
use std::alloc::Global;
use term_value::Term;

/// The bitstring of a bit expression: the bits of its segments from the left (Erlang Reference Manual, "Bit Syntax Expressions").
///
/// All segments are tested, in their order, before a bit is written; the first that fails decides. A first segment that is a
/// bitstring without a size is given as it is where it is alone, and else appended to; in all other cases the bitstring is a new one.
///
/// # Errors
///
/// `BadArg` and `Limit` exactly where the expression raises `badarg`, or is the limit; `NoMemory` for want of memory alone. Each
/// reference shows then what it showed, and no bit was moved.
pub fn build<R: Share + Drop, S: Store<R>>(
    alloc: Global,
    store: &mut S,
    parts: &[Part<R>],
    steps: &mut Steps,
) -> Result<R, BuildFault>
    requires { All (HasPart (S.has store.old)) parts.now }
    ensures keeps { Keeps S.shown S.has store.old store.new }
    ensures valid { IfOk result (λ made. S.has store.new made) }
    ensures gives { IfOk result (λ made. built (parts_filled (S.shown store.old) parts.now) ≡ Gives (VBits (S.shown store.new made))) }
    ensures refused { IfErr result (λ fault. IsRefusal (built (parts_filled (S.shown store.old) parts.now)) fault) }
    ensures alone { IfOk result (λ made. IfSome (alone parts.now) (λ of. (made ≡ of) × (steps.new ≡ steps.old))) }
    ensures moved { IfOk result (λ made. RoseBy (length (S.shown store.new made)) steps.old.moved steps.new.moved) }
    ensures unmoved { OnErr result (steps.new ≡ steps.old) }
{
    match parts.split_first() {
        Some((first, rest)) => match open_bitstring(first) {
            Some(of) => {
                let unit = first.typed.unit;
                build_on(alloc, store, Front { of, unit, rest }, steps)
            }
            None => build_fresh(alloc, store, parts, steps),
        },
        None => build_fresh(alloc, store, parts, steps),
    }
}

fn build_fresh<R: Share + Drop, S: Store<R>>(
    alloc: Global,
    store: &mut S,
    parts: &[Part<R>],
    steps: &mut Steps,
) -> Result<R, BuildFault>
    requires { All (HasPart (S.has store.old)) parts.now }
    ensures keeps { Keeps S.shown S.has store.old store.new }
    ensures valid { IfOk result (λ made. S.has store.new made) }
    ensures gives { IfOk result (λ made. built (parts_filled (S.shown store.old) parts.now) ≡ Gives (VBits (S.shown store.new made))) }
    ensures refused { IfErr result (λ fault. IsRefusal (built (parts_filled (S.shown store.old) parts.now)) fault) }
    ensures moved { IfOk result (λ made. RoseBy (length (S.shown store.new made)) steps.old.moved steps.new.moved) }
    ensures unmoved { OnErr result (steps.new ≡ steps.old) }
{
    let pieces = pieces_of(alloc, store, parts, 0)?;
    Ok(store.fresh(&pieces, steps)?)
}

// A bitstring without a size, in front of the other parts.
#[derive(Drop)]
struct Front<'a, R> {
    of: &'a R,
    unit: u16,
    rest: &'a [Part<R>],
}

fn open_bitstring<R>(part: &Part<R>) -> Option<&R>
    ensures { MatchOption result (open_bits part.now ≡ None) (λ of. open_bits part.now ≡ Some of.now) }
{
    match part.typed.kind {
        Kind::Binary | Kind::Bitstring => match part.typed.size {
            SizeUse::Whole => match &part.value {
                Term::Bits(of) => Some(of),
                _ => None,
            },
            _ => None,
        },
        _ => None,
    }
}

fn build_on<R: Share + Drop, S: Store<R>>(
    alloc: Global,
    store: &mut S,
    front: Front<'_, R>,
    steps: &mut Steps,
) -> Result<R, BuildFault>
    requires valid { S.has store.old front.of.now }
    requires rest { All (HasPart (S.has store.old)) front.rest.now }
    ensures keeps { Keeps S.shown S.has store.old store.new }
    ensures valid { IfOk result (λ made. S.has store.new made) }
    ensures gives { IfOk result (λ made. built_from (S.shown store.old) front.entry.of.now front.entry.unit front.entry.rest.now ≡ Gives (VBits (S.shown store.new made))) }
    ensures refused { IfErr result (λ fault. IsRefusal (built_from (S.shown store.old) front.entry.of.now front.entry.unit front.entry.rest.now) fault) }
    ensures alone { IfOk result (λ made. front.entry.rest.now ≡ [] → (made ≡ front.entry.of.now) × (steps.new ≡ steps.old)) }
    ensures moved { IfOk result (λ made. RoseBy (length (S.shown store.new made)) steps.old.moved steps.new.moved) }
    ensures unmoved { OnErr result (steps.new ≡ steps.old) }
{
    let len = store.look(front.of).len();
    if !len.is_multiple_of(u32::from(front.unit)) {
        return Err(BuildFault::BadArg);
    }
    if front.rest.is_empty() {
        // read for its range alone: the ledger stands still
        let _moved = steps.moved;
        return Ok(front.of.share()?);
    }
    let pieces = pieces_of(alloc, store, front.rest, len)?;
    Ok(store.append(front.of, &pieces, steps)?)
}

// The pieces that the parts are, behind `before` bits.
fn pieces_of<R: Share + Drop, S: Store<R>>(
    alloc: Global,
    store: &S,
    parts: &[Part<R>],
    before: u32,
) -> Result<Vec<Piece<R>>, BuildFault>
    requires valid { All (HasPart (S.has store.now)) parts.now }
    requires short { before ≤ MAX_BITS }
    ensures made { IfOk result (λ pieces. ArePieces (S.shown store.now) (S.has store.now) before parts.now pieces.items) }
    ensures refused { IfErr result (λ fault. (front : List Bool) → length front ≡ before → IsRefusal (built_on (parts_filled (S.shown store.now) parts.now) front) fault) }
{
    let mut pieces = Vec::new(alloc);
    let mut total = before;
    let mut left = parts;
    while let Some((part, rest)) = left.split_first() {
        let segment = segment_of(store, part)?;
        if segment.bits > MAX_BITS - total {
            return Err(BuildFault::Limit);
        }
        total += segment.bits;
        pieces.push(segment.piece)?;
        left = rest;
    }
    Ok(pieces)
}
