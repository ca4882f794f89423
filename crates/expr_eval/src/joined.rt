//! Binaries that are written anew: of the parts of a list, and of an integer's decimal text.

ghost use Rattle.std.specs.Prelude.{◌≡◌, ◌∷◌, [], Some, IfOk, IfErr, OnOk, OnErr};
ghost use Rattle.std.specs.Fmt.{signed_decimal};
ghost use Rattle.bit_store.specs.Pieces.{piece_bits, pieces_bits, IsInside, HasPiece};
ghost use Rattle.bit_store.specs.Stores.{AnyAtom, Keeps, RoseBy};
ghost use Rattle.term_value.specs.Bounds.{within};
ghost use Rattle.term_value.specs.BuiltIns.{list_to_binary as list_to_binary_of, integer_to_binary as integer_to_binary_of, item_bits, items_bits};
ghost use Rattle.term_value.specs.Primitives.{bounded_result};
ghost use Rattle.term_value.specs.Seen.{meanings, AreKnown};
ghost use Rattle.term_value.specs.Terms.{value_of, row_of, IsOver};
ghost use Rattle.term_value.specs.Value.{VBits, VInt};
ghost use Rattle.expr_eval.specs.Answers.{IsEvaluated, HasAnswer, bit_count};
ghost use Rattle.expr_eval.specs.Joined.{AreWhole, Adds, IsRefused};

use crate::reason::{Answer, EvalFault, Reason, bad_argument};
use bit_store::{Piece, Store, StoreFault};
use bits_value::{Endian, Steps};
use erl_syntax::Text;
use itoa::Buffer;
use shares::Share;
use std::alloc::{AllocError, Global};
use term_value::{Cells, Term};

/// `integer_to_binary/1`
pub(crate) fn integer_to_binary<R: Drop, S: Store<R>>(
    alloc: Global,
    store: &mut S,
    value: &Term<R>,
    steps: &mut Steps,
) -> Answer<R>
    ensures keeps { Keeps S.shown S.has store.old store.new }
    ensures is { IsEvaluated (S.shown store.new) result (bounded_result (integer_to_binary_of (value_of (S.shown store.old) value.now))) }
    ensures known { HasAnswer (S.has store.new) result }
    ensures moved { IfOk result (λ term. RoseBy (bit_count (S.shown store.new) term) steps.old.moved steps.new.moved) }
    ensures unmoved { OnErr result (steps.new ≡ steps.old) }
{
    match value {
        Term::Int(number) => write_decimal(alloc, store, *number, steps),
        _ => bad_argument(),
    }
}

fn write_decimal<R: Drop, S: Store<R>>(
    alloc: Global,
    store: &mut S,
    number: i128,
    steps: &mut Steps,
) -> Answer<R>
    ensures keeps { Keeps S.shown S.has store.old store.new }
    ensures is { IsEvaluated (S.shown store.new) result (bounded_result (integer_to_binary_of (VInt number))) }
    ensures known { HasAnswer (S.has store.new) result }
    ensures moved { IfOk result (λ term. RoseBy (bit_count (S.shown store.new) term) steps.old.moved steps.new.moved) }
    ensures unmoved { OnErr result (steps.new ≡ steps.old) }
{
    match decimal_piece(alloc, number) {
        Ok(pieces) => write(store, &pieces, steps),
        Err(_) => Err(EvalFault::NoMemory),
    }
}

fn decimal_piece<R: Drop>(alloc: Global, number: i128) -> Result<Vec<Piece<R>>, AllocError>
    ensures { IfOk result (λ pieces. pieces.items ≡ Piece.Bytes (signed_decimal number) ∷ []) }
{
    let mut pieces = Vec::new(alloc);
    pieces.push(Piece::Bytes(decimal(alloc, number)?))?;
    Ok(pieces)
}

fn decimal(alloc: Global, number: i128) -> Result<Text, AllocError>
    ensures { IfOk result (λ text. text ≡ signed_decimal number) }
{
    let mut buffer = Buffer::new();
    Ok(Text::of(Vec::from_slice(alloc, buffer.format(number).as_bytes())?))
}

// A new bitstring of the pieces.
fn write<R: Drop, S: Store<R>>(store: &mut S, pieces: &[Piece<R>], steps: &mut Steps) -> Answer<R>
    requires { AreWhole (S.shown store.old) (S.has store.old) pieces.now }
    ensures keeps { Keeps S.shown S.has store.old store.new }
    ensures is { IsEvaluated (S.shown store.new) result (within (VBits (pieces_bits (S.shown store.old) pieces.now))) }
    ensures known { HasAnswer (S.has store.new) result }
    ensures moved { IfOk result (λ term. RoseBy (bit_count (S.shown store.new) term) steps.old.moved steps.new.moved) }
    ensures unmoved { OnErr result (steps.new ≡ steps.old) }
{
    match store.fresh(pieces, steps) {
        Ok(made) => Ok(Term::Bits(made)),
        Err(fault) => match fault {
            StoreFault::TooLong => Err(EvalFault::Limit),
            StoreFault::NoMemory => Err(EvalFault::NoMemory),
        },
    }
}

/// `list_to_binary/1`: the bytes and binaries of a list and of the lists in it.
///
/// The calls are as deep as the list.
pub(crate) fn list_to_binary<R: Share + Drop, S: Store<R>>(
    alloc: Global,
    store: &mut S,
    list: &Term<R>,
    steps: &mut Steps,
) -> Answer<R>
    requires { IsOver (S.has store.old) AnyAtom list.now }
    ensures keeps { Keeps S.shown S.has store.old store.new }
    ensures is { IsEvaluated (S.shown store.new) result (bounded_result (list_to_binary_of (value_of (S.shown store.old) list.now))) }
    ensures known { HasAnswer (S.has store.new) result }
    ensures moved { IfOk result (λ term. RoseBy (bit_count (S.shown store.new) term) steps.old.moved steps.new.moved) }
    ensures unmoved { OnErr result (steps.new ≡ steps.old) }
{
    match list {
        Term::List(items) => match gather(alloc, store, items) {
            Ok(pieces) => write(store, &pieces, steps),
            Err(fault) => Err(fault),
        },
        _ => bad_argument(),
    }
}

fn gather<R: Share + Drop, S: Store<R>>(
    alloc: Global,
    store: &S,
    items: &Cells<R>,
) -> Result<Vec<Piece<R>>, EvalFault<R>>
    requires { AreKnown (S.has store.now) AnyAtom (row_of items.now) }
    ensures whole { IfOk result (λ pieces. AreWhole (S.shown store.now) (S.has store.now) pieces.items) }
    ensures is { IfOk result (λ pieces. items_bits (meanings (S.shown store.now) (row_of items.now)) ≡ Some (pieces_bits (S.shown store.now) pieces.items)) }
    ensures refused { IfErr result (IsRefused (items_bits (meanings (S.shown store.now) (row_of items.now)))) }
{
    let mut pieces = Vec::new(alloc);
    match push_items(store, items, &mut pieces) {
        Ok(()) => Ok(pieces),
        Err(fault) => Err(fault),
    }
}

// Adds the bits of a byte, of a binary, or of a list of such items.
#[cycle(gather)]
fn push_item<R: Share + Drop, S: Store<R>>(
    store: &S,
    item: &Term<R>,
    pieces: &mut Vec<Piece<R>>,
) -> Result<(), EvalFault<R>>
    requires known { IsOver (S.has store.now) AnyAtom item.now }
    requires whole { AreWhole (S.shown store.now) (S.has store.now) pieces.old.items }
    ensures whole { OnOk result (AreWhole (S.shown store.now) (S.has store.now) pieces.new.items) }
    ensures added { OnOk result (Adds (S.shown store.now) (item_bits (value_of (S.shown store.now) item.now)) pieces.old.items pieces.new.items) }
    ensures refused { IfErr result (IsRefused (item_bits (value_of (S.shown store.now) item.now))) }
{
    match item {
        Term::Int(number) => push_byte(store, *number, pieces),
        Term::List(items) => push_items(store, items, pieces),
        Term::Bits(of) => push_binary(store, of, pieces),
        _ => Err(EvalFault::Raised(Reason::BadArg)),
    }
}

#[cycle(gather)]
fn push_items<R: Share + Drop, S: Store<R>>(
    store: &S,
    items: &Cells<R>,
    pieces: &mut Vec<Piece<R>>,
) -> Result<(), EvalFault<R>>
    requires known { AreKnown (S.has store.now) AnyAtom (row_of items.now) }
    requires whole { AreWhole (S.shown store.now) (S.has store.now) pieces.old.items }
    ensures whole { OnOk result (AreWhole (S.shown store.now) (S.has store.now) pieces.new.items) }
    ensures added { OnOk result (Adds (S.shown store.now) (items_bits (meanings (S.shown store.now) (row_of items.now))) pieces.old.items pieces.new.items) }
    ensures refused { IfErr result (IsRefused (items_bits (meanings (S.shown store.now) (row_of items.now)))) }
{
    let mut left = items;
    while let Some((item, rest)) = left.split() {
        match push_item(store, item, pieces) {
            Ok(()) => left = rest,
            Err(fault) => return Err(fault),
        }
    }
    Ok(())
}

fn push_byte<R: Drop, S: Store<R>>(
    store: &S,
    number: i128,
    pieces: &mut Vec<Piece<R>>,
) -> Result<(), EvalFault<R>>
    requires { AreWhole (S.shown store.now) (S.has store.now) pieces.old.items }
    ensures whole { OnOk result (AreWhole (S.shown store.now) (S.has store.now) pieces.new.items) }
    ensures added { OnOk result (Adds (S.shown store.now) (item_bits (VInt number)) pieces.old.items pieces.new.items) }
    ensures refused { IfErr result (IsRefused (item_bits (VInt number))) }
{
    if number < 0 || number > 255 {
        return Err(EvalFault::Raised(Reason::BadArg));
    }
    let piece = Piece::Number {
        value: number,
        bits: 8,
        endian: Endian::Big,
    };
    push_piece(store, piece, pieces)
}

fn push_binary<R: Share + Drop, S: Store<R>>(
    store: &S,
    of: &R,
    pieces: &mut Vec<Piece<R>>,
) -> Result<(), EvalFault<R>>
    requires known { S.has store.now of.now }
    requires whole { AreWhole (S.shown store.now) (S.has store.now) pieces.old.items }
    ensures whole { OnOk result (AreWhole (S.shown store.now) (S.has store.now) pieces.new.items) }
    ensures added { OnOk result (Adds (S.shown store.now) (item_bits (VBits (S.shown store.now of.now))) pieces.old.items pieces.new.items) }
    ensures refused { IfErr result (IsRefused (item_bits (VBits (S.shown store.now of.now)))) }
{
    let bits = store.look(of).len();
    if bits % 8 != 0 {
        return Err(EvalFault::Raised(Reason::BadArg));
    }
    match of.share() {
        Ok(of) => push_piece(store, Piece::Part { of, off: 0, bits }, pieces),
        Err(_) => Err(EvalFault::NoMemory),
    }
}

fn push_piece<R: Drop, S: Store<R>>(
    store: &S,
    piece: Piece<R>,
    pieces: &mut Vec<Piece<R>>,
) -> Result<(), EvalFault<R>>
    requires valid { HasPiece (S.has store.now) piece }
    requires inside { IsInside (S.shown store.now) piece }
    requires whole { AreWhole (S.shown store.now) (S.has store.now) pieces.old.items }
    ensures whole { OnOk result (AreWhole (S.shown store.now) (S.has store.now) pieces.new.items) }
    ensures added { OnOk result (Adds (S.shown store.now) (Some (piece_bits (S.shown store.now) piece)) pieces.old.items pieces.new.items) }
    ensures refused { IfErr result (λ fault. fault ≡ EvalFault.NoMemory) }
{
    match pieces.push(piece) {
        Ok(()) => Ok(()),
        Err(_) => Err(EvalFault::NoMemory),
    }
}
