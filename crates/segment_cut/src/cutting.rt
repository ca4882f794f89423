//! A segment taken off the front.

ghost use Rattle.std.specs.Prelude.{◌≡◌, ◌+◌, ◌≤◌, length, take, drop, IfOk, MatchOption, None};
ghost use Rattle.bits_value.specs.Number.{number as number_of};
ghost use Rattle.bits_value.specs.declared.TheConstants.{MAX_BITS};
ghost use Rattle.term_value.specs.Extent as e;
ghost use Rattle.term_value.specs.Decode as d;
ghost use Rattle.bits_build.specs.Extents.{IsExtent};
ghost use Rattle.erl_syntax.specs.declared.typing.Typed.{Typed};
ghost use Rattle.segment_cut.specs.Cuts.{IsCut, IsNumber, IsPartOff, IsSpelledCut};

use crate::characters::character_at;
use crate::value::{CutOff, CutValue};
use bit_store::Store;
use bits_build::Extent;
use bits_value::Bits;
use erl_syntax::{Kind, Typed};
use shares::Share;
use std::alloc::AllocError;

/// The segment of this type and extent at the front of the bits from bit `at` on; None where none can be taken off
/// (Erlang Reference Manual, "Bit Syntax Expressions"). Moves no bit. The error says that no further owner could be counted.
pub fn cut<R: Share + Drop, S: Store<R>>(
    store: &S,
    typed: Typed,
    extent: Extent,
    of: &R,
    at: u32,
) -> Result<Option<CutOff<R>>, AllocError>
    requires valid { S.has store.now of.now }
    requires inside { at ≤ length (S.shown store.now of.now) }
    ensures { (wanted : e.Extent) → IsExtent wanted extent
        → IfOk result (λ found. IsCut (S.shown store.now) (S.has store.now) (S.shown store.now of.now) (d.cut typed wanted (drop at (S.shown store.now of.now))) found) }
{
    match extent {
        Extent::Bits(bits) => exactly(store, typed, bits, of, at),
        Extent::InUnits(unit) => in_units(store, unit, of, at),
        Extent::Spelled => Ok(spelled(typed, store.look(of), at)),
        Extent::TooLong => Ok(None),
        Extent::BadSize => Ok(None),
    }
}

// So many bits as a value of the segment's kind.
fn exactly<R: Share + Drop, S: Store<R>>(
    store: &S,
    typed: Typed,
    bits: u32,
    of: &R,
    at: u32,
) -> Result<Option<CutOff<R>>, AllocError>
    requires valid { S.has store.now of.now }
    requires inside { at ≤ length (S.shown store.now of.now) }
    ensures { IfOk result (λ found. IsCut (S.shown store.now) (S.has store.now) (S.shown store.now of.now) (d.cut typed (e.Exactly bits) (drop at (S.shown store.now of.now))) found) }
{
    let source = store.look(of);
    if bits > source.len() - at {
        return Ok(None);
    }
    match typed.kind {
        Kind::Int => {
            let value = number(source, typed, at, bits);
            let next = at + bits;
            Ok(Some(CutOff { value, next }))
        }
        Kind::Binary => Ok(Some(part(store, of, at, bits)?)),
        Kind::Bitstring => Ok(Some(part(store, of, at, bits)?)),
        Kind::Utf(_) => Ok(None),
    }
}

// All bits, where these are whole units.
fn in_units<R: Share + Drop, S: Store<R>>(
    store: &S,
    unit: u16,
    of: &R,
    at: u32,
) -> Result<Option<CutOff<R>>, AllocError>
    requires valid { S.has store.now of.now }
    requires inside { at ≤ length (S.shown store.now of.now) }
    ensures { (typed : Typed) → IfOk result (λ found. IsCut (S.shown store.now) (S.has store.now) (S.shown store.now of.now) (d.cut typed (e.InUnits unit) (drop at (S.shown store.now of.now))) found) }
{
    let bits = store.look(of).len() - at;
    if !bits.is_multiple_of(u32::from(unit)) {
        return Ok(None);
    }
    Ok(Some(part(store, of, at, bits)?))
}

// The `bits` bits from bit `at` on, as a bitstring.
fn part<R: Share + Drop, S: Store<R>>(
    store: &S,
    of: &R,
    at: u32,
    bits: u32,
) -> Result<CutOff<R>, AllocError>
    requires valid { S.has store.now of.now }
    requires inside { at + bits ≤ length (S.shown store.now of.now) }
    ensures { IfOk result (λ off. IsPartOff (S.shown store.now) (S.has store.now) (S.shown store.now of.now) at bits off) }
{
    let value = CutValue::Part(store.part(of, at, bits)?);
    let next = at + bits;
    Ok(CutOff { value, next })
}

// The number of the `bits` bits from bit `at` on.
fn number<R>(source: Bits<'_>, typed: Typed, at: u32, bits: u32) -> CutValue<R>
    requires { at + bits ≤ length source }
    ensures { IsNumber (number_of (take bits (drop at source.entry)) typed.sign typed.endian) result }
{
    match source.int(at, bits, typed.sign, typed.endian) {
        Some(value) => CutValue::Number(value),
        None => CutValue::LongNumber,
    }
}

// The character in front.
fn spelled<R>(typed: Typed, source: Bits<'_>, at: u32) -> Option<CutOff<R>>
    requires inside { at ≤ length source }
    requires short { length source ≤ MAX_BITS }
    ensures { IsSpelledCut source.entry (d.cut typed e.Spelled (drop at source.entry)) result }
{
    match typed.kind {
        Kind::Utf(utf) => {
            let found = character_at(utf, typed.endian, source, at)?;
            Some(CutOff {
                value: CutValue::Number(i128::from(found.number)),
                next: found.next,
            })
        }
        Kind::Int => None,
        Kind::Binary => None,
        Kind::Bitstring => None,
    }
}
