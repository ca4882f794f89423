//! The piece of a bitstring that a part is.

ghost use Rattle.std.specs.Prelude.{◌≡◌, ℤ, MatchResult};
ghost use Rattle.bits_value.specs.Bits.{all_bits};
ghost use Rattle.bits_value.specs.Number.{spell};
ghost use Rattle.bits_value.specs.declared.Endian as E;
ghost use Rattle.bit_store.specs.declared.piece.Piece.TheVariants.{Number};
ghost use Rattle.term_value.specs.Extent as e;
ghost use Rattle.term_value.specs.Encode.{Bits, encoded_integer, encoded_part, encoded_character};
ghost use Rattle.bits_build.specs.Extents.{IsExtent};
ghost use Rattle.bits_build.specs.Parts.{HasPart, IsSegment, IsCause, bits_encoded, part_encoded};

use crate::extent::{Extent, extent_of};
use crate::fault::BuildFault;
use crate::part::Part;
use arrayvec::ArrayVec;
use bit_store::{Piece, Store};
use bits_value::{Endian, UtfKind};
use erl_syntax::Kind;
use shares::Share;
use term_value::Term;
use utf_segments::encode;

/// A piece, with its number of bits.
#[derive(Drop)]
pub struct Segment<R> {
    pub piece: Piece<R>,
    pub bits: u32,
}

/// The piece that the part is. A value of the wrong kind comes first, then a bad size, a size past the bound, and a bitstring that
/// is too short or no multiple of the unit.
pub fn segment_of<R: Share + Drop, S: Store<R>>(
    store: &S,
    part: &Part<R>,
) -> Result<Segment<R>, BuildFault>
    requires { HasPart (S.has store.now) part.now }
    ensures { MatchResult result (λ made. IsSegment (S.shown store.now) (S.has store.now) (part_encoded (S.shown store.now) part.now) made)
        (λ fault. IsCause (part_encoded (S.shown store.now) part.now) fault) }
{
    match part.typed.kind {
        Kind::Int => match &part.value {
            Term::Int(value) => {
                let bits = number_of_bits(extent_of(part))?;
                Ok(number(*value, bits, part.typed.endian))
            }
            _ => Err(BuildFault::BadArg),
        },
        Kind::Utf(kind) => match &part.value {
            Term::Int(value) => {
                let bytes = bytes_of(kind, part.typed.endian, *value)?;
                let bits = 8 * bytes.len() as u32;
                let piece = Piece::Character(bytes);
                Ok(Segment { piece, bits })
            }
            _ => Err(BuildFault::BadArg),
        },
        Kind::Binary => bits_of(store, part),
        Kind::Bitstring => bits_of(store, part),
    }
}

fn number<R>(value: i128, bits: u32, endian: Endian) -> Segment<R>
    ensures { result ≡ record { piece = Number value bits endian; bits = bits } }
{
    let piece = Piece::Number {
        value,
        bits,
        endian,
    };
    Segment { piece, bits }
}

fn bits_of<R: Share + Drop, S: Store<R>>(
    store: &S,
    part: &Part<R>,
) -> Result<Segment<R>, BuildFault>
    requires { HasPart (S.has store.now) part.now }
    ensures { MatchResult result (λ made. IsSegment (S.shown store.now) (S.has store.now) (bits_encoded (S.shown store.now) part.now) made)
        (λ fault. IsCause (bits_encoded (S.shown store.now) part.now) fault) }
{
    match &part.value {
        Term::Bits(of) => bitstring(store, of, extent_of(part)),
        _ => Err(BuildFault::BadArg),
    }
}

fn number_of_bits(extent: Extent) -> Result<u32, BuildFault>
    ensures { (wanted : e.Extent) (value : ℤ) (endian : E.Endian) → IsExtent wanted extent
        → MatchResult result (λ bits. encoded_integer wanted value endian ≡ Bits (spell bits value endian)) (λ fault. IsCause (encoded_integer wanted value endian) fault) }
{
    match extent {
        Extent::Bits(bits) => Ok(bits),
        Extent::TooLong => Err(BuildFault::Limit),
        _ => Err(BuildFault::BadArg),
    }
}

fn bytes_of(kind: UtfKind, endian: Endian, value: i128) -> Result<ArrayVec<u8, 4>, BuildFault>
    ensures { MatchResult result (λ bytes. encoded_character kind endian value ≡ Bits (all_bits bytes.items)) (λ fault. IsCause (encoded_character kind endian value) fault) }
{
    match encode(kind, endian, value) {
        Ok(bytes) => Ok(bytes),
        Err(_) => Err(BuildFault::BadArg),
    }
}

fn bitstring<R: Share + Drop, S: Store<R>>(
    store: &S,
    of: &R,
    extent: Extent,
) -> Result<Segment<R>, BuildFault>
    requires { S.has store.now of.now }
    ensures { (wanted : e.Extent) → IsExtent wanted extent → MatchResult result (λ made. IsSegment (S.shown store.now) (S.has store.now) (encoded_part wanted (S.shown store.now of.now)) made)
        (λ fault. IsCause (encoded_part wanted (S.shown store.now of.now)) fault) }
{
    let len = store.look(of).len();
    let bits = match extent {
        Extent::Bits(bits) if bits <= len => bits,
        Extent::InUnits(unit) if len.is_multiple_of(u32::from(unit)) => len,
        Extent::TooLong => return Err(BuildFault::Limit),
        _ => return Err(BuildFault::BadArg),
    };
    Ok(Segment {
        piece: Piece::Part {
            of: of.share()?,
            off: 0,
            bits,
        },
        bits,
    })
}
