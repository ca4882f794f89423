ghost use Rattle.std.specs.Prelude.{◌≡◌, MatchBool, List, [], ◌∷◌};
ghost use Rattle.erl_syntax.specs.Typing.{type_of, sign_of, order_of, endian_of, size_of, unit_of, kind, table, IsUtf, HasBits, IsString, IsPattern, HasFault, FirstOf, Types, seg_faults, OutOfRange, usual_unit, IsOpen};
ghost use Rattle.segment_type.specs.Words.{AreWords};

use crate::words::{Words, words_of};
use bits_value::{Endian, Sign, UtfKind};
use erl_syntax::{Expr, Kind, SegFault, Segment, SideUse, SizeUse, Spec, Typed};

/// What a segment with this word has as its value.
fn type_of(word: Option<Spec>) -> Kind
    ensures { result ≡ type_of word }
{
    match word {
        Some(Spec::Binary) => Kind::Binary,
        Some(Spec::Bitstring) => Kind::Bitstring,
        Some(Spec::Utf8) => Kind::Utf(UtfKind::Utf8),
        Some(Spec::Utf16) => Kind::Utf(UtfKind::Utf16),
        Some(Spec::Utf32) => Kind::Utf(UtfKind::Utf32),
        _ => Kind::Int,
    }
}

fn sign_of(kind: Kind, word: Option<Spec>) -> Sign
    ensures { result ≡ sign_of kind word }
{
    match (kind, word) {
        (Kind::Int, Some(Spec::Signed)) => Sign::Signed,
        _ => Sign::Unsigned,
    }
}

/// `native` is little.
fn order_of(word: Option<Spec>) -> Endian
    ensures { result ≡ order_of word }
{
    match word {
        Some(Spec::Little | Spec::Native) => Endian::Little,
        _ => Endian::Big,
    }
}

fn endian_of(kind: Kind, word: Option<Spec>) -> Endian
    ensures { result ≡ endian_of kind word }
{
    match kind {
        Kind::Int | Kind::Utf(UtfKind::Utf16 | UtfKind::Utf32) => order_of(word),
        Kind::Binary | Kind::Bitstring | Kind::Utf(UtfKind::Utf8) => Endian::Big,
    }
}

fn size_of(kind: Kind, size: &Option<Expr>) -> SizeUse
    ensures { result ≡ size_of kind size.now }
{
    match (kind, size) {
        (Kind::Utf(_), _) => SizeUse::NoSize,
        (_, Some(_)) => SizeUse::Given,
        (Kind::Int, None) => SizeUse::Default(8),
        (Kind::Binary | Kind::Bitstring, None) => SizeUse::Whole,
    }
}

fn usual_unit(kind: Kind) -> u16
    ensures { result ≡ usual_unit kind }
{
    match kind {
        Kind::Binary => 8,
        Kind::Int | Kind::Bitstring | Kind::Utf(_) => 1,
    }
}

/// Whether the word is a unit outside 1 to 256.
fn is_out_of_range(word: Option<Spec>) -> bool
    ensures { MatchBool result (OutOfRange word) (OutOfRange word → ⊥) }
{
    match word {
        Some(Spec::Unit(bits)) => bits < 1 || 256 < bits,
        _ => false,
    }
}

fn unit_of(kind: Kind, word: Option<Spec>) -> u16
    requires { OutOfRange word → ⊥ }
    ensures { result ≡ unit_of kind word }
{
    match word {
        Some(Spec::Unit(bits)) => bits as u16,
        _ => usual_unit(kind),
    }
}

fn is_utf(kind: Kind) -> bool
    ensures { MatchBool result (IsUtf kind) (IsUtf kind → ⊥) }
{
    matches!(kind, Kind::Utf(_))
}

/// Whether the value of a segment of this kind is a bitstring.
fn has_bits(kind: Kind) -> bool
    ensures { MatchBool result (HasBits kind) (HasBits kind → ⊥) }
{
    matches!(kind, Kind::Binary | Kind::Bitstring)
}

fn is_string(value: &Expr) -> bool
    ensures { MatchBool result (IsString value.now) (IsString value.now → ⊥) }
{
    matches!(value, Expr::Str { .. })
}

fn is_pattern(side: SideUse) -> bool
    ensures { MatchBool result (IsPattern side) (IsPattern side → ⊥) }
{
    match side {
        SideUse::Build => false,
        SideUse::Match | SideUse::Generator => true,
    }
}

/// A bitstring without a size.
fn is_open(segment: &Segment, words: &Words) -> bool
    requires { AreWords segment.now.specs words.now }
    ensures { MatchBool result (IsOpen segment.now) (IsOpen segment.now → ⊥) }
{
    has_bits(type_of(words.type_word)) && segment.size.is_none()
}

/// Whether the segment has the fault.
fn has_fault(segment: &Segment, words: &Words, side: SideUse, last: bool, fault: SegFault) -> bool
    requires { AreWords segment.now.specs words.now }
    ensures { MatchBool result (HasFault segment.now side last fault) (HasFault segment.now side last fault → ⊥) }
{
    let kind = type_of(words.type_word);
    match fault {
        SegFault::TwoOfAKind => false,
        SegFault::UnitRange => is_out_of_range(words.unit),
        SegFault::FloatType => words.type_word == Some(Spec::Float),
        SegFault::SizeOnUtf => is_utf(kind) && segment.size.is_some(),
        SegFault::UnitOnUtf => is_utf(kind) && words.unit.is_some(),
        SegFault::UnitWithoutSize => {
            kind == Kind::Int && segment.size.is_none() && words.unit.is_some()
        }
        SegFault::StringType => is_string(&segment.value) && has_bits(kind),
        SegFault::OpenNotLast => is_pattern(side) && !last && is_open(segment, words),
        SegFault::OpenInGenerator => side == SideUse::Generator && is_open(segment, words),
    }
}

/// The type of a segment without a fault.
fn table(segment: &Segment, words: &Words) -> Typed
    requires words { AreWords segment.now.specs words.now }
    requires unit { OutOfRange words.now.unit → ⊥ }
    ensures { result ≡ table segment.now }
{
    let kind = type_of(words.type_word);
    Typed {
        kind,
        sign: sign_of(kind, words.sign),
        endian: endian_of(kind, words.endian),
        size: size_of(kind, &segment.size),
        unit: unit_of(kind, words.unit),
    }
}

/// The type of a segment that stands on this side, the last of its pattern or not, or its first fault.
/// Takes no memory.
///
/// # Errors
///
/// The first fault that the segment has, in the order of `SegFault`'s variants
/// (Erlang Reference Manual, "Bit Syntax Expressions").
pub fn type_segment(segment: &Segment, side: SideUse, last: bool) -> Result<Typed, SegFault>
    ensures { Types segment.now side last result }
{
    let words = words_of(segment.specs.items())?;
    if has_fault(segment, &words, side, last, SegFault::UnitRange) {
        return Err(SegFault::UnitRange);
    }
    if has_fault(segment, &words, side, last, SegFault::FloatType) {
        return Err(SegFault::FloatType);
    }
    if has_fault(segment, &words, side, last, SegFault::SizeOnUtf) {
        return Err(SegFault::SizeOnUtf);
    }
    if has_fault(segment, &words, side, last, SegFault::UnitOnUtf) {
        return Err(SegFault::UnitOnUtf);
    }
    if has_fault(segment, &words, side, last, SegFault::UnitWithoutSize) {
        return Err(SegFault::UnitWithoutSize);
    }
    if has_fault(segment, &words, side, last, SegFault::StringType) {
        return Err(SegFault::StringType);
    }
    if has_fault(segment, &words, side, last, SegFault::OpenNotLast) {
        return Err(SegFault::OpenNotLast);
    }
    if has_fault(segment, &words, side, last, SegFault::OpenInGenerator) {
        return Err(SegFault::OpenInGenerator);
    }
    Ok(table(segment, &words))
}
