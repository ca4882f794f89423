ghost use Rattle.std.specs.Prelude.{◌≤◌, All, IfOk, IfSome, length};
ghost use Rattle.bits_value.specs.declared.TheConstants.{MAX_BITS};
ghost use Rattle.term_value.specs.Terms.{seen};
ghost use Rattle.bits_build.specs.Parts.{HasBits, HasPart};

use bit_store::{Piece, PlainStore, Store, StoreFault, Window};
use bits_build::{BuildFault, Part, build};
use bits_value::{Bits, Endian, MAX_BITS, Sign, Steps, UtfKind, order};
use erl_syntax::{Kind, SizeUse, Typed};
use std::alloc::Global;
use std::cmp::Ordering;
use std::test::Fail;
use term_value::Term;

/// The value of a segment, or of its size.
#[derive(Clone, Copy)]
enum Given {
    Nothing,
    Number(i128),
    Atom,
    /// The number's lowest bits.
    Bits(i128, u32),
}

#[derive(Clone, Copy)]
struct Segment {
    kind: Kind,
    sign: Sign,
    endian: Endian,
    size: SizeUse,
    unit: u16,
    value: Given,
    written: Given,
}

/// `Value:Size` in units of so many bits.
fn sized(kind: Kind, value: Given, written: Given, unit: u16, endian: Endian) -> Segment {
    Segment {
        kind,
        sign: Sign::Unsigned,
        endian,
        size: SizeUse::Given,
        unit,
        value,
        written,
    }
}

/// `Value:Size`, a number of so many bits.
fn number(value: i128, bits: i128, endian: Endian) -> Segment {
    sized(
        Kind::Int,
        Given::Number(value),
        Given::Number(bits),
        1,
        endian,
    )
}

/// The same, signed.
fn signed(segment: Segment) -> Segment {
    Segment {
        sign: Sign::Signed,
        ..segment
    }
}

/// A segment without a size.
fn plain(kind: Kind, size: SizeUse, unit: u16, value: Given, endian: Endian) -> Segment {
    Segment {
        kind,
        sign: Sign::Unsigned,
        endian,
        size,
        unit,
        value,
        written: Given::Nothing,
    }
}

/// `Value`, as each character of a string.
fn byte(value: i128) -> Segment {
    plain(
        Kind::Int,
        SizeUse::Default(8),
        1,
        Given::Number(value),
        Endian::Big,
    )
}

fn character(form: UtfKind, endian: Endian, value: i128) -> Segment {
    plain(
        Kind::Utf(form),
        SizeUse::NoSize,
        1,
        Given::Number(value),
        endian,
    )
}

/// `Value/bits`, or in units of 8 bits `Value/binary`.
fn whole(value: Given, unit: u16) -> Segment {
    let kind = if unit == 8 {
        Kind::Binary
    } else {
        Kind::Bitstring
    };
    plain(kind, SizeUse::Whole, unit, value, Endian::Big)
}

fn term(store: &mut PlainStore, given: Given) -> Result<Term<Window>, StoreFault>
    ensures { IfOk result (λ term. HasBits (λ of. length of ≤ MAX_BITS) (seen term)) }
{
    match given {
        Given::Nothing => Ok(Term::Int(0)),
        Given::Number(number) => Ok(Term::Int(number)),
        Given::Atom => Ok(Term::Atom(0)),
        Given::Bits(value, bits) => {
            let pieces = [Piece::Number {
                value,
                bits,
                endian: Endian::Big,
            }];
            let made = store.fresh(&pieces, &mut Steps::new())?;
            Ok(Term::Bits(made))
        }
    }
}

fn part(store: &mut PlainStore, segment: Segment) -> Result<Part<Window>, StoreFault>
    ensures { IfOk result (λ part. HasPart (λ of. length of ≤ MAX_BITS) part) }
{
    let value = term(store, segment.value)?;
    let size = match segment.written {
        Given::Nothing => None,
        written => Some(term(store, written)?),
    };
    let typed = Typed {
        kind: segment.kind,
        sign: segment.sign,
        endian: segment.endian,
        size: segment.size,
        unit: segment.unit.max(1),
    };
    Ok(Part { typed, value, size })
}

/// What is built of the segments: whether it is these bits, or the fault.
fn gives(alloc: Global, segments: &[Segment], want: Result<(&[u8], u32), BuildFault>) -> bool {
    let mut store = PlainStore::new(alloc);
    let Some(parts) = parts_of(alloc, &mut store, segments) else {
        return false;
    };
    let built = build(alloc, &mut store, &parts, &mut Steps::new());
    match (built, want) {
        (Ok(made), Ok((bytes, len))) => {
            bytes.len() < 1000
                && len as usize <= 8 * bytes.len()
                && order(store.look(&made), Bits::of(bytes, 0, len)) == Ordering::Equal
        }
        (Err(fault), Err(wanted)) => fault == wanted,
        _ => false,
    }
}

fn parts_of(
    alloc: Global,
    store: &mut PlainStore,
    segments: &[Segment],
) -> Option<Vec<Part<Window>>>
    ensures { IfSome result (λ parts. All (HasPart (λ of. length of ≤ MAX_BITS)) parts.items) }
{
    let mut parts = Vec::new(alloc);
    for segment in segments {
        let Ok(part) = part(store, *segment) else {
            return None;
        };
        if parts.push(part).is_err() {
            return None;
        }
    }
    Some(parts)
}

#[test]
fn numbers_have_their_lowest_bits(rt: HostRuntime) -> Result<(), Fail> {
    // Erlang reference manual, "Bit Syntax Expressions", and two's complement
    let rows: [(Segment, &[u8], u32); 12] = [
        (byte(300), &[44], 8),
        (byte(-1), &[255], 8),
        (number(0xABC, 12, Endian::Big), &[0xAB, 0xC0], 12),
        (number(0xABC, 12, Endian::Little), &[0xBC, 0xA0], 12),
        (number(-2, 24, Endian::Little), &[254, 255, 255], 24),
        (number(5, 0, Endian::Big), &[], 0),
        (number(1, 3, Endian::Big), &[0x20], 3),
        (number(1, 3, Endian::Little), &[0x20], 3),
        (
            sized(
                Kind::Int,
                Given::Number(1),
                Given::Number(2),
                8,
                Endian::Little,
            ),
            &[1, 0],
            16,
        ),
        (
            sized(
                Kind::Int,
                Given::Number(1),
                Given::Number(0),
                256,
                Endian::Big,
            ),
            &[],
            0,
        ),
        (
            number(i128::MIN, 136, Endian::Big),
            &[255, 128, 0, 0, 0, 0, 0, 0, 0, 0, 0, 0, 0, 0, 0, 0, 0],
            136,
        ),
        (
            number(i128::MAX, 136, Endian::Little),
            &[
                255, 255, 255, 255, 255, 255, 255, 255, 255, 255, 255, 255, 255, 255, 255, 127, 0,
            ],
            136,
        ),
    ];
    for (segment, bytes, len) in rows {
        assert!(rt; gives(rt.alloc(), &[segment], Ok((bytes, len))), "{len}");
    }
    Ok(())
}

#[test]
fn bitstrings_and_characters_are_put_in(rt: HostRuntime) -> Result<(), Fail> {
    let abc = Given::Bits(0xABC, 12);
    let size = Given::Number(1);
    let rows: [(Segment, &[u8], u32); 10] = [
        (whole(abc, 1), &[0xAB, 0xC0], 12),
        (whole(Given::Bits(0xABCD, 16), 8), &[0xAB, 0xCD], 16),
        (whole(abc, 3), &[0xAB, 0xC0], 12),
        (sized(Kind::Binary, abc, size, 8, Endian::Big), &[0xAB], 8),
        (
            sized(Kind::Bitstring, abc, size, 1, Endian::Big),
            &[0x80],
            1,
        ),
        (
            sized(Kind::Bitstring, abc, size, 12, Endian::Big),
            &[0xAB, 0xC0],
            12,
        ),
        (
            character(UtfKind::Utf8, Endian::Big, 0x20AC),
            &[0xE2, 0x82, 0xAC],
            24,
        ),
        (
            character(UtfKind::Utf16, Endian::Little, 0x20AC),
            &[0xAC, 0x20],
            16,
        ),
        (
            character(UtfKind::Utf16, Endian::Big, 0x10_FFFF),
            &[0xDB, 0xFF, 0xDF, 0xFF],
            32,
        ),
        (
            character(UtfKind::Utf32, Endian::Little, 0x41),
            &[0x41, 0, 0, 0],
            32,
        ),
    ];
    for (segment, bytes, len) in rows {
        assert!(rt; gives(rt.alloc(), &[segment], Ok((bytes, len))), "{len}");
    }
    let string = [byte(72), byte(105)];
    assert!(rt; gives(rt.alloc(), &string, Ok((b"Hi", 16))));
    let joined = [whole(abc, 1), number(1, 4, Endian::Big), whole(abc, 1)];
    assert!(rt; gives(rt.alloc(), &joined, Ok((&[0xAB, 0xC1, 0xAB, 0xC0], 28))));
    assert!(rt; gives(rt.alloc(), &[], Ok((b"", 0))));
    Ok(())
}

#[test]
fn signs_units_and_endiannesses_are_kept_apart(rt: HostRuntime) -> Result<(), Fail> {
    // as Erlang/OTP 25 builds
    let abc = Given::Bits(0xABC, 12);
    let rows: [(Segment, &[u8], u32); 16] = [
        (signed(number(-2, 12, Endian::Big)), &[0xFF, 0xE0], 12),
        (
            signed(number(-3, 20, Endian::Little)),
            &[0xFD, 0xFF, 0xF0],
            20,
        ),
        (signed(number(300, 16, Endian::Little)), &[0x2C, 1], 16),
        (signed(byte(-1)), &[255], 8),
        (
            sized(
                Kind::Int,
                Given::Number(5),
                Given::Number(2),
                16,
                Endian::Big,
            ),
            &[0, 0, 0, 5],
            32,
        ),
        (
            sized(
                Kind::Int,
                Given::Number(5),
                Given::Number(2),
                16,
                Endian::Little,
            ),
            &[5, 0, 0, 0],
            32,
        ),
        (
            sized(Kind::Binary, abc, Given::Number(3), 4, Endian::Big),
            &[0xAB, 0xC0],
            12,
        ),
        (
            sized(Kind::Binary, abc, Given::Number(1), 4, Endian::Big),
            &[0xA0],
            4,
        ),
        (
            sized(Kind::Binary, abc, Given::Number(2), 5, Endian::Big),
            &[0xAB, 0xC0],
            10,
        ),
        (
            sized(Kind::Binary, abc, Given::Number(0), 8, Endian::Big),
            &[],
            0,
        ),
        (whole(abc, 4), &[0xAB, 0xC0], 12),
        (
            character(UtfKind::Utf8, Endian::Little, 0x20AC),
            &[0xE2, 0x82, 0xAC],
            24,
        ),
        (
            character(UtfKind::Utf16, Endian::Little, 0x1F600),
            &[0x3D, 0xD8, 0, 0xDE],
            32,
        ),
        (
            character(UtfKind::Utf16, Endian::Big, 0xFFFF),
            &[0xFF, 0xFF],
            16,
        ),
        (
            character(UtfKind::Utf32, Endian::Big, 0x20AC),
            &[0, 0, 0x20, 0xAC],
            32,
        ),
        (
            character(UtfKind::Utf32, Endian::Little, 0x10_FFFF),
            &[0xFF, 0xFF, 0x10, 0],
            32,
        ),
    ];
    for (segment, bytes, len) in rows {
        assert!(rt; gives(rt.alloc(), &[segment], Ok((bytes, len))), "{len}");
    }
    Ok(())
}

#[test]
fn strings_have_a_character_form(rt: HostRuntime) -> Result<(), Fail> {
    // as Erlang/OTP 25 builds: each character of the string with the form behind it
    let in_utf8 = [
        character(UtfKind::Utf8, Endian::Big, 0x68),
        character(UtfKind::Utf8, Endian::Big, 0xE9),
        character(UtfKind::Utf8, Endian::Big, 0x20AC),
    ];
    let in_utf16 = [
        character(UtfKind::Utf16, Endian::Little, 0x61),
        character(UtfKind::Utf16, Endian::Little, 0x1F600),
    ];
    let in_utf32 = [
        character(UtfKind::Utf32, Endian::Big, 0x61),
        character(UtfKind::Utf32, Endian::Big, 0x1F600),
    ];
    let rows: [(&[Segment], &[u8], u32); 3] = [
        (&in_utf8, &[0x68, 0xC3, 0xA9, 0xE2, 0x82, 0xAC], 48),
        (&in_utf16, &[0x61, 0, 0x3D, 0xD8, 0, 0xDE], 48),
        (&in_utf32, &[0, 0, 0, 0x61, 0, 1, 0xF6, 0], 64),
    ];
    for (segments, bytes, len) in rows {
        assert!(rt; gives(rt.alloc(), segments, Ok((bytes, len))), "{len}");
    }
    Ok(())
}

#[test]
fn what_is_no_segment_is_refused(rt: HostRuntime) -> Result<(), Fail> {
    // as Erlang/OTP 25 refuses
    let abc = Given::Bits(0xABC, 12);
    let rows: [Segment; 8] = [
        sized(Kind::Binary, abc, Given::Number(1), 16, Endian::Big),
        sized(Kind::Binary, abc, Given::Number(5), 3, Endian::Big),
        whole(abc, 5),
        character(UtfKind::Utf16, Endian::Big, 0xD800),
        character(UtfKind::Utf32, Endian::Big, 0xDFFF),
        character(UtfKind::Utf8, Endian::Big, -1),
        plain(
            Kind::Utf(UtfKind::Utf8),
            SizeUse::NoSize,
            1,
            Given::Atom,
            Endian::Big,
        ),
        plain(
            Kind::Utf(UtfKind::Utf16),
            SizeUse::NoSize,
            1,
            abc,
            Endian::Big,
        ),
    ];
    for segment in rows {
        assert!(rt; gives(rt.alloc(), &[segment], Err(BuildFault::BadArg)));
    }
    Ok(())
}

#[test]
fn the_first_segment_that_fails_decides(rt: HostRuntime) -> Result<(), Fail> {
    let most = i128::from(MAX_BITS);
    let abc = Given::Bits(0xABC, 12);
    let short = sized(Kind::Bitstring, abc, Given::Number(13), 1, Endian::Big);
    let long = sized(
        Kind::Bitstring,
        abc,
        Given::Number(most + 1),
        1,
        Endian::Big,
    );
    let wrong = sized(
        Kind::Bitstring,
        Given::Atom,
        Given::Number(most + 1),
        1,
        Endian::Big,
    );
    let negative = number(1, -1, Endian::Big);
    let no_size = sized(Kind::Int, Given::Number(1), Given::Atom, 1, Endian::Big);
    let huge = sized(
        Kind::Int,
        Given::Number(1),
        Given::Number(i128::MAX),
        256,
        Endian::Big,
    );
    let surrogate = character(UtfKind::Utf8, Endian::Big, 0xD800);
    let above = character(UtfKind::Utf32, Endian::Big, 0x11_0000);
    let rows: [(&[Segment], BuildFault); 14] = [
        (&[short], BuildFault::BadArg),
        (&[whole(abc, 8)], BuildFault::BadArg),
        (&[long], BuildFault::Limit),
        (&[wrong], BuildFault::BadArg),
        (&[negative], BuildFault::BadArg),
        (&[no_size], BuildFault::BadArg),
        (&[huge], BuildFault::Limit),
        (&[surrogate], BuildFault::BadArg),
        (&[above], BuildFault::BadArg),
        (
            &[plain(Kind::Int, SizeUse::Default(8), 1, abc, Endian::Big)],
            BuildFault::BadArg,
        ),
        (&[long, short], BuildFault::Limit),
        (&[short, long], BuildFault::BadArg),
        (
            &[byte(1), number(0, most, Endian::Big), negative],
            BuildFault::Limit,
        ),
        (&[whole(abc, 8), huge], BuildFault::BadArg),
    ];
    for (segments, fault) in rows {
        assert!(rt; gives(rt.alloc(), segments, Err(fault)));
    }
    Ok(())
}
