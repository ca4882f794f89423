use bit_store::{Piece, PlainStore, Store, Window};
use bits_build::Extent;
use bits_value::{Bits, Endian, Sign, Steps, UtfKind, order};
use erl_syntax::{Kind, SizeUse, Text, Typed};
use segment_cut::{CutOff, CutValue, cut};
use std::alloc::Global;
use std::cmp::Ordering;
use std::test::Fail;

/// What is cut off. The last number is the bit behind it.
#[derive(Clone, Copy)]
enum Want {
    Number(i128, u32),
    /// A number past the bound.
    Long(u32),
    /// So many of the bytes' bits.
    Part(&'static [u8], u32, u32),
    Nothing,
}

/// The type and the extent of a segment, bytes, how many of their bits there are, where the segment begins, and what is cut off.
type Row = (Typed, Extent, &'static [u8], u32, u32, Want);

const BIG: Typed = Typed {
    kind: Kind::Int,
    sign: Sign::Unsigned,
    endian: Endian::Big,
    size: SizeUse::Given,
    unit: 1,
};

const SIGNED: Typed = Typed {
    kind: Kind::Int,
    sign: Sign::Signed,
    endian: Endian::Big,
    size: SizeUse::Given,
    unit: 1,
};

const LITTLE: Typed = Typed {
    kind: Kind::Int,
    sign: Sign::Unsigned,
    endian: Endian::Little,
    size: SizeUse::Given,
    unit: 1,
};

const SIGNED_LITTLE: Typed = Typed {
    kind: Kind::Int,
    sign: Sign::Signed,
    endian: Endian::Little,
    size: SizeUse::Given,
    unit: 1,
};

const BINARY: Typed = Typed {
    kind: Kind::Binary,
    sign: Sign::Unsigned,
    endian: Endian::Big,
    size: SizeUse::Given,
    unit: 8,
};

const BITS: Typed = Typed {
    kind: Kind::Bitstring,
    sign: Sign::Unsigned,
    endian: Endian::Big,
    size: SizeUse::Given,
    unit: 1,
};

const REST: Typed = Typed {
    kind: Kind::Bitstring,
    sign: Sign::Unsigned,
    endian: Endian::Big,
    size: SizeUse::Whole,
    unit: 1,
};

const UTF_8: Typed = Typed {
    kind: Kind::Utf(UtfKind::Utf8),
    sign: Sign::Unsigned,
    endian: Endian::Big,
    size: SizeUse::NoSize,
    unit: 1,
};

const UTF_16: Typed = Typed {
    kind: Kind::Utf(UtfKind::Utf16),
    sign: Sign::Unsigned,
    endian: Endian::Big,
    size: SizeUse::NoSize,
    unit: 1,
};

const UTF_16_LITTLE: Typed = Typed {
    kind: Kind::Utf(UtfKind::Utf16),
    sign: Sign::Unsigned,
    endian: Endian::Little,
    size: SizeUse::NoSize,
    unit: 1,
};

const UTF_32: Typed = Typed {
    kind: Kind::Utf(UtfKind::Utf32),
    sign: Sign::Unsigned,
    endian: Endian::Big,
    size: SizeUse::NoSize,
    unit: 1,
};

const UTF_32_LITTLE: Typed = Typed {
    kind: Kind::Utf(UtfKind::Utf32),
    sign: Sign::Unsigned,
    endian: Endian::Little,
    size: SizeUse::NoSize,
    unit: 1,
};

fn cuts(alloc: Global, row: &Row) -> bool {
    let Ok(bytes) = row.2.to_vec(alloc) else {
        return false;
    };
    let mut store = PlainStore::new(alloc);
    let pieces = [Piece::Bytes(Text::of(bytes))];
    match store.fresh(&pieces, &mut Steps::new()) {
        Ok(whole) => cuts_off(&store, &whole, row),
        Err(_) => false,
    }
}

fn cuts_off(store: &PlainStore, whole: &Window, row: &Row) -> bool {
    if row.3 > whole.len() || row.4 > row.3 {
        return false;
    }
    let Ok(source) = whole.part(0, row.3) else {
        return false;
    };
    match cut(store, row.0, row.1, &source, row.4) {
        Ok(Some(off)) => is_wanted(&off, row.5),
        Ok(None) => matches!(row.5, Want::Nothing),
        Err(_) => false,
    }
}

fn is_wanted(off: &CutOff<Window>, want: Want) -> bool {
    match (&off.value, want) {
        (CutValue::Number(number), Want::Number(wanted, next)) => {
            *number == wanted && off.next == next
        }
        (CutValue::LongNumber, Want::Long(next)) => off.next == next,
        (CutValue::Part(part), Want::Part(bytes, len, next)) => {
            has_bits(part, bytes, len) && off.next == next
        }
        _ => false,
    }
}

fn has_bits(part: &Window, bytes: &[u8], len: u32) -> bool {
    bytes.len() < 1000
        && len as usize <= 8 * bytes.len()
        && order(part.bits(), Bits::of(bytes, 0, len)) == Ordering::Equal
}

const SOURCE: &[u8] = &[0xAB, 0xCD];

/// As Erlang/OTP 25 matches.
const NUMBERS: &[Row] = &[
    (BIG, Extent::Bits(8), SOURCE, 16, 0, Want::Number(171, 8)),
    (SIGNED, Extent::Bits(8), SOURCE, 16, 0, Want::Number(-85, 8)),
    (BIG, Extent::Bits(8), SOURCE, 16, 4, Want::Number(188, 12)),
    (BIG, Extent::Bits(12), SOURCE, 16, 0, Want::Number(2748, 12)),
    (
        LITTLE,
        Extent::Bits(16),
        SOURCE,
        16,
        0,
        Want::Number(52_651, 16),
    ),
    (
        SIGNED_LITTLE,
        Extent::Bits(16),
        SOURCE,
        16,
        0,
        Want::Number(-12_885, 16),
    ),
    (
        LITTLE,
        Extent::Bits(12),
        SOURCE,
        16,
        0,
        Want::Number(3243, 12),
    ),
    (
        SIGNED_LITTLE,
        Extent::Bits(12),
        SOURCE,
        16,
        0,
        Want::Number(-853, 12),
    ),
    (
        SIGNED_LITTLE,
        Extent::Bits(9),
        SOURCE,
        16,
        3,
        Want::Number(94, 12),
    ),
    (
        LITTLE,
        Extent::Bits(13),
        SOURCE,
        16,
        3,
        Want::Number(3422, 16),
    ),
    (SIGNED, Extent::Bits(1), SOURCE, 16, 0, Want::Number(-1, 1)),
    (BIG, Extent::Bits(0), SOURCE, 16, 5, Want::Number(0, 5)),
    (
        SIGNED_LITTLE,
        Extent::Bits(0),
        SOURCE,
        16,
        16,
        Want::Number(0, 16),
    ),
    (BIG, Extent::Bits(17), SOURCE, 16, 0, Want::Nothing),
    (BIG, Extent::Bits(8), SOURCE, 16, 9, Want::Nothing),
    (BIG, Extent::Bits(8), SOURCE, 15, 8, Want::Nothing),
    (BIG, Extent::TooLong, SOURCE, 16, 0, Want::Nothing),
    (BIG, Extent::BadSize, SOURCE, 16, 0, Want::Nothing),
];

#[test]
fn numbers_are_cut_off(rt: HostRuntime) -> Result<(), Fail> {
    for row in NUMBERS {
        assert!(rt; cuts(rt.alloc(), row));
    }
    Ok(())
}

/// -2^127, in 128 bits.
const LEAST: &[u8] = &[0x80, 0, 0, 0, 0, 0, 0, 0, 0, 0, 0, 0, 0, 0, 0, 0];

const ONES: &[u8] = &[
    255, 255, 255, 255, 255, 255, 255, 255, 255, 255, 255, 255, 255, 255, 255, 255,
];

/// 2^127 - 1, in 136 bits.
const MOST: &[u8] = &[
    0, 127, 255, 255, 255, 255, 255, 255, 255, 255, 255, 255, 255, 255, 255, 255, 255,
];

const MOST_LITTLE: &[u8] = &[
    255, 255, 255, 255, 255, 255, 255, 255, 255, 255, 255, 255, 255, 255, 255, 127, 0,
];

/// -2^127, in 136 bits.
const LEAST_LONG: &[u8] = &[255, 0x80, 0, 0, 0, 0, 0, 0, 0, 0, 0, 0, 0, 0, 0, 0, 0];

const BELOW_LEAST: &[u8] = &[255, 0x7F, 0, 0, 0, 0, 0, 0, 0, 0, 0, 0, 0, 0, 0, 0, 0];

/// As Erlang/OTP 25 matches; that a number past the bound has none is this language's own.
const LONG_NUMBERS: &[Row] = &[
    (BIG, Extent::Bits(128), ONES, 128, 0, Want::Long(128)),
    (
        SIGNED,
        Extent::Bits(128),
        ONES,
        128,
        0,
        Want::Number(-1, 128),
    ),
    (BIG, Extent::Bits(128), LEAST, 128, 0, Want::Long(128)),
    (
        SIGNED,
        Extent::Bits(128),
        LEAST,
        128,
        0,
        Want::Number(i128::MIN, 128),
    ),
    (
        SIGNED_LITTLE,
        Extent::Bits(128),
        LEAST,
        128,
        0,
        Want::Number(128, 128),
    ),
    (
        BIG,
        Extent::Bits(136),
        MOST,
        136,
        0,
        Want::Number(i128::MAX, 136),
    ),
    (LITTLE, Extent::Bits(136), MOST, 136, 0, Want::Long(136)),
    (
        LITTLE,
        Extent::Bits(136),
        MOST_LITTLE,
        136,
        0,
        Want::Number(i128::MAX, 136),
    ),
    (
        SIGNED_LITTLE,
        Extent::Bits(136),
        MOST_LITTLE,
        136,
        0,
        Want::Number(i128::MAX, 136),
    ),
    (
        SIGNED,
        Extent::Bits(136),
        LEAST_LONG,
        136,
        0,
        Want::Number(i128::MIN, 136),
    ),
    (
        SIGNED,
        Extent::Bits(129),
        LEAST_LONG,
        136,
        7,
        Want::Number(i128::MIN, 136),
    ),
    (BIG, Extent::Bits(136), LEAST_LONG, 136, 0, Want::Long(136)),
    (
        SIGNED,
        Extent::Bits(136),
        BELOW_LEAST,
        136,
        0,
        Want::Long(136),
    ),
];

#[test]
fn long_numbers_are_told_apart(rt: HostRuntime) -> Result<(), Fail> {
    for row in LONG_NUMBERS {
        assert!(rt; cuts(rt.alloc(), row));
    }
    Ok(())
}

/// As Erlang/OTP 25 matches.
const PARTS: &[Row] = &[
    (
        BITS,
        Extent::Bits(5),
        SOURCE,
        16,
        3,
        Want::Part(&[0x58], 5, 8),
    ),
    (
        BINARY,
        Extent::Bits(8),
        SOURCE,
        16,
        4,
        Want::Part(&[0xBC], 8, 12),
    ),
    (
        BINARY,
        Extent::Bits(12),
        SOURCE,
        16,
        0,
        Want::Part(&[0xAB, 0xC0], 12, 12),
    ),
    (
        BITS,
        Extent::Bits(0),
        SOURCE,
        16,
        16,
        Want::Part(b"", 0, 16),
    ),
    (BINARY, Extent::Bits(24), SOURCE, 16, 0, Want::Nothing),
    (
        REST,
        Extent::InUnits(8),
        SOURCE,
        16,
        8,
        Want::Part(&[0xCD], 8, 16),
    ),
    (REST, Extent::InUnits(8), SOURCE, 16, 4, Want::Nothing),
    (
        REST,
        Extent::InUnits(1),
        SOURCE,
        16,
        4,
        Want::Part(&[0xBC, 0xD0], 12, 16),
    ),
    (
        REST,
        Extent::InUnits(3),
        SOURCE,
        16,
        4,
        Want::Part(&[0xBC, 0xD0], 12, 16),
    ),
    (REST, Extent::InUnits(5), SOURCE, 16, 4, Want::Nothing),
    (
        REST,
        Extent::InUnits(256),
        SOURCE,
        16,
        16,
        Want::Part(b"", 0, 16),
    ),
];

#[test]
fn parts_are_cut_off(rt: HostRuntime) -> Result<(), Fail> {
    for row in PARTS {
        assert!(rt; cuts(rt.alloc(), row));
    }
    Ok(())
}

/// As Erlang/OTP 25 matches.
const CHARACTERS: &[Row] = &[
    (
        UTF_8,
        Extent::Spelled,
        &[0xC3, 0xA9, 0x41],
        24,
        0,
        Want::Number(233, 16),
    ),
    (
        UTF_8,
        Extent::Spelled,
        &[0x1E, 0x28, 0x2A, 0xC2],
        32,
        4,
        Want::Number(0x20AC, 28),
    ),
    (
        UTF_8,
        Extent::Spelled,
        &[0xF0, 0x9F, 0x98, 0x80],
        32,
        0,
        Want::Number(0x1F600, 32),
    ),
    (UTF_8, Extent::Spelled, &[0xFF], 8, 0, Want::Nothing),
    (UTF_8, Extent::Spelled, &[0xC0, 0x80], 16, 0, Want::Nothing),
    (UTF_8, Extent::Spelled, &[0xE2, 0x82], 16, 0, Want::Nothing),
    (
        UTF_8,
        Extent::Spelled,
        &[0xED, 0xA0, 0x80],
        24,
        0,
        Want::Nothing,
    ),
    (UTF_8, Extent::Spelled, b"", 0, 0, Want::Nothing),
    (UTF_8, Extent::Spelled, &[0x82], 7, 0, Want::Nothing),
    (
        UTF_16_LITTLE,
        Extent::Spelled,
        &[0x3D, 0xD8, 0, 0xDE],
        32,
        0,
        Want::Number(0x1F600, 32),
    ),
    (
        UTF_16,
        Extent::Spelled,
        &[0x20, 0xAC, 7],
        24,
        0,
        Want::Number(0x20AC, 16),
    ),
    (
        UTF_16,
        Extent::Spelled,
        &[0xD8, 0, 0, 0x41],
        32,
        0,
        Want::Nothing,
    ),
    (UTF_16, Extent::Spelled, &[0xD8, 0], 16, 0, Want::Nothing),
    (
        UTF_32,
        Extent::Spelled,
        &[0, 0, 0x20, 0xAC],
        32,
        0,
        Want::Number(0x20AC, 32),
    ),
    (
        UTF_32_LITTLE,
        Extent::Spelled,
        &[0xFF, 0xFF, 0x10, 0],
        32,
        0,
        Want::Number(0x10_FFFF, 32),
    ),
    (
        UTF_32,
        Extent::Spelled,
        &[0, 0x11, 0, 0],
        32,
        0,
        Want::Nothing,
    ),
    (
        UTF_32,
        Extent::Spelled,
        &[0, 0, 0xD8, 0],
        32,
        0,
        Want::Nothing,
    ),
    (UTF_32, Extent::Spelled, &[0, 0, 0], 24, 0, Want::Nothing),
];

#[test]
fn characters_are_cut_off(rt: HostRuntime) -> Result<(), Fail> {
    for row in CHARACTERS {
        assert!(rt; cuts(rt.alloc(), row));
    }
    Ok(())
}
