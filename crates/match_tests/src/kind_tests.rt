use crate::given::{Case, Expected, Given, does};
use crate::segments::{
    BINARY, BITS, BYTE, LITTLE, NIBBLES, NUMBER, REST, REST_BITS, REST_TRIPLES, SIGNED,
    SIGNED_LITTLE, SIXTEENS, UTF_8, UTF_16, UTF_16_LITTLE, UTF_32, UTF_32_LITTLE, any, binds,
};
use erl_syntax::Typed;
use pattern_compile::SizeForm;
use std::alloc::Global;
use std::test::Fail;

/// The type and the size of a pattern's one segment, which binds variable 0; bytes, how many of their bits there are, and what comes
/// of it.
type Row = (Typed, Option<SizeForm>, &'static [u8], u32, Expected);

fn binds_alone(alloc: Global, row: &Row) -> bool {
    let case = Case {
        sizes: &[],
        before: &[],
        bits: (row.2, row.3),
        expected: row.4,
    };
    does(alloc, &[binds(0, row.0, row.1)], &case)
}

/// Erlang Reference Manual, "Bit Syntax Expressions": the value is the number in its bits, by sign and endianness.
const NUMBERS: &[Row] = &[
    (
        BYTE,
        None,
        &[200],
        8,
        Expected::Yes(&[(0, Given::Number(200))]),
    ),
    (
        NUMBER,
        Some(SizeForm::Fixed(12)),
        &[0xAB, 0xCD],
        12,
        Expected::Yes(&[(0, Given::Number(2748))]),
    ),
    (
        SIGNED,
        Some(SizeForm::Fixed(12)),
        &[0xAB, 0xCD],
        12,
        Expected::Yes(&[(0, Given::Number(-1348))]),
    ),
    (
        LITTLE,
        Some(SizeForm::Fixed(16)),
        &[0xAB, 0xCD],
        16,
        Expected::Yes(&[(0, Given::Number(52_651))]),
    ),
    (
        LITTLE,
        Some(SizeForm::Fixed(12)),
        &[0xAB, 0xCD],
        12,
        Expected::Yes(&[(0, Given::Number(3243))]),
    ),
    (
        SIGNED_LITTLE,
        Some(SizeForm::Fixed(16)),
        &[0xAB, 0xCD],
        16,
        Expected::Yes(&[(0, Given::Number(-12_885))]),
    ),
    (
        SIGNED_LITTLE,
        Some(SizeForm::Fixed(12)),
        &[0xAB, 0xC0],
        12,
        Expected::Yes(&[(0, Given::Number(-853))]),
    ),
    (
        SIXTEENS,
        Some(SizeForm::Fixed(2)),
        &[1, 2, 3, 4],
        32,
        Expected::Yes(&[(0, Given::Number(0x0403_0201))]),
    ),
    (
        NUMBER,
        Some(SizeForm::Fixed(0)),
        &[],
        0,
        Expected::Yes(&[(0, Given::Number(0))]),
    ),
    (
        NUMBER,
        Some(SizeForm::Fixed(16)),
        &[0xAB, 0xCD],
        15,
        Expected::No,
    ),
    (
        NUMBER,
        Some(SizeForm::Fixed(8)),
        &[0xAB, 0xCD],
        9,
        Expected::No,
    ),
    (SIXTEENS, Some(SizeForm::Fixed(1)), &[1], 8, Expected::No),
    (BYTE, None, &[], 0, Expected::No),
];

#[test]
fn numbers_are_bound(rt: HostRuntime) -> Result<(), Fail> {
    for row in NUMBERS {
        assert!(rt; binds_alone(rt.alloc(), row), "{}", row.3);
    }
    Ok(())
}

const LONG_ZEROS: &[u8] = &[255, 0, 0, 0, 0, 0, 0, 0, 0, 0, 0, 0, 0, 0, 0, 0];

/// 2^127 - 1, in 136 bits.
const MOST: &[u8] = &[
    0, 127, 255, 255, 255, 255, 255, 255, 255, 255, 255, 255, 255, 255, 255, 255, 255,
];

/// 2^127, in 136 bits.
const PAST_MOST: &[u8] = &[0, 128, 0, 0, 0, 0, 0, 0, 0, 0, 0, 0, 0, 0, 0, 0, 0];

/// -2^127, in 136 bits.
const LEAST: &[u8] = &[255, 128, 0, 0, 0, 0, 0, 0, 0, 0, 0, 0, 0, 0, 0, 0, 0];

/// -2^127 - 1, in 136 bits.
const PAST_LEAST: &[u8] = &[
    255, 127, 255, 255, 255, 255, 255, 255, 255, 255, 255, 255, 255, 255, 255, 255, 255,
];

/// A variable is bound to a number of -2^127 to 2^127 - 1, and any other number is past a bound.
const LONG_NUMBERS: &[Row] = &[
    (
        SIGNED,
        Some(SizeForm::Fixed(128)),
        LONG_ZEROS,
        128,
        Expected::Yes(&[(
            0,
            Given::Number(-1_329_227_995_784_915_872_903_807_060_280_344_576),
        )]),
    ),
    (
        NUMBER,
        Some(SizeForm::Fixed(128)),
        LONG_ZEROS,
        128,
        Expected::Limit,
    ),
    (
        NUMBER,
        Some(SizeForm::Fixed(136)),
        MOST,
        136,
        Expected::Yes(&[(0, Given::Number(i128::MAX))]),
    ),
    (
        NUMBER,
        Some(SizeForm::Fixed(136)),
        PAST_MOST,
        136,
        Expected::Limit,
    ),
    (
        SIGNED,
        Some(SizeForm::Fixed(136)),
        LEAST,
        136,
        Expected::Yes(&[(0, Given::Number(i128::MIN))]),
    ),
    (
        SIGNED,
        Some(SizeForm::Fixed(136)),
        PAST_LEAST,
        136,
        Expected::Limit,
    ),
    (
        LITTLE,
        Some(SizeForm::Fixed(136)),
        PAST_MOST,
        136,
        Expected::Yes(&[(0, Given::Number(32768))]),
    ),
    (
        LITTLE,
        Some(SizeForm::Fixed(136)),
        MOST,
        136,
        Expected::Limit,
    ),
];

#[test]
fn numbers_are_bound_within_the_bound(rt: HostRuntime) -> Result<(), Fail> {
    for row in LONG_NUMBERS {
        assert!(rt; binds_alone(rt.alloc(), row), "{}", row.3);
    }
    Ok(())
}

/// Erlang Reference Manual, "Bit Syntax Expressions": a part has size times unit bits, and a rest whole units.
const PARTS: &[Row] = &[
    (
        BINARY,
        Some(SizeForm::Fixed(2)),
        &[0xAB, 0xCD],
        16,
        Expected::Yes(&[(0, Given::Bits(&[0xAB, 0xCD], 16))]),
    ),
    (
        NIBBLES,
        Some(SizeForm::Fixed(3)),
        &[0xAB, 0xCD],
        12,
        Expected::Yes(&[(0, Given::Bits(&[0xAB, 0xC0], 12))]),
    ),
    (
        BITS,
        Some(SizeForm::Fixed(5)),
        &[0xAB, 0xCD],
        5,
        Expected::Yes(&[(0, Given::Bits(&[0xA8], 5))]),
    ),
    (
        BITS,
        Some(SizeForm::Fixed(0)),
        &[],
        0,
        Expected::Yes(&[(0, Given::Bits(&[], 0))]),
    ),
    (
        BINARY,
        Some(SizeForm::Fixed(2)),
        &[0xAB, 0xCD],
        12,
        Expected::No,
    ),
    (
        REST,
        None,
        &[0xAB, 0xCD],
        16,
        Expected::Yes(&[(0, Given::Bits(&[0xAB, 0xCD], 16))]),
    ),
    (
        REST,
        None,
        &[],
        0,
        Expected::Yes(&[(0, Given::Bits(&[], 0))]),
    ),
    (REST, None, &[0xAB, 0xCD], 12, Expected::No),
    (
        REST_BITS,
        None,
        &[0xAB, 0xCD],
        13,
        Expected::Yes(&[(0, Given::Bits(&[0xAB, 0xC8], 13))]),
    ),
    (
        REST_TRIPLES,
        None,
        &[0xAB, 0xCD],
        12,
        Expected::Yes(&[(0, Given::Bits(&[0xAB, 0xC0], 12))]),
    ),
    (REST_TRIPLES, None, &[0xAB, 0xCD], 13, Expected::No),
];

#[test]
fn parts_and_rests_are_bound(rt: HostRuntime) -> Result<(), Fail> {
    for row in PARTS {
        assert!(rt; binds_alone(rt.alloc(), row), "{}", row.3);
    }
    Ok(())
}

/// RFC 3629, RFC 2781 and the Unicode Standard, section 3.9: the shortest form alone, and no surrogate.
const CHARACTERS: &[Row] = &[
    (
        UTF_8,
        None,
        &[195, 169],
        16,
        Expected::Yes(&[(0, Given::Number(233))]),
    ),
    (
        UTF_8,
        None,
        &[226, 130, 172],
        24,
        Expected::Yes(&[(0, Given::Number(8364))]),
    ),
    (
        UTF_8,
        None,
        &[0xF0, 0x9F, 0x98, 0x80],
        32,
        Expected::Yes(&[(0, Given::Number(0x1F600))]),
    ),
    (UTF_8, None, &[0xC0, 0x80], 16, Expected::No),
    (UTF_8, None, &[0xE0, 0x82, 0xAC], 24, Expected::No),
    (UTF_8, None, &[0xF0, 0x82, 0x82, 0xAC], 32, Expected::No),
    (UTF_8, None, &[0x80], 8, Expected::No),
    (UTF_8, None, &[0xED, 0xA0, 0x80], 24, Expected::No),
    (UTF_8, None, &[0xF4, 0x90, 0x80, 0x80], 32, Expected::No),
    (UTF_8, None, &[226, 130], 16, Expected::No),
    (
        UTF_16,
        None,
        &[216, 61, 222, 0],
        32,
        Expected::Yes(&[(0, Given::Number(0x1F600))]),
    ),
    (
        UTF_16,
        None,
        &[0x20, 0xAC],
        16,
        Expected::Yes(&[(0, Given::Number(0x20AC))]),
    ),
    (
        UTF_16_LITTLE,
        None,
        &[61, 216, 0, 222],
        32,
        Expected::Yes(&[(0, Given::Number(0x1F600))]),
    ),
    (
        UTF_16_LITTLE,
        None,
        &[0xAC, 0x20],
        16,
        Expected::Yes(&[(0, Given::Number(0x20AC))]),
    ),
    (UTF_16, None, &[216, 61], 16, Expected::No),
    (UTF_16, None, &[216, 61, 222], 24, Expected::No),
    (UTF_16, None, &[222, 0, 216, 61], 32, Expected::No),
    (UTF_16, None, &[0x20], 8, Expected::No),
    (
        UTF_32,
        None,
        &[0, 1, 0xF6, 0],
        32,
        Expected::Yes(&[(0, Given::Number(0x1F600))]),
    ),
    (
        UTF_32_LITTLE,
        None,
        &[0, 0xF6, 1, 0],
        32,
        Expected::Yes(&[(0, Given::Number(0x1F600))]),
    ),
    (UTF_32, None, &[0, 0, 0xD8, 0], 32, Expected::No),
    (UTF_32, None, &[0, 0x11, 0, 0], 32, Expected::No),
    (UTF_32, None, &[0, 1, 0xF6], 24, Expected::No),
];

#[test]
fn characters_are_bound(rt: HostRuntime) -> Result<(), Fail> {
    for row in CHARACTERS {
        assert!(rt; binds_alone(rt.alloc(), row), "{}", row.3);
    }
    Ok(())
}

/// The same without a variable, and whether it matches: `_` takes what a variable would be bound to.
type PassedRow = (Typed, Option<SizeForm>, &'static [u8], u32, bool);

const PASSED: &[PassedRow] = &[
    (NUMBER, Some(SizeForm::Fixed(13)), &[0xAB, 0xCD], 13, true),
    (SIXTEENS, Some(SizeForm::Fixed(1)), &[0xAB, 0xCD], 15, false),
    (BINARY, Some(SizeForm::Fixed(2)), &[0xAB, 0xCD], 16, true),
    (BINARY, Some(SizeForm::Fixed(2)), &[0xAB, 0xCD], 12, false),
    (REST, None, &[0xAB, 0xCD], 12, false),
    (REST_BITS, None, &[0xAB, 0xCD], 12, true),
    (UTF_8, None, &[195, 169], 16, true),
    (UTF_8, None, &[0xC0, 0x80], 16, false),
    (UTF_8, None, &[0xED, 0xA0, 0x80], 24, false),
    (UTF_16, None, &[216, 61], 16, false),
    (UTF_32, None, &[0, 0, 0xD8, 0], 32, false),
];

fn passes(alloc: Global, row: &PassedRow) -> bool {
    let case = Case {
        sizes: &[],
        before: &[],
        bits: (row.2, row.3),
        expected: if row.4 {
            Expected::Yes(&[])
        } else {
            Expected::No
        },
    };
    does(alloc, &[any(row.0, row.1)], &case)
}

#[test]
fn values_without_a_name_are_passed_over(rt: HostRuntime) -> Result<(), Fail> {
    for row in PASSED {
        assert!(rt; passes(rt.alloc(), row), "{}", row.3);
    }
    Ok(())
}
