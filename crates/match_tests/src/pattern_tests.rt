use crate::given::{Binding, Case, Expected, Given, does};
use crate::segments::{
    BINARY, BITS, BYTE, NUMBER, REST_BITS, SIGNED, SIXTEENS, UTF_8, any, binds, fixed, given,
    literal, same, sizes,
};
use crate::slots::SizeRule;
use pattern_compile::PatSegment;
use std::alloc::Global;
use std::test::Fail;

/// Bytes, how many of their bits there are, and what comes of a pattern.
type Row = (&'static [u8], u32, Expected);

/// A size expression that is the value of variable 0.
const BY_FIRST: &[SizeRule] = &[SizeRule::ValueOf(0)];

fn all_do(alloc: Global, pattern: &[PatSegment], rows: &[Row]) -> bool {
    for row in rows {
        let case = Case {
            sizes: BY_FIRST,
            before: &[],
            bits: (row.0, row.1),
            expected: row.2,
        };
        if !does(alloc, pattern, &case) {
            return false;
        }
    }
    true
}

/// Of `<<N,B:N/binary,R/bits>>`.
const PREFIXED: &[Row] = &[
    (
        &[2, 1, 2, 0x30],
        28,
        Expected::Yes(&[
            (0, Given::Number(2)),
            (1, Given::Bits(&[1, 2], 16)),
            (2, Given::Bits(&[0x30], 4)),
        ]),
    ),
    (
        &[0],
        8,
        Expected::Yes(&[
            (0, Given::Number(0)),
            (1, Given::Bits(&[], 0)),
            (2, Given::Bits(&[], 0)),
        ]),
    ),
    (&[3, 1, 2], 24, Expected::No),
    (&[2], 7, Expected::No),
];

/// Of `<<N:128,X:N/little-unit:16>>`: 2^124 units are 2^128 bits.
const LONG_LENGTHS: &[Row] = &[
    (
        &[0, 0, 0, 0, 0, 0, 0, 0, 0, 0, 0, 0, 0, 0, 0, 1, 5, 0],
        144,
        Expected::Yes(&[(0, Given::Number(1)), (1, Given::Number(5))]),
    ),
    (
        &[16, 0, 0, 0, 0, 0, 0, 0, 0, 0, 0, 0, 0, 0, 0, 0],
        128,
        Expected::No,
    ),
];

#[test]
fn a_length_stands_before_its_part(rt: HostRuntime) -> Result<(), Fail> {
    let pattern = [
        sizes(0, BYTE, None),
        binds(1, BINARY, given(0)),
        binds(2, REST_BITS, None),
    ];
    assert!(rt; all_do(rt.alloc(), &pattern, PREFIXED));
    let long = [sizes(0, NUMBER, fixed(128)), binds(1, SIXTEENS, given(0))];
    assert!(rt; all_do(rt.alloc(), &long, LONG_LENGTHS));
    Ok(())
}

/// A size expression, the variables that are bound before, and what comes of `<<X:Size>>` on `<<5>>`. Variable 0 is X.
type SizeRow = (&'static [SizeRule], &'static [Binding], Expected);

/// Erlang Reference Manual, "Bit Syntax Expressions": where a size is no number that isn't negative, and where it raises, the pattern
/// doesn't match. That a size past a bound is a limit is this language's own.
const SIZES: &[SizeRow] = &[
    (
        &[SizeRule::Number(8)],
        &[],
        Expected::Yes(&[(0, Given::Number(5))]),
    ),
    (&[SizeRule::Number(-1)], &[], Expected::No),
    (&[SizeRule::Number(9)], &[], Expected::No),
    (&[SizeRule::Number(i128::MAX)], &[], Expected::No),
    (
        &[SizeRule::ValueOf(1)],
        &[(1, Given::Number(8))],
        Expected::Yes(&[(0, Given::Number(5)), (1, Given::Number(8))]),
    ),
    (
        &[SizeRule::ValueOf(1)],
        &[(1, Given::Number(-8))],
        Expected::No,
    ),
    (
        &[SizeRule::ValueOf(1)],
        &[(1, Given::Atom(0))],
        Expected::No,
    ),
    (
        &[SizeRule::ValueOf(1)],
        &[(1, Given::Bits(&[8], 8))],
        Expected::No,
    ),
    (&[SizeRule::ValueOf(1)], &[], Expected::No),
    (
        &[SizeRule::MinusOf(1)],
        &[(1, Given::Number(-8))],
        Expected::Yes(&[(0, Given::Number(5)), (1, Given::Number(-8))]),
    ),
    (
        &[SizeRule::MinusOf(1)],
        &[(1, Given::Number(8))],
        Expected::No,
    ),
    (
        &[SizeRule::MinusOf(1)],
        &[(1, Given::Atom(0))],
        Expected::No,
    ),
    (
        &[SizeRule::MinusOf(1)],
        &[(1, Given::Number(i128::MIN))],
        Expected::Limit,
    ),
];

fn has_size(alloc: Global, row: &SizeRow) -> bool {
    let case = Case {
        sizes: row.0,
        before: row.1,
        bits: (&[5], 8),
        expected: row.2,
    };
    does(alloc, &[binds(0, NUMBER, given(0))], &case)
}

#[test]
fn sizes_are_numbers_that_are_not_negative(rt: HostRuntime) -> Result<(), Fail> {
    for row in SIZES {
        assert!(rt; has_size(rt.alloc(), row));
    }
    Ok(())
}

const BY_OPPOSITE: &[SizeRule] = &[SizeRule::MinusOf(1)];

const LEAST: &[Binding] = &[(1, Given::Number(i128::MIN))];

// Where variable 1 is -2^127, and its opposite, which is past a bound, the only size.
fn comes_at_limit(
    alloc: Global,
    pattern: &[PatSegment],
    byte: &'static [u8],
    expected: Expected,
) -> bool {
    let case = Case {
        sizes: BY_OPPOSITE,
        before: LEAST,
        bits: (byte, 8),
        expected,
    };
    does(alloc, pattern, &case)
}

/// Segments are matched from the left. A size is evaluated also where the kind is wrong.
#[test]
fn a_limit_comes_where_it_is_met(rt: HostRuntime) -> Result<(), Fail> {
    let behind = [literal(1, BYTE, None), any(NUMBER, given(0))];
    assert!(rt; comes_at_limit(rt.alloc(), &behind, &[1], Expected::Limit));
    assert!(rt; comes_at_limit(rt.alloc(), &behind, &[2], Expected::No));
    let bound = [binds(0, BYTE, None), any(NUMBER, given(0))];
    assert!(rt; comes_at_limit(rt.alloc(), &bound, &[1], Expected::Limit));
    let other_kind = [literal(1, BINARY, given(0))];
    assert!(rt; comes_at_limit(rt.alloc(), &other_kind, &[1], Expected::Limit));
    Ok(())
}

/// Of `<<1,X>>`.
const AFTER_ONE: &[Row] = &[
    (&[1, 5], 16, Expected::Yes(&[(0, Given::Number(5))])),
    (&[2, 5], 16, Expected::No),
    (&[1], 8, Expected::No),
    (&[1, 5, 6], 24, Expected::No),
];

/// Of `<<X,X>>`.
const TWICE: &[Row] = &[
    (&[7, 7], 16, Expected::Yes(&[(0, Given::Number(7))])),
    (&[7, 8], 16, Expected::No),
];

/// Of `<<-1:4/signed,_:4>>`.
const MINUS_ONE: &[Row] = &[(&[0xF7], 8, Expected::Yes(&[])), (&[0x77], 8, Expected::No)];

/// Of `<<5:1/binary>>`, which no part is.
const FIVE_AS_PART: &[Row] = &[(&[5], 8, Expected::No)];

/// Of `<<15:4/signed>>`, which no four bits are.
const FIFTEEN: &[Row] = &[(&[0xF0], 4, Expected::No)];

#[test]
fn literals_and_repeated_variables_are_compared(rt: HostRuntime) -> Result<(), Fail> {
    let after_one = [literal(1, BYTE, None), binds(0, BYTE, None)];
    assert!(rt; all_do(rt.alloc(), &after_one, AFTER_ONE));
    let twice = [binds(0, BYTE, None), same(0, BYTE, None)];
    assert!(rt; all_do(rt.alloc(), &twice, TWICE));
    let minus_one = [literal(-1, SIGNED, fixed(4)), any(NUMBER, fixed(4))];
    assert!(rt; all_do(rt.alloc(), &minus_one, MINUS_ONE));
    let fifteen = [literal(15, SIGNED, fixed(4))];
    assert!(rt; all_do(rt.alloc(), &fifteen, FIFTEEN));
    let part = [literal(5, BINARY, fixed(1))];
    assert!(rt; all_do(rt.alloc(), &part, FIVE_AS_PART));
    Ok(())
}

/// The value that X has before, and whether the pattern matches.
type BoundRow = (&'static [Binding], bool);

/// Of `<<X:16>>` on `<<1,2>>`.
const AS_NUMBER: &[BoundRow] = &[
    (&[(0, Given::Number(258))], true),
    (&[(0, Given::Number(257))], false),
    (&[(0, Given::Bits(&[1, 2], 16))], false),
    (&[(0, Given::Atom(0))], false),
];

/// Of `<<X:16/bits>>` and of `<<X/bits>>` on `<<1,2>>`.
const AS_PART: &[BoundRow] = &[
    (&[(0, Given::Bits(&[1, 2], 16))], true),
    (&[(0, Given::Bits(&[1, 3], 16))], false),
    (&[(0, Given::Bits(&[1, 2], 15))], false),
    (&[(0, Given::Number(258))], false),
];

/// Of `<<X/utf8>>` on `<<"é"/utf8>>`.
const AS_CHARACTER: &[BoundRow] = &[
    (&[(0, Given::Number(233))], true),
    (&[(0, Given::Number(234))], false),
    (&[(0, Given::Bits(&[195, 169], 16))], false),
];

/// 2^136 - 1, or -1, in 136 bits.
const ONES: &[u8] = &[
    255, 255, 255, 255, 255, 255, 255, 255, 255, 255, 255, 255, 255, 255, 255, 255, 255,
];

const AS_MINUS_ONE: &[BoundRow] = &[(&[(0, Given::Number(-1))], true)];

const NOT_MINUS_ONE: &[BoundRow] = &[(&[(0, Given::Number(-1))], false)];

fn all_compare(
    alloc: Global,
    segment: PatSegment,
    bits: (&'static [u8], u32),
    rows: &[BoundRow],
) -> bool {
    for row in rows {
        if !compares(alloc, segment, bits, row) {
            return false;
        }
    }
    true
}

fn compares(
    alloc: Global,
    segment: PatSegment,
    bits: (&'static [u8], u32),
    row: &BoundRow,
) -> bool {
    let case = Case {
        sizes: &[],
        before: row.0,
        bits,
        expected: if row.1 {
            Expected::Yes(row.0)
        } else {
            Expected::No
        },
    };
    does(alloc, &[segment], &case)
}

#[test]
fn variables_that_are_bound_before_are_compared(rt: HostRuntime) -> Result<(), Fail> {
    let two: (&'static [u8], u32) = (&[1, 2], 16);
    assert!(rt; all_compare(rt.alloc(), same(0, NUMBER, fixed(16)), two, AS_NUMBER));
    assert!(rt; all_compare(rt.alloc(), same(0, BITS, fixed(16)), two, AS_PART));
    assert!(rt; all_compare(rt.alloc(), same(0, REST_BITS, None), two, AS_PART));
    let spelled: (&'static [u8], u32) = (&[195, 169], 16);
    assert!(rt; all_compare(rt.alloc(), same(0, UTF_8, None), spelled, AS_CHARACTER));
    let ones = (ONES, 136);
    assert!(rt; all_compare(rt.alloc(), same(0, SIGNED, fixed(136)), ones, AS_MINUS_ONE));
    assert!(rt; all_compare(rt.alloc(), same(0, NUMBER, fixed(136)), ones, NOT_MINUS_ONE));
    Ok(())
}

/// 2^127, in 136 bits.
const PAST_MOST: &[u8] = &[0, 128, 0, 0, 0, 0, 0, 0, 0, 0, 0, 0, 0, 0, 0, 0, 0];

const LONG_ONE: &[u8] = &[0, 0, 0, 0, 0, 0, 0, 0, 0, 0, 0, 0, 0, 0, 0, 0, 1];

/// Of `<<_:136>>`: nothing is bound, so no bound is passed.
const LONG_ANY: &[Row] = &[
    (PAST_MOST, 136, Expected::Yes(&[])),
    (LONG_ONE, 136, Expected::Yes(&[])),
    (LONG_ONE, 135, Expected::No),
];

/// Of `<<1:136>>`.
const LONG_LITERAL: &[Row] = &[
    (LONG_ONE, 136, Expected::Yes(&[])),
    (PAST_MOST, 136, Expected::No),
];

/// Of `<<_:128>>`.
const FULL_ANY: &[Row] = &[(
    &[255, 0, 0, 0, 0, 0, 0, 0, 0, 0, 0, 0, 0, 0, 0, 0],
    128,
    Expected::Yes(&[]),
)];

#[test]
fn long_numbers_are_passed_over_and_compared(rt: HostRuntime) -> Result<(), Fail> {
    assert!(rt; all_do(rt.alloc(), &[any(NUMBER, fixed(136))], LONG_ANY));
    assert!(rt; all_do(rt.alloc(), &[literal(1, NUMBER, fixed(136))], LONG_LITERAL));
    assert!(rt; all_do(rt.alloc(), &[any(NUMBER, fixed(128))], FULL_ANY));
    Ok(())
}

/// Of `<<"abc">>`.
const LETTERS: &[Row] = &[
    (b"abc", 24, Expected::Yes(&[])),
    (b"abd", 24, Expected::No),
    (b"ab", 16, Expected::No),
];

/// Of `<<"é€"/utf8>>`.
const SPELLED: &[Row] = &[
    (&[195, 169, 226, 130, 172], 40, Expected::Yes(&[])),
    (&[195, 169, 226, 130, 173], 40, Expected::No),
    (&[233, 172], 16, Expected::No),
];

/// Of the characters 233 and 172, which are the lowest bits of é and €.
const LOWEST_BITS: &[Row] = &[(&[233, 172], 16, Expected::Yes(&[]))];

/// Of `<<"é€">>`: no number of 8 bits is 16#20AC.
const TOO_LARGE: &[Row] = &[(&[233, 172], 16, Expected::No)];

#[test]
fn strings_are_their_characters(rt: HostRuntime) -> Result<(), Fail> {
    let letters = [
        literal(97, BYTE, None),
        literal(98, BYTE, None),
        literal(99, BYTE, None),
    ];
    assert!(rt; all_do(rt.alloc(), &letters, LETTERS));
    let spelled = [literal(233, UTF_8, None), literal(0x20AC, UTF_8, None)];
    assert!(rt; all_do(rt.alloc(), &spelled, SPELLED));
    let lowest = [literal(233, BYTE, None), literal(172, BYTE, None)];
    assert!(rt; all_do(rt.alloc(), &lowest, LOWEST_BITS));
    let large = [literal(233, BYTE, None), literal(0x20AC, BYTE, None)];
    assert!(rt; all_do(rt.alloc(), &large, TOO_LARGE));
    Ok(())
}
