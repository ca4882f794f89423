ghost use Rattle.std.specs.Prelude.{◌≤◌, length};
ghost use Rattle.bits_value.specs.declared.TheConstants.{MAX_BITS};
ghost use Rattle.comprehension.specs.Remaining.{IsRows};
ghost use Rattle.bit_store.specs.Stores.{itself};
ghost use Rattle.match_context.specs.Envs.{AreThere};
ghost use Rattle.match_tests.specs.Held.{held_in};

use crate::fitting::{are_typed, fits};
use crate::given::{Binding, Given, are_bound, filled, program, window};
use crate::segments::{
    BINARY, BYTE, NUMBER, UTF_8, any, binds, fixed, given, literal, same, sizes,
};
use crate::slots::{SizeRule, Slots};
use bit_store::{PlainStore, Window};
use comprehension::{Row, Rows};
use match_context::{Context, release};
use pattern_compile::{PatSegment, shape};
use std::alloc::Global;
use std::test::Fail;

/// A generator, and where it stands.
#[derive(Clone, Copy)]
struct Generator<'a> {
    pattern: &'a [PatSegment],
    sizes: &'static [SizeRule],
    /// The variables that are bound before.
    before: &'static [Binding],
    /// So many of the bytes' bits.
    bits: (&'static [u8], u32),
}

/// The next row, and all variables that are bound then.
type Expected = (Row, &'static [Binding]);

fn gives(alloc: Global, generator: &Generator, rows: &[Expected]) -> bool {
    let mut store = PlainStore::new(alloc);
    let filled = filled(alloc, &mut store, generator.sizes, generator.before);
    let Some(mut slots) = filled else {
        return false;
    };
    let Some(of) = window(alloc, &mut store, generator.bits.0, generator.bits.1) else {
        return false;
    };
    let Some(program) = program(alloc, generator.pattern, false) else {
        return false;
    };
    if !are_typed(generator.pattern) {
        return false;
    }
    let Ok(shape) = shape(alloc, generator.pattern) else {
        return false;
    };
    let context = Context::on(&mut store, of);
    let mut left = Rows::new(program, shape, context);
    for row in rows {
        if !is_next(alloc, &mut left, &store, &mut slots, row) {
            return false;
        }
    }
    true
}

// Whether the next row is this one; its variables are released.
fn is_next(
    alloc: Global,
    rows: &mut Rows<Window>,
    store: &PlainStore,
    slots: &mut Slots<Window>,
    expected: &Expected,
) -> bool
    requires rows { IsRows itself (λ of. length of ≤ MAX_BITS) rows.old }
    requires there { AreThere (λ of. length of ≤ MAX_BITS) (held_in slots.old.values.items) }
    ensures rows { IsRows itself (λ of. length of ≤ MAX_BITS) rows.new }
    ensures there { AreThere (λ of. length of ≤ MAX_BITS) (held_in slots.new.values.items) }
{
    let fit = fits(alloc, slots, rows.pattern.ops.items());
    if !fit || !fits(alloc, slots, rows.shape.ops.items()) {
        return false;
    }
    let row = rows.next(store, slots);
    let bound = are_bound(slots, expected.1);
    if row == Row::Bound {
        release::<Window, PlainStore, Slots<Window>>(&rows.pattern, slots);
    }
    row == expected.0 && bound
}

// Of a pattern in which only variable 0 is a size, where no variable is bound before.
fn has_rows(
    alloc: Global,
    pattern: &[PatSegment],
    bits: (&'static [u8], u32),
    rows: &[Expected],
) -> bool {
    let generator = Generator {
        pattern,
        sizes: &[SizeRule::ValueOf(0)],
        before: &[],
        bits,
    };
    gives(alloc, &generator, rows)
}

const END: Expected = (Row::Ended, &[]);

const SKIPPED: Expected = (Row::Skipped, &[]);

/// Erlang Reference Manual, "Comprehensions": of `<<1,X>> <= <<1,2,3,4,1,6>>`.
const AFTER_ONES: &[Expected] = &[
    (Row::Bound, &[(0, Given::Number(2))]),
    SKIPPED,
    (Row::Bound, &[(0, Given::Number(6))]),
    END,
    END,
];

/// Of `<<X>> <= <<1,2,3:4>>`: the last four bits are dropped.
const BYTES: &[Expected] = &[
    (Row::Bound, &[(0, Given::Number(1))]),
    (Row::Bound, &[(0, Given::Number(2))]),
    END,
    END,
];

#[test]
fn rows_come_in_order(rt: HostRuntime) -> Result<(), Fail> {
    let after_one = [literal(1, BYTE, None), binds(0, BYTE, None)];
    let bytes = [binds(0, BYTE, None)];
    assert!(rt;
        has_rows(
            rt.alloc(),
            &after_one,
            (&[1, 2, 3, 4, 1, 6], 48),
            AFTER_ONES
        )
    );
    assert!(rt; has_rows(rt.alloc(), &bytes, (&[1, 2, 0x30], 20), BYTES));
    assert!(rt; has_rows(rt.alloc(), &bytes, (&[], 0), &[END, END]));
    Ok(())
}

/// Of `<<N,B:N/binary,N>> <= <<1,9,1, 1,9,2, 5,0>>`: the second is skipped by its own length, and the third doesn't fit.
const PREFIXED: &[Expected] = &[
    (
        Row::Bound,
        &[(0, Given::Number(1)), (1, Given::Bits(&[9], 8))],
    ),
    SKIPPED,
    END,
    END,
];

/// Of `<<1,X/utf8>> <= <<1,"é"/utf8,2,$A,1,$B,1,255,1,$C>>`: behind the third row stands no character.
const CHARACTERS: &[Expected] = &[
    (Row::Bound, &[(0, Given::Number(233))]),
    SKIPPED,
    (Row::Bound, &[(0, Given::Number(66))]),
    END,
    END,
];

#[test]
fn a_row_is_skipped_by_its_shape(rt: HostRuntime) -> Result<(), Fail> {
    let pattern = [
        sizes(0, BYTE, None),
        binds(1, BINARY, given(0)),
        same(0, BYTE, None),
    ];
    let bits: (&'static [u8], u32) = (&[1, 9, 1, 1, 9, 2, 5, 0], 64);
    assert!(rt; has_rows(rt.alloc(), &pattern, bits, PREFIXED));
    let character = [literal(1, BYTE, None), binds(0, UTF_8, None)];
    let text: (&'static [u8], u32) = (&[1, 195, 169, 2, 65, 1, 66, 1, 255, 1, 67], 88);
    assert!(rt; has_rows(rt.alloc(), &character, text, CHARACTERS));
    Ok(())
}

const ONES: &[u8] = &[
    255, 255, 255, 255, 255, 255, 255, 255, 255, 255, 255, 255, 255, 255, 255, 255,
];

/// Of `<<X:128>>` on 2^128 - 1: no further row follows a limit.
const PAST: &[Expected] = &[(Row::Limit, &[]), END];

const BY_OPPOSITE: &[SizeRule] = &[SizeRule::MinusOf(1)];

const LEAST: &[Binding] = &[(1, Given::Number(i128::MIN))];

/// Of `<<X:(-N)>>` on no bits, where N is -2^127: the pattern is looked at once more at the end.
const LIMIT_AT_END: &[Expected] = &[(Row::Limit, LEAST), (Row::Ended, LEAST)];

#[test]
fn no_row_follows_an_end(rt: HostRuntime) -> Result<(), Fail> {
    let nothing = [any(NUMBER, fixed(0))];
    let one: (&'static [u8], u32) = (&[1], 8);
    assert!(rt; has_rows(rt.alloc(), &nothing, one, &[END, END]));
    assert!(rt; has_rows(rt.alloc(), &[], one, &[END, END]));
    let other = [literal(1, NUMBER, fixed(0))];
    assert!(rt; has_rows(rt.alloc(), &other, one, &[END, END]));
    let long = [binds(0, NUMBER, fixed(128))];
    assert!(rt; has_rows(rt.alloc(), &long, (ONES, 128), PAST));
    let generator = Generator {
        pattern: &[binds(0, NUMBER, given(0))],
        sizes: BY_OPPOSITE,
        before: LEAST,
        bits: (&[], 0),
    };
    assert!(rt; gives(rt.alloc(), &generator, LIMIT_AT_END));
    Ok(())
}
