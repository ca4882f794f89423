ghost use Rattle.std.specs.Prelude.{◌≤◌, length};
ghost use Rattle.bits_value.specs.declared.TheConstants.{MAX_BITS};
ghost use Rattle.bit_store.specs.Stores.{AnyAtom};
ghost use Rattle.expr_eval.specs.Answers.{HasAnswer};
ghost use Rattle.term_value.specs.Seen.{AreKnown};
ghost use Rattle.term_value.specs.Terms.{row};

use crate::given::{Given, Want, is_wanted, names, terms};
use bit_store::{PlainStore, StoreLook, Window};
use bits_value::{MAX_BITS, Steps};
use erl_syntax::BuiltIn;
use expr_eval::{Answer, Caller, built_in};
use std::alloc::Global;
use std::test::Fail;
use term_value::Term;

/// A call, a second one of what it gives, and what comes of it in the end.
type Row = (BuiltIn, &'static [Given], Option<BuiltIn>, Want);

/// The most items that a list or a tuple may have.
const ITEMS: u32 = 1_048_576;

/// The deepest that a value may be.
const DEPTH: u32 = 256;

fn answers(alloc: Global, row: &Row) -> bool {
    let mut store = PlainStore::new(alloc);
    let Some(args) = terms(alloc, &mut store, row.1) else {
        return false;
    };
    let Some(names) = names(alloc) else {
        return false;
    };
    let caller = Caller {
        alloc,
        names: &names,
        pid: 1,
    };
    let answer = in_turn(&caller, &mut store, row, &args);
    let look = StoreLook {
        store: &store,
        names: &names,
    };
    is_wanted(alloc, &look, answer, row.3)
}

fn in_turn(
    caller: &Caller<'_>,
    store: &mut PlainStore,
    calls: &Row,
    args: &[Term<Window>],
) -> Answer<Window>
    requires { AreKnown (λ of. length of ≤ MAX_BITS) AnyAtom (row args.now) }
    ensures { HasAnswer (λ of. length of ≤ MAX_BITS) result }
{
    let answer = built_in(caller, store, calls.0, args, &mut Steps::new());
    match (answer, calls.2) {
        (Ok(term), Some(second)) => {
            let args = [term];
            built_in(caller, store, second, &args, &mut Steps::new())
        }
        (answer, _) => answer,
    }
}

/// As Erlang/OTP 25 answers; the bounds are this language's own.
const LONGEST: &[Row] = &[
    (
        BuiltIn::ByteSize,
        &[Given::Zeros(MAX_BITS)],
        None,
        Want::Gives(b"16777216"),
    ),
    (
        BuiltIn::ListToBinary,
        &[Given::ZerosTwice(MAX_BITS - 8, 16)],
        None,
        Want::Limit,
    ),
];

#[test]
fn the_longest_bitstrings_are_taken(rt: HostRuntime) -> Result<(), Fail> {
    for row in LONGEST {
        assert!(rt; answers(rt.alloc(), row));
    }
    Ok(())
}

/// As Erlang/OTP 25 answers; the bounds are this language's own.
const MANY: &[Row] = &[
    (
        BuiltIn::BinaryToList,
        &[Given::Zeros(8 * ITEMS)],
        Some(BuiltIn::Length),
        Want::Gives(b"1048576"),
    ),
    (
        BuiltIn::BinaryToList,
        &[Given::Zeros(8 * ITEMS + 8)],
        None,
        Want::Limit,
    ),
    (
        BuiltIn::ListToTuple,
        &[Given::Long(ITEMS)],
        Some(BuiltIn::TupleSize),
        Want::Gives(b"1048576"),
    ),
];

#[test]
fn the_most_items_are_taken(rt: HostRuntime) -> Result<(), Fail> {
    for row in MANY {
        assert!(rt; answers(rt.alloc(), row));
    }
    Ok(())
}

/// As Erlang/OTP 25 answers.
const DEEPEST: &[Row] = &[
    (
        BuiltIn::Length,
        &[Given::Deep(DEPTH)],
        None,
        Want::Gives(b"1"),
    ),
    (
        BuiltIn::Hd,
        &[Given::Deep(DEPTH)],
        Some(BuiltIn::Length),
        Want::Gives(b"1"),
    ),
    (
        BuiltIn::ListToTuple,
        &[Given::Deep(DEPTH)],
        Some(BuiltIn::TupleSize),
        Want::Gives(b"1"),
    ),
    (
        BuiltIn::Reverse,
        &[Given::Deep(DEPTH)],
        Some(BuiltIn::Length),
        Want::Gives(b"1"),
    ),
    (
        BuiltIn::ListToBinary,
        &[Given::Deep(DEPTH)],
        None,
        Want::Gives(b"<<>>"),
    ),
];

#[test]
fn the_deepest_values_are_taken(rt: HostRuntime) -> Result<(), Fail> {
    for row in DEEPEST {
        assert!(rt; answers(rt.alloc(), row));
    }
    Ok(())
}
