use crate::given::{Given, Want, is_wanted, names, terms};
use bit_store::{PlainStore, StoreLook};
use bits_value::Steps;
use erl_syntax::BuiltIn;
use expr_eval::{Caller, built_in};
use std::alloc::Global;
use std::test::Fail;

/// A call and what it is to answer.
type Row = (BuiltIn, &'static [Given], Want);

fn answers(alloc: Global, row: &Row) -> bool {
    let mut store = PlainStore::new(alloc);
    let Some(args) = terms(alloc, &mut store, row.1) else {
        return false;
    };
    let Some(names) = names(alloc) else {
        return false;
    };
    let caller = Caller {
        alloc,
        names: &names,
        pid: 1,
    };
    let answer = built_in(&caller, &mut store, row.0, &args, &mut Steps::new());
    let look = StoreLook {
        store: &store,
        names: &names,
    };
    is_wanted(alloc, &look, answer, row.2)
}

const BAD_ARGUMENT: Want = Want::Raises(b"badarg");

/// The atoms `true`, `ok` and `normal`.
const TRUE: Given = Given::Atom(11);

const OK: Given = Given::Atom(13);

const NORMAL: Given = Given::Atom(14);

const EMPTY: Given = Given::List(&[]);

/// As Erlang/OTP 25 answers, where no other source is named.
const BYTES: &[Row] = &[
    (
        BuiltIn::BinaryToList,
        &[Given::Binary(&[1, 255, 0])],
        Want::Gives(b"[1,255,0]"),
    ),
    (
        BuiltIn::BinaryToList,
        &[Given::Binary(b"")],
        Want::Gives(b"[]"),
    ),
    (BuiltIn::BinaryToList, &[Given::Bits(1)], BAD_ARGUMENT),
    (BuiltIn::BinaryToList, &[OK], BAD_ARGUMENT),
    (BuiltIn::BinaryToList, &[Given::List(&[1])], BAD_ARGUMENT),
    (
        BuiltIn::ListToBinary,
        &[Given::List(&[1, 2, 255])],
        Want::Gives(b"<<1,2,255>>"),
    ),
    (
        BuiltIn::ListToBinary,
        &[Given::Nested(&[1, 2], &[3, 4])],
        Want::Gives(b"<<1,2,3,4>>"),
    ),
    (BuiltIn::ListToBinary, &[EMPTY], Want::Gives(b"<<>>")),
    (BuiltIn::ListToBinary, &[Given::List(&[256])], BAD_ARGUMENT),
    (BuiltIn::ListToBinary, &[Given::List(&[-1])], BAD_ARGUMENT),
    (
        BuiltIn::ListToBinary,
        &[Given::Nested(&[256], &[3])],
        BAD_ARGUMENT,
    ),
    (BuiltIn::ListToBinary, &[Given::Binary(&[1])], BAD_ARGUMENT),
    (BuiltIn::ListToBinary, &[Given::Tuple(&[1])], BAD_ARGUMENT),
    (BuiltIn::ListToBinary, &[Given::Number(1)], BAD_ARGUMENT),
];

#[test]
fn bytes_are_listed_and_joined(rt: HostRuntime) -> Result<(), Fail> {
    for row in BYTES {
        assert!(rt; answers(rt.alloc(), row));
    }
    Ok(())
}

/// As Erlang/OTP 25 answers; that an integer has 128 bits at most is this language's own.
const DECIMALS: &[Row] = &[
    (
        BuiltIn::BinaryToInteger,
        &[Given::Binary(b"42")],
        Want::Gives(b"42"),
    ),
    (
        BuiltIn::BinaryToInteger,
        &[Given::Binary(b"-042")],
        Want::Gives(b"-42"),
    ),
    (
        BuiltIn::BinaryToInteger,
        &[Given::Binary(b"+7")],
        Want::Gives(b"7"),
    ),
    (
        BuiltIn::BinaryToInteger,
        &[Given::Binary(b"-0")],
        Want::Gives(b"0"),
    ),
    (
        BuiltIn::BinaryToInteger,
        &[Given::Binary(b"")],
        BAD_ARGUMENT,
    ),
    (
        BuiltIn::BinaryToInteger,
        &[Given::Binary(b"-")],
        BAD_ARGUMENT,
    ),
    (
        BuiltIn::BinaryToInteger,
        &[Given::Binary(b"1_0")],
        BAD_ARGUMENT,
    ),
    (
        BuiltIn::BinaryToInteger,
        &[Given::Binary(b" 1")],
        BAD_ARGUMENT,
    ),
    (
        BuiltIn::BinaryToInteger,
        &[Given::Binary(b"--1")],
        BAD_ARGUMENT,
    ),
    (BuiltIn::BinaryToInteger, &[Given::Bits(1)], BAD_ARGUMENT),
    (BuiltIn::BinaryToInteger, &[Given::Number(1)], BAD_ARGUMENT),
    (
        BuiltIn::BinaryToInteger,
        &[Given::Binary(b"170141183460469231731687303715884105727")],
        Want::Gives(b"170141183460469231731687303715884105727"),
    ),
    (
        BuiltIn::BinaryToInteger,
        &[Given::Binary(b"170141183460469231731687303715884105728")],
        Want::Limit,
    ),
    (
        BuiltIn::BinaryToInteger,
        &[Given::Binary(b"-170141183460469231731687303715884105728")],
        Want::Gives(b"-170141183460469231731687303715884105728"),
    ),
    (
        BuiltIn::BinaryToInteger,
        &[Given::Binary(b"-170141183460469231731687303715884105729")],
        Want::Limit,
    ),
    (
        BuiltIn::IntegerToBinary,
        &[Given::Number(-120)],
        Want::Gives(b"<<45,49,50,48>>"),
    ),
    (
        BuiltIn::IntegerToBinary,
        &[Given::Number(0)],
        Want::Gives(b"<<48>>"),
    ),
    (
        BuiltIn::IntegerToBinary,
        &[Given::Number(i128::MIN)],
        Want::Gives(
            b"<<45,49,55,48,49,52,49,49,56,51,52,54,48,52,54,57,50,51,49,55,51,49,54,56,55,51,48,51,55,49,53,56,56,52,49,48,53,55,50,56>>",
        ),
    ),
    (BuiltIn::IntegerToBinary, &[OK], BAD_ARGUMENT),
    (
        BuiltIn::IntegerToBinary,
        &[Given::Binary(b"1")],
        BAD_ARGUMENT,
    ),
];

#[test]
fn integers_have_decimal_text(rt: HostRuntime) -> Result<(), Fail> {
    for row in DECIMALS {
        assert!(rt; answers(rt.alloc(), row));
    }
    Ok(())
}

const ITEMS: &[Row] = &[
    (
        BuiltIn::TupleToList,
        &[Given::Tuple(&[1, 2])],
        Want::Gives(b"[1,2]"),
    ),
    (BuiltIn::TupleToList, &[EMPTY], BAD_ARGUMENT),
    (
        BuiltIn::ListToTuple,
        &[Given::List(&[1, 2])],
        Want::Gives(b"{1,2}"),
    ),
    (BuiltIn::ListToTuple, &[Given::Tuple(&[])], BAD_ARGUMENT),
    (
        BuiltIn::Reverse,
        &[Given::List(&[1, 2, 3])],
        Want::Gives(b"[3,2,1]"),
    ),
    (BuiltIn::Reverse, &[EMPTY], Want::Gives(b"[]")),
    (
        BuiltIn::Reverse,
        &[Given::Tuple(&[1])],
        Want::Raises(b"function_clause"),
    ),
    (BuiltIn::Reverse, &[OK], Want::Raises(b"function_clause")),
    (
        BuiltIn::Exit,
        &[Given::Tuple(&[1, 2])],
        Want::Raises(b"{1,2}"),
    ),
    (BuiltIn::Exit, &[NORMAL], Want::Raises(b"normal")),
    (BuiltIn::Error, &[OK], Want::Raises(b"ok")),
    (BuiltIn::SelfPid, &[], Want::Gives(b"<0.1.0>")),
    (
        BuiltIn::SplitBinary,
        &[Given::Binary(&[1, 2, 3]), Given::Number(0)],
        Want::Gives(b"{<<>>,<<1,2,3>>}"),
    ),
    (
        BuiltIn::SplitBinary,
        &[Given::Binary(&[1, 2, 3]), Given::Number(2)],
        Want::Gives(b"{<<1,2>>,<<3>>}"),
    ),
    (
        BuiltIn::SplitBinary,
        &[Given::Binary(&[1, 2, 3]), Given::Number(3)],
        Want::Gives(b"{<<1,2,3>>,<<>>}"),
    ),
    (
        BuiltIn::SplitBinary,
        &[Given::Binary(&[1, 2, 3]), Given::Number(4)],
        BAD_ARGUMENT,
    ),
    (
        BuiltIn::SplitBinary,
        &[Given::Binary(&[1, 2, 3]), Given::Number(-1)],
        BAD_ARGUMENT,
    ),
    (
        BuiltIn::SplitBinary,
        &[Given::Binary(&[1, 2, 3]), Given::Number(i128::MAX)],
        BAD_ARGUMENT,
    ),
    (
        BuiltIn::SplitBinary,
        &[Given::Binary(&[1, 2, 3]), OK],
        BAD_ARGUMENT,
    ),
    (
        BuiltIn::SplitBinary,
        &[Given::List(&[1]), Given::Number(0)],
        BAD_ARGUMENT,
    ),
];

#[test]
fn items_are_moved_and_binaries_split(rt: HostRuntime) -> Result<(), Fail> {
    for row in ITEMS {
        assert!(rt; answers(rt.alloc(), row));
    }
    Ok(())
}

/// As Erlang/OTP 25 answers; that the absolute value may be past the bound is this language's own.
const MEASURES: &[Row] = &[
    (BuiltIn::BitSize, &[Given::Bits(1)], Want::Gives(b"3")),
    (
        BuiltIn::BitSize,
        &[Given::Binary(&[1, 2])],
        Want::Gives(b"16"),
    ),
    (BuiltIn::BitSize, &[EMPTY], BAD_ARGUMENT),
    (BuiltIn::ByteSize, &[Given::Bits(1)], Want::Gives(b"1")),
    (BuiltIn::ByteSize, &[Given::Binary(b"")], Want::Gives(b"0")),
    (BuiltIn::ByteSize, &[Given::Number(1)], BAD_ARGUMENT),
    (
        BuiltIn::TupleSize,
        &[Given::Tuple(&[1, 2])],
        Want::Gives(b"2"),
    ),
    (BuiltIn::TupleSize, &[Given::Tuple(&[])], Want::Gives(b"0")),
    (BuiltIn::TupleSize, &[EMPTY], BAD_ARGUMENT),
    (BuiltIn::Length, &[Given::List(&[1, 2])], Want::Gives(b"2")),
    (BuiltIn::Length, &[EMPTY], Want::Gives(b"0")),
    (BuiltIn::Length, &[Given::Tuple(&[1])], BAD_ARGUMENT),
    (BuiltIn::Hd, &[Given::List(&[1, 2])], Want::Gives(b"1")),
    (BuiltIn::Hd, &[EMPTY], BAD_ARGUMENT),
    (BuiltIn::Hd, &[OK], BAD_ARGUMENT),
    (BuiltIn::Tl, &[Given::List(&[1, 2])], Want::Gives(b"[2]")),
    (BuiltIn::Tl, &[Given::List(&[1])], Want::Gives(b"[]")),
    (BuiltIn::Tl, &[EMPTY], BAD_ARGUMENT),
    (BuiltIn::Abs, &[Given::Number(-5)], Want::Gives(b"5")),
    (BuiltIn::Abs, &[Given::Number(5)], Want::Gives(b"5")),
    (BuiltIn::Abs, &[Given::Number(i128::MIN)], Want::Limit),
    (BuiltIn::Abs, &[OK], BAD_ARGUMENT),
];

#[test]
fn values_are_measured(rt: HostRuntime) -> Result<(), Fail> {
    for row in MEASURES {
        assert!(rt; answers(rt.alloc(), row));
    }
    Ok(())
}

const PARTS: &[Row] = &[
    (
        BuiltIn::Element,
        &[Given::Number(1), Given::Tuple(&[7, 8])],
        Want::Gives(b"7"),
    ),
    (
        BuiltIn::Element,
        &[Given::Number(2), Given::Tuple(&[7, 8])],
        Want::Gives(b"8"),
    ),
    (
        BuiltIn::Element,
        &[Given::Number(0), Given::Tuple(&[7, 8])],
        BAD_ARGUMENT,
    ),
    (
        BuiltIn::Element,
        &[Given::Number(3), Given::Tuple(&[7, 8])],
        BAD_ARGUMENT,
    ),
    (BuiltIn::Element, &[OK, Given::Tuple(&[7, 8])], BAD_ARGUMENT),
    (
        BuiltIn::Element,
        &[Given::Number(1), Given::List(&[7, 8])],
        BAD_ARGUMENT,
    ),
    (
        BuiltIn::BinaryPart,
        &[
            Given::Binary(&[1, 2, 3]),
            Given::Number(0),
            Given::Number(3),
        ],
        Want::Gives(b"<<1,2,3>>"),
    ),
    (
        BuiltIn::BinaryPart,
        &[
            Given::Binary(&[1, 2, 3]),
            Given::Number(3),
            Given::Number(-2),
        ],
        Want::Gives(b"<<2,3>>"),
    ),
    (
        BuiltIn::BinaryPart,
        &[
            Given::Binary(&[1, 2, 3]),
            Given::Number(3),
            Given::Number(0),
        ],
        Want::Gives(b"<<>>"),
    ),
    (
        BuiltIn::BinaryPart,
        &[
            Given::Binary(&[1, 2, 3]),
            Given::Number(0),
            Given::Number(4),
        ],
        BAD_ARGUMENT,
    ),
    (
        BuiltIn::BinaryPart,
        &[
            Given::Binary(&[1, 2, 3]),
            Given::Number(1),
            Given::Number(-2),
        ],
        BAD_ARGUMENT,
    ),
    (
        BuiltIn::BinaryPart,
        &[
            Given::Binary(&[1, 2, 3]),
            Given::Number(-1),
            Given::Number(1),
        ],
        BAD_ARGUMENT,
    ),
    (
        BuiltIn::BinaryPart,
        &[Given::List(&[1, 2, 3]), Given::Number(0), Given::Number(1)],
        BAD_ARGUMENT,
    ),
    (
        BuiltIn::BinaryPart,
        &[Given::Binary(&[1, 2, 3]), OK, Given::Number(1)],
        BAD_ARGUMENT,
    ),
    (
        BuiltIn::BinaryPartOf,
        &[Given::Binary(&[1, 2, 3]), Given::Tuple(&[1, 2])],
        Want::Gives(b"<<2,3>>"),
    ),
    (
        BuiltIn::BinaryPartOf,
        &[Given::Binary(&[1, 2, 3]), Given::Tuple(&[1, 3])],
        BAD_ARGUMENT,
    ),
    (
        BuiltIn::BinaryPartOf,
        &[Given::Binary(&[1, 2, 3]), Given::Tuple(&[1])],
        BAD_ARGUMENT,
    ),
    (
        BuiltIn::BinaryPartOf,
        &[Given::Binary(&[1, 2, 3]), EMPTY],
        BAD_ARGUMENT,
    ),
    (BuiltIn::Max, &[Given::Number(1), OK], Want::Gives(b"ok")),
    (BuiltIn::Max, &[OK, NORMAL], Want::Gives(b"ok")),
    (BuiltIn::Min, &[Given::Number(1), OK], Want::Gives(b"1")),
    (
        BuiltIn::Min,
        &[Given::Tuple(&[1]), EMPTY],
        Want::Gives(b"{1}"),
    ),
];

#[test]
fn parts_are_taken(rt: HostRuntime) -> Result<(), Fail> {
    for row in PARTS {
        assert!(rt; answers(rt.alloc(), row));
    }
    Ok(())
}

const YES: Want = Want::Gives(b"true");

const NO: Want = Want::Gives(b"false");

const KINDS: &[Row] = &[
    (BuiltIn::IsInteger, &[Given::Number(1)], YES),
    (BuiltIn::IsInteger, &[OK], NO),
    (BuiltIn::IsNumber, &[Given::Number(1)], YES),
    (BuiltIn::IsNumber, &[Given::Binary(b"1")], NO),
    (BuiltIn::IsAtom, &[OK], YES),
    (BuiltIn::IsAtom, &[Given::Number(1)], NO),
    (BuiltIn::IsBoolean, &[TRUE], YES),
    (BuiltIn::IsBoolean, &[OK], NO),
    (BuiltIn::IsPid, &[Given::Pid(1)], YES),
    (BuiltIn::IsPid, &[Given::Number(1)], NO),
    (BuiltIn::IsTuple, &[Given::Tuple(&[])], YES),
    (BuiltIn::IsTuple, &[EMPTY], NO),
    (BuiltIn::IsList, &[EMPTY], YES),
    (BuiltIn::IsList, &[Given::Tuple(&[])], NO),
    (BuiltIn::IsBinary, &[Given::Binary(b"")], YES),
    (BuiltIn::IsBinary, &[Given::Bits(1)], NO),
    (BuiltIn::IsBinary, &[EMPTY], NO),
    (BuiltIn::IsBitstring, &[Given::Bits(1)], YES),
    (BuiltIn::IsBitstring, &[Given::Binary(b"a")], YES),
    (BuiltIn::IsBitstring, &[OK], NO),
];

#[test]
fn kinds_are_told_apart(rt: HostRuntime) -> Result<(), Fail> {
    for row in KINDS {
        assert!(rt; answers(rt.alloc(), row));
    }
    Ok(())
}

/// A wrong number of arguments is this language's own: `badarg`.
const COUNTS: &[Row] = &[
    (BuiltIn::IsAtom, &[], BAD_ARGUMENT),
    (BuiltIn::IsAtom, &[OK, OK], BAD_ARGUMENT),
    (BuiltIn::BitSize, &[], BAD_ARGUMENT),
    (
        BuiltIn::ByteSize,
        &[Given::Binary(b"a"), Given::Binary(b"b")],
        BAD_ARGUMENT,
    ),
    (BuiltIn::TupleSize, &[], BAD_ARGUMENT),
    (BuiltIn::Length, &[EMPTY, EMPTY], BAD_ARGUMENT),
    (BuiltIn::Hd, &[], BAD_ARGUMENT),
    (BuiltIn::Abs, &[], BAD_ARGUMENT),
    (BuiltIn::Element, &[Given::Number(1)], BAD_ARGUMENT),
    (BuiltIn::Max, &[Given::Number(1)], BAD_ARGUMENT),
    (
        BuiltIn::Min,
        &[Given::Number(1), Given::Number(2), Given::Number(3)],
        BAD_ARGUMENT,
    ),
    (BuiltIn::SelfPid, &[OK], BAD_ARGUMENT),
    (
        BuiltIn::BinaryPart,
        &[Given::Binary(b"abc"), Given::Tuple(&[0, 1])],
        BAD_ARGUMENT,
    ),
    (
        BuiltIn::BinaryPartOf,
        &[Given::Binary(b"abc"), Given::Number(0), Given::Number(1)],
        BAD_ARGUMENT,
    ),
    (BuiltIn::Exit, &[], BAD_ARGUMENT),
    (BuiltIn::Error, &[OK, EMPTY], BAD_ARGUMENT),
    (BuiltIn::SplitBinary, &[Given::Binary(b"abc")], BAD_ARGUMENT),
    (BuiltIn::BinaryToList, &[], BAD_ARGUMENT),
    (BuiltIn::ListToBinary, &[EMPTY, EMPTY], BAD_ARGUMENT),
    (
        BuiltIn::IntegerToBinary,
        &[Given::Number(10), Given::Number(2)],
        BAD_ARGUMENT,
    ),
    (BuiltIn::BinaryToInteger, &[], BAD_ARGUMENT),
    (BuiltIn::TupleToList, &[], BAD_ARGUMENT),
    (BuiltIn::ListToTuple, &[], BAD_ARGUMENT),
    (BuiltIn::Reverse, &[EMPTY, EMPTY], BAD_ARGUMENT),
];

#[test]
fn arguments_are_counted(rt: HostRuntime) -> Result<(), Fail> {
    for row in COUNTS {
        assert!(rt; answers(rt.alloc(), row));
    }
    Ok(())
}

/// `display` and `spawn` act, and have no value here: `badarg`, whatever they are given. This language's own.
const ACTS: &[Row] = &[
    (BuiltIn::Display, &[Given::Number(1)], BAD_ARGUMENT),
    (BuiltIn::Display, &[OK], BAD_ARGUMENT),
    (BuiltIn::Display, &[Given::Pid(1)], BAD_ARGUMENT),
    (BuiltIn::Display, &[Given::Tuple(&[1])], BAD_ARGUMENT),
    (BuiltIn::Display, &[EMPTY], BAD_ARGUMENT),
    (BuiltIn::Display, &[Given::Binary(b"a")], BAD_ARGUMENT),
    (BuiltIn::Display, &[Given::Bits(1)], BAD_ARGUMENT),
    (BuiltIn::Display, &[], BAD_ARGUMENT),
    (BuiltIn::Display, &[OK, OK], BAD_ARGUMENT),
    (BuiltIn::Spawn, &[OK, OK, EMPTY], BAD_ARGUMENT),
    (BuiltIn::Spawn, &[Given::Number(1), OK, EMPTY], BAD_ARGUMENT),
    (
        BuiltIn::Spawn,
        &[OK, Given::Binary(b"a"), EMPTY],
        BAD_ARGUMENT,
    ),
    (BuiltIn::Spawn, &[OK, OK, OK], BAD_ARGUMENT),
    (BuiltIn::Spawn, &[OK, OK], BAD_ARGUMENT),
    (BuiltIn::Spawn, &[OK], BAD_ARGUMENT),
    (BuiltIn::Spawn, &[], BAD_ARGUMENT),
];

#[test]
fn acts_have_no_value(rt: HostRuntime) -> Result<(), Fail> {
    for row in ACTS {
        assert!(rt; answers(rt.alloc(), row));
    }
    Ok(())
}
