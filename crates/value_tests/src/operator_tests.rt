use crate::given::{Given, Want, is_wanted, names, term};
use bit_store::{PlainStore, StoreLook};
use erl_syntax::{Op, Prefix};
use expr_eval::{binary_op, prefix_op};
use std::alloc::Global;
use std::test::Fail;

/// An operator between two values, and what it is to answer.
type Row = (Op, Given, Given, Want);

#[tactic(auto, using(crate::proofs::KnownRows::plain_answer))]
fn answers(alloc: Global, row: &Row) -> bool {
    let mut store = PlainStore::new(alloc);
    let Some(left) = term(alloc, &mut store, row.1) else {
        return false;
    };
    let Some(right) = term(alloc, &mut store, row.2) else {
        return false;
    };
    let Some(names) = names(alloc) else {
        return false;
    };
    let look = StoreLook {
        store: &store,
        names: &names,
    };
    let answer = binary_op(&look, row.0, &left, &right);
    is_wanted(alloc, &look, answer, row.3)
}

const BAD_ARITHMETIC: Want = Want::Raises(b"badarith");

/// Operators on integers, as Erlang/OTP 25 answers; that an integer has 128 bits at most is this language's own.
const INTEGERS: &[(Op, i128, i128, Want)] = &[
    (Op::Rem, 7, -3, Want::Gives(b"1")),
    (Op::Rem, -7, 3, Want::Gives(b"-1")),
    (Op::Div, -7, 2, Want::Gives(b"-3")),
    (Op::Div, 7, -2, Want::Gives(b"-3")),
    (Op::Div, 1, 0, BAD_ARITHMETIC),
    (Op::Rem, 1, 0, BAD_ARITHMETIC),
    (Op::Rem, i128::MIN, -1, Want::Gives(b"0")),
    (Op::Div, i128::MIN, -1, Want::Limit),
    (Op::Band, -6, 3, Want::Gives(b"2")),
    (Op::Bor, -6, 3, Want::Gives(b"-5")),
    (Op::Bxor, -6, 3, Want::Gives(b"-7")),
    (Op::Bsr, -1, 200, Want::Gives(b"-1")),
    (
        Op::Bsl,
        1,
        126,
        Want::Gives(b"85070591730234615865843651857942052864"),
    ),
    (Op::Bsl, 1, 127, Want::Limit),
    (
        Op::Bsl,
        -1,
        127,
        Want::Gives(b"-170141183460469231731687303715884105728"),
    ),
    (Op::Bsl, 5, -1, Want::Gives(b"2")),
    (Op::Bsr, 5, -1, Want::Gives(b"10")),
    (Op::Add, i128::MAX, 1, Want::Limit),
    (
        Op::Add,
        i128::MAX,
        -1,
        Want::Gives(b"170141183460469231731687303715884105726"),
    ),
    (Op::Sub, i128::MIN, 1, Want::Limit),
    (Op::Mul, i128::MAX, 2, Want::Limit),
    (
        Op::Mul,
        i128::MIN,
        1,
        Want::Gives(b"-170141183460469231731687303715884105728"),
    ),
];

#[test]
fn integers_are_computed(rt: HostRuntime) -> Result<(), Fail> {
    for (op, left, right, want) in INTEGERS {
        let row = (*op, Given::Number(*left), Given::Number(*right), *want);
        assert!(rt; answers(rt.alloc(), &row));
    }
    Ok(())
}

/// Values that are no integer, one of each kind.
const OTHERS: [Given; 6] = [
    Given::Atom(13),
    Given::Pid(1),
    Given::Tuple(&[1]),
    Given::List(&[1]),
    Given::Binary(&[1]),
    Given::Bits(1),
];

const ARITHMETIC: [Op; 10] = [
    Op::Mul,
    Op::Div,
    Op::Rem,
    Op::Band,
    Op::Add,
    Op::Sub,
    Op::Bor,
    Op::Bxor,
    Op::Bsl,
    Op::Bsr,
];

/// Whether the operator raises `badarith` with this value on either side.
fn is_refused(alloc: Global, op: Op, other: Given) -> bool {
    answers(alloc, &(op, other, Given::Number(1), BAD_ARITHMETIC))
        && answers(alloc, &(op, Given::Number(1), other, BAD_ARITHMETIC))
}

#[test]
fn integers_alone_are_computed(rt: HostRuntime) -> Result<(), Fail> {
    for op in ARITHMETIC {
        for other in OTHERS {
            assert!(rt; is_refused(rt.alloc(), op, other));
        }
    }
    Ok(())
}

const YES: Want = Want::Gives(b"true");

const NO: Want = Want::Gives(b"false");

/// As Erlang/OTP 25 answers, in the Erlang Reference Manual's order: number < atom < pid < tuple < list < bitstring.
const COMPARISONS: &[Row] = &[
    (Op::Lt, Given::Number(i128::MAX), Given::Atom(13), YES),
    (Op::Lt, Given::Atom(13), Given::Pid(1), YES),
    (Op::Lt, Given::Pid(1), Given::Tuple(&[]), YES),
    (Op::Lt, Given::Tuple(&[]), Given::List(&[]), YES),
    (Op::Lt, Given::List(&[1]), Given::Binary(b""), YES),
    (Op::Gt, Given::Bits(0), Given::Number(1), YES),
    (Op::Lt, Given::Tuple(&[1]), Given::Tuple(&[0, 0]), YES),
    (Op::Lt, Given::List(&[1]), Given::List(&[1, 0]), YES),
    (Op::Gt, Given::List(&[2]), Given::List(&[1, 0]), YES),
    (Op::Lt, Given::Binary(&[1]), Given::Binary(&[1, 0]), YES),
    (Op::Lt, Given::Atom(14), Given::Atom(13), YES),
    (Op::Ge, Given::Number(2), Given::Number(2), YES),
    (Op::Ge, Given::Number(1), Given::Number(2), NO),
    (Op::Le, Given::Number(2), Given::Number(2), YES),
    (Op::Le, Given::Tuple(&[1]), Given::Number(2), NO),
    (Op::Eq, Given::Binary(&[1]), Given::Binary(&[1]), YES),
    (Op::Eq, Given::Binary(&[1]), Given::List(&[1]), NO),
    (Op::Ne, Given::List(&[1]), Given::Tuple(&[1]), YES),
    (Op::Same, Given::Tuple(&[1, 2]), Given::Tuple(&[1, 2]), YES),
    (Op::Same, Given::Bits(5), Given::Bits(4), NO),
    (Op::NotSame, Given::Atom(13), Given::Atom(13), NO),
    (Op::NotSame, Given::Pid(1), Given::Pid(2), YES),
];

#[test]
fn values_are_compared_across_kinds(rt: HostRuntime) -> Result<(), Fail> {
    for row in COMPARISONS {
        assert!(rt; answers(rt.alloc(), row));
    }
    Ok(())
}

#[tactic(auto, using(crate::proofs::KnownRows::plain_answer))]
fn prefixed(alloc: Global, op: Prefix, given: Given, want: Want) -> bool {
    let mut store = PlainStore::new(alloc);
    let Some(value) = term(alloc, &mut store, given) else {
        return false;
    };
    let Some(names) = names(alloc) else {
        return false;
    };
    let look = StoreLook {
        store: &store,
        names: &names,
    };
    is_wanted(alloc, &look, prefix_op(op, &value), want)
}

/// As Erlang/OTP 25 answers; that the least integer has no opposite is this language's own.
const PREFIXES: &[(Prefix, Given, Want)] = &[
    (Prefix::Plus, Given::Number(-5), Want::Gives(b"-5")),
    (Prefix::Plus, Given::Atom(13), BAD_ARITHMETIC),
    (Prefix::Minus, Given::Number(5), Want::Gives(b"-5")),
    (Prefix::Minus, Given::Number(i128::MIN), Want::Limit),
    (Prefix::Minus, Given::List(&[1]), BAD_ARITHMETIC),
    (Prefix::Bnot, Given::Number(5), Want::Gives(b"-6")),
    (Prefix::Bnot, Given::Number(-1), Want::Gives(b"0")),
    (
        Prefix::Bnot,
        Given::Number(i128::MAX),
        Want::Gives(b"-170141183460469231731687303715884105728"),
    ),
    (Prefix::Bnot, Given::Binary(&[1]), BAD_ARITHMETIC),
    (Prefix::Not, Given::Atom(11), NO),
    (Prefix::Not, Given::Atom(12), YES),
    (Prefix::Not, Given::Atom(13), Want::Raises(b"badarg")),
    (Prefix::Not, Given::Number(1), Want::Raises(b"badarg")),
];

#[test]
fn operators_stand_before_a_value(rt: HostRuntime) -> Result<(), Fail> {
    for (op, given, want) in PREFIXES {
        assert!(rt; prefixed(rt.alloc(), *op, *given, *want));
    }
    Ok(())
}
