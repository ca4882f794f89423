//! Operators on values. They take no memory.

ghost use Rattle.std.specs.Prelude.{◌≡◌, Bool, List, IsTrue, neg_ℤ};
ghost use Rattle.bits_value.specs.Number.{bounded};
ghost use Rattle.term_value.specs.Arithmetic.{arithmetic, is_arithmetic as computes, value_or_limit, no_bits};
ghost use Rattle.term_value.specs.Operators.{operate, prefixed, computed, arithmetic_result, integer_or_badarith, negated_truth};
ghost use Rattle.term_value.specs.Primitives.{bounded_result};
ghost use Rattle.term_value.specs.Result.{truth_of};
ghost use Rattle.term_value.specs.Value.{VInt};
ghost use Rattle.term_value.specs.Terms.{value_of, IsOver};
ghost use Rattle.expr_eval.specs.Answers.{IsComputed, IsPlain};
ghost use Rattle.expr_eval.specs.Truths.{truth_number, is_comparison as compares, holds_in, exact_of};

use crate::reason::{Answer, EvalFault, Reason};
use erl_syntax::{Op, Prefix};
use std::cmp::Ordering;
use term_value::{Arith, Look, Term, arith, compare};

/// The number of the atom `true` in each table of atoms.
const TRUE: u32 = 11;

/// The number of the atom `false` in each table of atoms.
const FALSE: u32 = 12;

/// The value of an operator on two values (Erlang Reference Manual, "Expressions": Term Comparisons, Arithmetic Expressions).
///
/// Raises `badarith` for an arithmetic operator on values that aren't both integers, for `div` and `rem` by 0, and for an operator that is
/// neither arithmetic nor a comparison. Takes no memory.
pub fn binary_op<R, K: Look<R>>(look: &K, op: Op, left: &Term<R>, right: &Term<R>) -> Answer<R>
    requires left { IsOver (K.has look.now) (K.knows look.now) left.now }
    requires right { IsOver (K.has look.now) (K.knows look.now) right.now }
    ensures is { IsComputed (K.shown look.now) result (bounded_result (operate (K.named look.now) op (value_of (K.shown look.now) left.now) (value_of (K.shown look.now) right.now))) }
    ensures plain { IsPlain result }
{
    if is_comparison(op) {
        Ok(truth_term(holds(op, compare(look, left, right))))
    } else {
        compute(op, left, right)
    }
}

/// The value of an operator before a value (Erlang Reference Manual, "Expressions": Arithmetic Expressions, Boolean Expressions).
///
/// Raises `badarith` for `+`, `-` and `bnot` of no integer, and `badarg` for `not` of neither `true` nor `false`. Takes no memory.
pub fn prefix_op<R>(op: Prefix, value: &Term<R>) -> Answer<R>
    ensures is { (shown : R → List Bool) → IsComputed shown result (bounded_result (prefixed op (value_of shown value.now))) }
    ensures plain { IsPlain result }
{
    match op {
        Prefix::Not => negate(value),
        Prefix::Plus => signed(op, value),
        Prefix::Minus => signed(op, value),
        Prefix::Bnot => signed(op, value),
    }
}

fn negate<R>(value: &Term<R>) -> Answer<R>
    ensures is { (shown : R → List Bool) → IsComputed shown result (bounded_result (negated_truth (truth_of (value_of shown value.now)))) }
    ensures plain { IsPlain result }
{
    match truth(value) {
        Some(holds) => Ok(truth_term(!holds)),
        None => Err(EvalFault::Raised(Reason::BadArg)),
    }
}

// An operator on an integer.
fn signed<R>(op: Prefix, value: &Term<R>) -> Answer<R>
    ensures is { (shown : R → List Bool) → IsComputed shown result (bounded_result (integer_or_badarith (exact_of op) (value_of shown value.now))) }
    ensures plain { IsPlain result }
{
    match value {
        Term::Int(number) => number_term(prefixed_number(op, *number)),
        _ => Err(EvalFault::Raised(Reason::BadArith)),
    }
}

fn prefixed_number(op: Prefix, number: i128) -> Arith
    ensures { result ≡ value_or_limit (bounded (exact_of op number)) }
{
    match op {
        Prefix::Minus => opposite(number),
        Prefix::Bnot => complement(number),
        _ => itself(number),
    }
}

/// The atom `true` or `false`.
pub(crate) fn truth_term<R>(holds: bool) -> Term<R>
    ensures { result ≡ Term.Atom (truth_number holds) }
{
    Term::Atom(if holds { TRUE } else { FALSE })
}

/// Whether a value is `true` or `false`; None where it is neither.
pub(crate) fn truth<R>(value: &Term<R>) -> Option<bool>
    ensures { (shown : R → List Bool) → result ≡ truth_of (value_of shown value.now) }
{
    match value {
        Term::Atom(atom) => {
            if *atom == TRUE {
                Some(true)
            } else if *atom == FALSE {
                Some(false)
            } else {
                None
            }
        }
        _ => None,
    }
}

fn is_comparison(op: Op) -> bool
    ensures { result ≡ compares op }
{
    match op {
        Op::Eq => true,
        Op::Ne => true,
        Op::Same => true,
        Op::NotSame => true,
        Op::Lt => true,
        Op::Le => true,
        Op::Gt => true,
        Op::Ge => true,
        _ => false,
    }
}

// Whether the comparison holds of values in this order.
fn holds(op: Op, order: Ordering) -> bool
    ensures { result ≡ holds_in op order }
{
    match op {
        Op::Eq => order.is_eq(),
        Op::Same => order.is_eq(),
        Op::Ne => order.is_ne(),
        Op::NotSame => order.is_ne(),
        Op::Lt => order.is_lt(),
        Op::Le => order.is_le(),
        Op::Gt => order.is_gt(),
        Op::Ge => order.is_ge(),
        _ => false,
    }
}

fn compute<R>(op: Op, left: &Term<R>, right: &Term<R>) -> Answer<R>
    ensures is { (shown : R → List Bool) → IsComputed shown result (bounded_result (computed op (value_of shown left.now) (value_of shown right.now))) }
    ensures plain { IsPlain result }
{
    match left {
        Term::Int(number) => compute_on(op, *number, right),
        _ => Err(EvalFault::Raised(Reason::BadArith)),
    }
}

fn compute_on<R>(op: Op, left: i128, right: &Term<R>) -> Answer<R>
    ensures is { (shown : R → List Bool) → IsComputed shown result (bounded_result (computed op (VInt left) (value_of shown right.now))) }
    ensures plain { IsPlain result }
{
    match right {
        Term::Int(number) => number_term(arithmetic_value(op, left, *number)),
        _ => Err(EvalFault::Raised(Reason::BadArith)),
    }
}

fn arithmetic_value(op: Op, left: i128, right: i128) -> Arith
    ensures { result ≡ arithmetic op left right }
{
    if is_arithmetic(op) {
        arith(op, left, right)
    } else {
        Arith::BadArith
    }
}

fn is_arithmetic(op: Op) -> bool
    ensures { result ≡ computes op }
{
    match op {
        Op::Mul => true,
        Op::Div => true,
        Op::Rem => true,
        Op::Band => true,
        Op::Add => true,
        Op::Sub => true,
        Op::Bor => true,
        Op::Bxor => true,
        Op::Bsl => true,
        Op::Bsr => true,
        _ => false,
    }
}

// An integer of this type is within the bound.
fn itself(number: i128) -> Arith
    ensures { result ≡ value_or_limit (bounded number) }
{
    Arith::Value(number)
}

fn opposite(number: i128) -> Arith
    ensures { result ≡ value_or_limit (bounded (neg_ℤ number)) }
{
    match number.checked_neg() {
        Some(number) => Arith::Value(number),
        None => Arith::Limit,
    }
}

// The bits that the number hasn't, in two's complement.
fn complement(number: i128) -> Arith
    ensures { result ≡ value_or_limit (bounded (no_bits number)) }
{
    Arith::Value(-1 - number)
}

pub(crate) fn number_term<R>(value: Arith) -> Answer<R>
    ensures is { (shown : R → List Bool) → IsComputed shown result (arithmetic_result value) }
    ensures plain { IsPlain result }
{
    match value {
        Arith::Value(number) => Ok(Term::Int(number)),
        Arith::BadArith => Err(EvalFault::Raised(Reason::BadArith)),
        Arith::Limit => Err(EvalFault::Limit),
    }
}
