//! The built-in functions, each over any store.

ghost use Rattle.std.specs.Prelude.{◌≡◌, ℕ, List, false, IfOk, OnErr};
ghost use Rattle.erl_syntax.specs.BuiltIns.{is_for_guards};
ghost use Rattle.bit_store.specs.Stores.{AnyAtom, Keeps, RoseBy};
ghost use Rattle.term_value.specs.BuiltIns.{native, native_1, native_2};
ghost use Rattle.term_value.specs.Primitives.{bounded_result};
ghost use Rattle.term_value.specs.Result.{Stops, Raise};
ghost use Rattle.term_value.specs.Seen.{AreKnown, meanings};
ghost use Rattle.term_value.specs.Terms.{value_of, row, IsOver};
ghost use Rattle.expr_eval.specs.Answers.{IsEvaluated, HasAnswer, bit_count, setting};
ghost use Rattle.expr_eval.specs.Kinds.{HasBits, writes};

use crate::bytes::binary_to_list;
use crate::caller::Caller;
use crate::digits::binary_to_integer;
use crate::guards::guard_built_in;
use crate::joined::{integer_to_binary, list_to_binary};
use crate::parts::split_binary;
use crate::reason::{Answer, EvalFault, Reason, bad_argument};
use crate::rows::{list_to_tuple, reversed, tuple_to_list};
use bit_store::Store;
use bits_value::Steps;
use erl_syntax::BuiltIn;
use shares::Share;
use std::alloc::Global;
use term_value::Term;

/// The value of a built-in function (Erlang Reference Manual, "Expressions", Guard Expressions; the documentation of the modules
/// `erlang` and `lists`).
///
/// Raises `badarg` for a wrong kind or number of arguments, and `function_clause` for `lists:reverse/1` of no list. `display` and
/// `spawn` act, and have no value here: they raise `badarg`. Each reference shows what it showed before, refused or not; bits are moved
/// only into a bitstring that is given and was made.
pub fn built_in<R: Share + Drop, S: Store<R>>(
    caller: &Caller<'_>,
    store: &mut S,
    which: BuiltIn,
    args: &[Term<R>],
    steps: &mut Steps,
) -> Answer<R>
    requires { AreKnown (S.has store.old) AnyAtom (row args.now) }
    ensures keeps { Keeps S.shown S.has store.old store.new }
    ensures is { IsEvaluated (S.shown store.new) result (bounded_result (native (setting caller.now.names.now caller.now.pid) which (meanings (S.shown store.old) (row args.now)))) }
    ensures known { HasAnswer (S.has store.new) result }
    ensures moved { IfOk result (λ term. RoseBy (bit_count (S.shown store.new) term) steps.old.moved steps.new.moved) }
    ensures unmoved { OnErr result (steps.new ≡ steps.old) }
{
    // read for its range alone: the ledger stands still
    let _moved = steps.moved;
    if which.is_for_guards() {
        guard_built_in(caller, store, which, args)
    } else {
        body_built_in(caller.alloc, store, which, args, steps)
    }
}

// A function that no guard may call.
fn body_built_in<R: Share + Drop, S: Store<R>>(
    alloc: Global,
    store: &mut S,
    which: BuiltIn,
    args: &[Term<R>],
    steps: &mut Steps,
) -> Answer<R>
    requires body { is_for_guards which ≡ false }
    requires known { AreKnown (S.has store.old) AnyAtom (row args.now) }
    ensures keeps { Keeps S.shown S.has store.old store.new }
    ensures is { (names : List (List ℕ)) (pid : ℕ) → IsEvaluated (S.shown store.new) result (bounded_result (native (setting names pid) which (meanings (S.shown store.old) (row args.now)))) }
    ensures known { HasAnswer (S.has store.new) result }
    ensures moved { IfOk result (λ term. RoseBy (bit_count (S.shown store.new) term) steps.old.moved steps.new.moved) }
    ensures unmoved { OnErr result (steps.new ≡ steps.old) }
{
    // read for its range alone: the ledger stands still
    let _moved = steps.moved;
    match args {
        [] => bad_argument(),
        [value] => of_value(alloc, store, which, value, steps),
        [first, second] => of_pair(alloc, store, which, first, second),
        _ => bad_argument(),
    }
}

fn of_value<R: Share + Drop, S: Store<R>>(
    alloc: Global,
    store: &mut S,
    which: BuiltIn,
    value: &Term<R>,
    steps: &mut Steps,
) -> Answer<R>
    requires body { is_for_guards which ≡ false }
    requires known { IsOver (S.has store.old) AnyAtom value.now }
    ensures keeps { Keeps S.shown S.has store.old store.new }
    ensures is { IsEvaluated (S.shown store.new) result (bounded_result (native_1 which (value_of (S.shown store.old) value.now))) }
    ensures known { HasAnswer (S.has store.new) result }
    ensures moved { IfOk result (λ term. RoseBy (bit_count (S.shown store.new) term) steps.old.moved steps.new.moved) }
    ensures unmoved { OnErr result (steps.new ≡ steps.old) }
{
    match which {
        BuiltIn::ListToBinary => list_to_binary(alloc, store, value, steps),
        BuiltIn::IntegerToBinary => integer_to_binary(alloc, store, value, steps),
        _ => {
            // read for its range alone: the ledger stands still
            let _moved = steps.moved;
            read(alloc, store, which, value)
        }
    }
}

// A function that changes nothing in the store.
fn read<R: Share + Drop, S: Store<R>>(
    alloc: Global,
    store: &S,
    which: BuiltIn,
    value: &Term<R>,
) -> Answer<R>
    requires body { is_for_guards which ≡ false }
    requires read { writes which ≡ false }
    requires known { IsOver (S.has store.now) AnyAtom value.now }
    ensures is { IsEvaluated (S.shown store.now) result (bounded_result (native_1 which (value_of (S.shown store.now) value.now))) }
    ensures known { HasAnswer (S.has store.now) result }
{
    match which {
        BuiltIn::Exit => raised(store, value),
        BuiltIn::Error => raised(store, value),
        BuiltIn::BinaryToList => binary_to_list(alloc, store, value),
        BuiltIn::BinaryToInteger => binary_to_integer(alloc, store, value),
        BuiltIn::TupleToList => tuple_to_list(alloc, store, value),
        BuiltIn::ListToTuple => list_to_tuple(alloc, store, value),
        BuiltIn::Reverse => reversed(alloc, store, value),
        _ => bad_argument(),
    }
}

// `exit/1` and `error/1`
fn raised<R: Share + Drop, S: Store<R>>(store: &S, reason: &Term<R>) -> Answer<R>
    requires { IsOver (S.has store.now) AnyAtom reason.now }
    ensures is { IsEvaluated (S.shown store.now) result (Stops (Raise (value_of (S.shown store.now) reason.now))) }
    ensures known { HasAnswer (S.has store.now) result }
{
    match reason.share() {
        Ok(reason) => Err(EvalFault::Raised(Reason::Other(reason))),
        Err(_) => Err(EvalFault::NoMemory),
    }
}

fn of_pair<R: Drop, S: Store<R>>(
    alloc: Global,
    store: &S,
    which: BuiltIn,
    first: &Term<R>,
    second: &Term<R>,
) -> Answer<R>
    requires body { is_for_guards which ≡ false }
    requires known { HasBits (S.has store.now) first.now }
    ensures is { (names : List (List ℕ)) (pid : ℕ) → IsEvaluated (S.shown store.now) result (bounded_result (native_2 (setting names pid) which (value_of (S.shown store.now) first.now) (value_of (S.shown store.now) second.now))) }
    ensures known { HasAnswer (S.has store.now) result }
{
    match which {
        BuiltIn::SplitBinary => split_binary(alloc, store, first, second),
        _ => bad_argument(),
    }
}
