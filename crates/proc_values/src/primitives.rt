//! What the values of all parts alone determine.

ghost use Rattle.std.specs.Prelude.{◌≡◌, true, IfOk, OnErr};
ghost use Rattle.erl_syntax.specs.BuiltIns.{is_for_guards};
ghost use Rattle.bit_store.specs.Stores.{AnyAtom, Keeps, RoseBy};
ghost use Rattle.term_value.specs.BuiltIns.{native};
ghost use Rattle.term_value.specs.Primitives.{prim, bounded_result};
ghost use Rattle.term_value.specs.Seen.{meanings, AreKnown};
ghost use Rattle.term_value.specs.Setting.{Setting};
ghost use Rattle.term_value.specs.Terms.{row};
ghost use Rattle.term_value.specs.Tree as t;
ghost use Rattle.code_tree.specs.Reading.{prim_of};
ghost use Rattle.expr_eval.specs.Answers.{IsEvaluated, HasAnswer, bit_count, setting};
ghost use Rattle.proc_values.specs.MadeBits.{PrimMakesNoBits};

use crate::construction::bitstring;
use crate::lists::{list, list_on, tuple};
use crate::storage::Storage;
use bit_store::{Store, StoreLook};
use code_tree::Primitive;
use erl_syntax::{BuiltIn, Op, Prefix};
use expr_eval::{
    Answer, Caller, EvalFault, Reason, binary_op, built_in, guard_built_in, prefix_op,
};
use shares::Share;
use term_value::Term;

/// What a primitive gives for the values of its parts (Erlang Reference Manual, "Expressions").
///
/// Each reference shows what it showed before, refused or not; bits are moved only into a bitstring that is given and was made.
pub fn primitive<R: Share + Drop, S: Store<R>>(
    caller: &Caller<'_>,
    storage: &mut Storage<S>,
    primitive: &Primitive,
    values: Vec<Term<R>>,
) -> Answer<R>
    requires { AreKnown (S.has storage.old.store) AnyAtom (row values.items) }
    ensures keeps { Keeps S.shown S.has storage.old.store storage.new.store }
    ensures is { IsEvaluated (S.shown storage.new.store) result (prim (setting caller.now.names.now caller.now.pid) (prim_of primitive.now) (meanings (S.shown storage.old.store) (row values.items))) }
    ensures known { HasAnswer (S.has storage.new.store) result }
    ensures moved { IfOk result (λ term. RoseBy (bit_count (S.shown storage.new.store) term) storage.old.steps.moved storage.new.steps.moved) }
    ensures unmoved { OnErr result (storage.new.steps ≡ storage.old.steps) }
    ensures quiet { PrimMakesNoBits (prim_of primitive.now) → storage.new.steps ≡ storage.old.steps }
{
    // read for its range alone: the ledger stands still
    let _moved = storage.steps.moved;
    match primitive {
        Primitive::Build(types) => bitstring(caller.alloc, storage, types.items(), &values),
        Primitive::BuiltIn(which) => native_call(caller, storage, *which, &values),
        _ => read(caller, &storage.store, primitive, values),
    }
}

fn native_call<R: Share + Drop, S: Store<R>>(
    caller: &Caller<'_>,
    storage: &mut Storage<S>,
    which: BuiltIn,
    values: &[Term<R>],
) -> Answer<R>
    requires { AreKnown (S.has storage.old.store) AnyAtom (row values.now) }
    ensures keeps { Keeps S.shown S.has storage.old.store storage.new.store }
    ensures is { IsEvaluated (S.shown storage.new.store) result (bounded_result (native (setting caller.now.names.now caller.now.pid) which (meanings (S.shown storage.old.store) (row values.now)))) }
    ensures known { HasAnswer (S.has storage.new.store) result }
    ensures moved { IfOk result (λ term. RoseBy (bit_count (S.shown storage.new.store) term) storage.old.steps.moved storage.new.steps.moved) }
    ensures unmoved { OnErr result (storage.new.steps ≡ storage.old.steps) }
    ensures quiet { is_for_guards which ≡ true → storage.new.steps ≡ storage.old.steps }
{
    // read for its range alone: the ledger stands still
    let _moved = storage.steps.moved;
    if which.is_for_guards() {
        guard_built_in(caller, &storage.store, which, values)
    } else {
        built_in(
            caller,
            &mut storage.store,
            which,
            values,
            &mut storage.steps,
        )
    }
}

/// What a primitive gives that changes nothing in the store; `NoMemory` for a bit expression, and for a built-in function that no guard
/// may call.
pub(crate) fn read<R: Share + Drop, S: Store<R>>(
    caller: &Caller<'_>,
    store: &S,
    primitive: &Primitive,
    values: Vec<Term<R>>,
) -> Answer<R>
    requires { AreKnown (S.has store.now) AnyAtom (row values.items) }
    ensures is { IsEvaluated (S.shown store.now) result (prim (setting caller.now.names.now caller.now.pid) (prim_of primitive.now) (meanings (S.shown store.now) (row values.items))) }
    ensures known { HasAnswer (S.has store.now) result }
{
    match primitive {
        Primitive::Tuple => tuple(caller.alloc, store, values),
        Primitive::List => list(caller.alloc, store, values),
        Primitive::ListOn => list_on(caller.alloc, store, values),
        Primitive::Build(_) => Err(EvalFault::NoMemory),
        Primitive::Operator(op) => binary(caller, store, *op, &values),
        Primitive::Prefix(op) => prefix(store, *op, &values),
        Primitive::BuiltIn(which) => guard_call(caller, store, *which, &values),
    }
}

fn binary<R: Share + Drop, S: Store<R>>(
    caller: &Caller<'_>,
    store: &S,
    op: Op,
    values: &[Term<R>],
) -> Answer<R>
    requires { AreKnown (S.has store.now) AnyAtom (row values.now) }
    ensures is { IsEvaluated (S.shown store.now) result (prim (setting caller.now.names.now caller.now.pid) (t.Operate op) (meanings (S.shown store.now) (row values.now))) }
    ensures known { HasAnswer (S.has store.now) result }
{
    match values {
        [left, right] => {
            let look = StoreLook {
                store,
                names: caller.names,
            };
            binary_op(&look, op, left, right)
        }
        _ => Err(EvalFault::Raised(Reason::BadArg)),
    }
}

fn prefix<R: Share + Drop, S: Store<R>>(store: &S, op: Prefix, values: &[Term<R>]) -> Answer<R>
    ensures is { (s : Setting) → IsEvaluated (S.shown store.now) result (prim s (t.Prefixed op) (meanings (S.shown store.now) (row values.now))) }
    ensures known { HasAnswer (S.has store.now) result }
{
    match values {
        [value] => prefix_op(op, value),
        _ => Err(EvalFault::Raised(Reason::BadArg)),
    }
}

// A built-in function that a guard may call.
fn guard_call<R: Share + Drop, S: Store<R>>(
    caller: &Caller<'_>,
    store: &S,
    which: BuiltIn,
    values: &[Term<R>],
) -> Answer<R>
    requires { AreKnown (S.has store.now) AnyAtom (row values.now) }
    ensures is { IsEvaluated (S.shown store.now) result (bounded_result (native (setting caller.now.names.now caller.now.pid) which (meanings (S.shown store.now) (row values.now)))) }
    ensures known { HasAnswer (S.has store.now) result }
{
    if which.is_for_guards() {
        guard_built_in(caller, store, which, values)
    } else {
        Err(EvalFault::NoMemory)
    }
}
