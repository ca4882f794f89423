//! The built-in functions that a guard may call.

ghost use Rattle.std.specs.Prelude.{◌≡◌, ℕ, Bool, List, IsTrue, None};
ghost use Rattle.erl_syntax.specs.BuiltIns.{is_for_guards};
ghost use Rattle.term_value.specs.BuiltIns.{native, native_1, native_2, binary_part as part_of};
ghost use Rattle.term_value.specs.Primitives.{bounded_result};
ghost use Rattle.term_value.specs.Seen.{AreKnown, meanings};
ghost use Rattle.term_value.specs.Terms.{value_of, row, IsOver};
ghost use Rattle.term_value.specs.Value.{none, more};
ghost use Rattle.bit_store.specs.Stores.{AnyAtom};
ghost use Rattle.expr_eval.specs.Answers.{IsEvaluated, HasAnswer, IsEmpty, setting};
ghost use Rattle.expr_eval.specs.Kinds.{HasBits, is_measure as measures, kind_test};

use crate::caller::Caller;
use crate::items::{element, greater, head, smaller, tail};
use crate::kinds::is_of_kind;
use crate::operators::truth_term;
use crate::parts::{binary_part, binary_part_of};
use crate::reason::{Answer, bad_argument};
use crate::sizes::{absolute, bit_size, byte_size, list_length, tuple_size};
use bit_store::Store;
use erl_syntax::BuiltIn;
use shares::Share;
use term_value::Term;

/// The value of a built-in function that a guard may call (Erlang Reference Manual, "Expressions", Guard Expressions).
///
/// Raises `badarg` for a wrong kind or number of arguments. Moves no bit and changes nothing in the store.
pub fn guard_built_in<R: Share + Drop, S: Store<R>>(
    caller: &Caller<'_>,
    store: &S,
    which: BuiltIn,
    args: &[Term<R>],
) -> Answer<R>
    requires guard { IsTrue (is_for_guards which) }
    requires known { AreKnown (S.has store.now) AnyAtom (row args.now) }
    ensures is { IsEvaluated (S.shown store.now) result (bounded_result (native (setting caller.now.names.now caller.now.pid) which (meanings (S.shown store.now) (row args.now)))) }
    ensures known { HasAnswer (S.has store.now) result }
{
    match args {
        [] => of_none(caller, which),
        [value] => of_one(store, which, value),
        [first, second] => of_two(caller, store, which, first, second),
        [first, second, third] => of_three(store, which, first, second, third),
        _ => bad_argument(),
    }
}

fn of_none<R>(caller: &Caller<'_>, which: BuiltIn) -> Answer<R>
    ensures plain { IsEmpty result }
    ensures is { (shown : R → List Bool) → IsEvaluated shown result (bounded_result (native (setting caller.now.names.now caller.now.pid) which none)) }
{
    match which {
        BuiltIn::SelfPid => Ok(Term::Pid(caller.pid)),
        _ => bad_argument(),
    }
}

fn of_one<R: Share + Drop, S: Store<R>>(store: &S, which: BuiltIn, value: &Term<R>) -> Answer<R>
    requires guard { IsTrue (is_for_guards which) }
    requires known { IsOver (S.has store.now) AnyAtom value.now }
    ensures is { IsEvaluated (S.shown store.now) result (bounded_result (native_1 which (value_of (S.shown store.now) value.now))) }
    ensures known { HasAnswer (S.has store.now) result }
{
    match is_of_kind(store, which, value) {
        Some(holds) => Ok(truth_term(holds)),
        None => {
            if is_measure(which) {
                measure(store, which, value)
            } else {
                bad_argument()
            }
        }
    }
}

fn is_measure(which: BuiltIn) -> bool
    ensures { result ≡ measures which }
{
    match which {
        BuiltIn::BitSize => true,
        BuiltIn::ByteSize => true,
        BuiltIn::TupleSize => true,
        BuiltIn::Length => true,
        BuiltIn::Hd => true,
        BuiltIn::Tl => true,
        BuiltIn::Abs => true,
        _ => false,
    }
}

fn measure<R: Share + Drop, S: Store<R>>(store: &S, which: BuiltIn, value: &Term<R>) -> Answer<R>
    requires measure { IsTrue (measures which) }
    requires known { IsOver (S.has store.now) AnyAtom value.now }
    ensures is { IsEvaluated (S.shown store.now) result (bounded_result (native_1 which (value_of (S.shown store.now) value.now))) }
    ensures known { HasAnswer (S.has store.now) result }
{
    match which {
        BuiltIn::BitSize => bit_size(store, value),
        BuiltIn::ByteSize => byte_size(store, value),
        BuiltIn::TupleSize => tuple_size(value),
        BuiltIn::Length => list_length(value),
        BuiltIn::Hd => head(store, value),
        BuiltIn::Tl => tail(store, value),
        BuiltIn::Abs => absolute(value),
        _ => bad_argument(),
    }
}

fn of_two<R: Share + Drop, S: Store<R>>(
    caller: &Caller<'_>,
    store: &S,
    which: BuiltIn,
    first: &Term<R>,
    second: &Term<R>,
) -> Answer<R>
    requires guard { IsTrue (is_for_guards which) }
    requires first { IsOver (S.has store.now) AnyAtom first.now }
    requires second { IsOver (S.has store.now) AnyAtom second.now }
    ensures is { IsEvaluated (S.shown store.now) result (bounded_result (native_2 (setting caller.now.names.now caller.now.pid) which (value_of (S.shown store.now) first.now) (value_of (S.shown store.now) second.now))) }
    ensures known { HasAnswer (S.has store.now) result }
{
    match which {
        BuiltIn::Element => element(store, first, second),
        BuiltIn::Max => greater(caller, store, first, second),
        BuiltIn::Min => smaller(caller, store, first, second),
        BuiltIn::BinaryPartOf => binary_part_of(store, first, second),
        _ => bad_argument(),
    }
}

fn of_three<R, S: Store<R>>(
    store: &S,
    which: BuiltIn,
    first: &Term<R>,
    second: &Term<R>,
    third: &Term<R>,
) -> Answer<R>
    requires { HasBits (S.has store.now) first.now }
    ensures is { (names : List (List ℕ)) (pid : ℕ) → IsEvaluated (S.shown store.now) result (bounded_result (native (setting names pid) which (more (value_of (S.shown store.now) first.now) (more (value_of (S.shown store.now) second.now) (more (value_of (S.shown store.now) third.now) none))))) }
    ensures known { HasAnswer (S.has store.now) result }
{
    match which {
        BuiltIn::BinaryPart => binary_part(store, first, second, third),
        _ => bad_argument(),
    }
}
