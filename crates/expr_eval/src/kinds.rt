//! The tests of a value's kind.

ghost use Rattle.std.specs.Prelude.{◌≡◌, Bool, List};
ghost use Rattle.term_value.specs.BuiltIns.{is_integer as integer_is, is_atom as atom_is, is_pid as pid_is, is_tuple as tuple_is, is_list as list_is, is_bitstring as bitstring_is, is_binary as binary_is};
ghost use Rattle.term_value.specs.Terms.{value_of};
ghost use Rattle.expr_eval.specs.Kinds.{HasBits, kind_test};

use crate::operators::truth;
use bit_store::Store;
use erl_syntax::BuiltIn;
use term_value::Term;

/// Whether the value is of the kind that the built-in function tests; None where it is no such test.
pub(crate) fn is_of_kind<R, S: Store<R>>(store: &S, which: BuiltIn, value: &Term<R>) -> Option<bool>
    requires { HasBits (S.has store.now) value.now }
    ensures { result ≡ kind_test which (value_of (S.shown store.now) value.now) }
{
    match which {
        BuiltIn::IsInteger => Some(is_integer(value)),
        BuiltIn::IsNumber => Some(is_integer(value)),
        BuiltIn::IsAtom => Some(is_atom(value)),
        BuiltIn::IsBoolean => Some(truth(value).is_some()),
        BuiltIn::IsPid => Some(is_pid(value)),
        BuiltIn::IsTuple => Some(is_tuple(value)),
        BuiltIn::IsList => Some(is_list(value)),
        BuiltIn::IsBinary => Some(is_binary(store, value)),
        BuiltIn::IsBitstring => Some(is_bitstring(value)),
        _ => None,
    }
}

fn is_integer<R>(value: &Term<R>) -> bool
    ensures { (shown : R → List Bool) → result ≡ integer_is (value_of shown value.now) }
{
    match value {
        Term::Int(_) => true,
        _ => false,
    }
}

fn is_atom<R>(value: &Term<R>) -> bool
    ensures { (shown : R → List Bool) → result ≡ atom_is (value_of shown value.now) }
{
    match value {
        Term::Atom(_) => true,
        _ => false,
    }
}

fn is_pid<R>(value: &Term<R>) -> bool
    ensures { (shown : R → List Bool) → result ≡ pid_is (value_of shown value.now) }
{
    match value {
        Term::Pid(_) => true,
        _ => false,
    }
}

fn is_tuple<R>(value: &Term<R>) -> bool
    ensures { (shown : R → List Bool) → result ≡ tuple_is (value_of shown value.now) }
{
    match value {
        Term::Tuple(_) => true,
        _ => false,
    }
}

fn is_list<R>(value: &Term<R>) -> bool
    ensures { (shown : R → List Bool) → result ≡ list_is (value_of shown value.now) }
{
    match value {
        Term::List(_) => true,
        _ => false,
    }
}

fn is_bitstring<R>(value: &Term<R>) -> bool
    ensures { (shown : R → List Bool) → result ≡ bitstring_is (value_of shown value.now) }
{
    match value {
        Term::Bits(_) => true,
        _ => false,
    }
}

fn is_binary<R, S: Store<R>>(store: &S, value: &Term<R>) -> bool
    requires { HasBits (S.has store.now) value.now }
    ensures { result ≡ binary_is (value_of (S.shown store.now) value.now) }
{
    match value {
        Term::Bits(of) => store.look(of).len() % 8 == 0,
        _ => false,
    }
}
