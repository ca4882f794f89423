//! What a pattern or a segment wants of a value: an equal one, or a variable.

ghost use Rattle.std.specs.Prelude.{◌≡◌, IfOk, option_map};
ghost use Rattle.bit_store.specs.Stores.{itself};
ghost use Rattle.code_tree.specs.PlainTerms.{value as literal_value, IsShort, AnyAtom};
ghost use Rattle.code_match.specs.Binds.{bounds};
ghost use Rattle.code_match.specs.Matches.{match_of};
ghost use Rattle.code_match.specs.Places.{IsBounded};
ghost use Rattle.expr_eval.specs.Answers.{setting};
ghost use Rattle.term_value.specs.Decode.{met};
ghost use Rattle.term_value.specs.Match.{match_where};
ghost use Rattle.term_value.specs.Order.{same as same_values};
ghost use Rattle.term_value.specs.PutIn.{in_target, value_in};
ghost use Rattle.term_value.specs.Terms.{value_of, IsOver};
ghost use Rattle.term_value.specs.Tree.{Variable, Equal};

use crate::bindings::Bindings;
use crate::outcome::Matched;
use bit_store::{PlainStore, StoreLook, Window};
use code_tree::PlainTerm;
use expr_eval::Caller;
use shares::Share;
use std::alloc::AllocError;
use term_value::{Term, compare};

/// A variable and a value: one that is bound is compared, another is bound to the value (Erlang Reference Manual, "Pattern Matching").
///
/// The error says that no memory was left.
#[tactic(auto, using(crate::proofs::Meetings::equal_is, crate::proofs::Meetings::other_is, crate::proofs::Meetings::free_is, crate::proofs::Meetings::is_free, crate::proofs::Meetings::bounds_last))]
pub(crate) fn met_variable(
    caller: &Caller<'_>,
    variable: u32,
    value: &Term<Window>,
    bindings: Bindings,
) -> Result<Matched, AllocError>
    requires { IsOver IsShort AnyAtom value.now }
    ensures { IfOk result (λ found. match_of found ≡ match_where (met (setting caller.now.names.now caller.now.pid) (in_target (bounds bindings) (Variable variable)) (value_of itself value.now) (bounds bindings))) }
{
    match is_equal_to_bound(caller, variable, value, &bindings) {
        Some(true) => Ok(Matched::Yes(bindings)),
        Some(false) => Ok(Matched::No),
        None => Ok(Matched::Yes(bindings.bind(caller.alloc, variable, value.share()?)?)),
    }
}

/// A literal and a value: both are equal.
#[tactic(auto, using(crate::proofs::Meetings::literal_yes, crate::proofs::Meetings::literal_no))]
pub(crate) fn met_value(
    caller: &Caller<'_>,
    literal: &PlainTerm,
    value: &Term<Window>,
    bindings: Bindings,
) -> Matched
    requires { IsOver IsShort AnyAtom value.now }
    ensures { match_of result ≡ match_where (met (setting caller.now.names.now caller.now.pid) (Equal (literal_value literal.now)) (value_of itself value.now) (bounds bindings)) }
{
    if is_same(caller, literal.term(), value) {
        Matched::Yes(bindings)
    } else {
        Matched::No
    }
}

/// Reads a term's number, which shows that it is within the bound.
#[tactic(auto, using(crate::proofs::Longs::fits_bounded))]
pub(crate) fn read_number(term: &Term<Window>)
    ensures { IsBounded (value_of itself term.now) }
{
    if let Term::Int(number) = term {
        let _number = *number;
    }
}

// Whether the variable's value equals this one; None where it has none.
fn is_equal_to_bound(
    caller: &Caller<'_>,
    variable: u32,
    value: &Term<Window>,
    bindings: &Bindings,
) -> Option<bool>
    requires { IsOver IsShort AnyAtom value.now }
    ensures { result ≡ option_map (λ bound. same_values (setting caller.now.names.now caller.now.pid).names bound (value_of itself value.now)) (value_in (bounds bindings.now) variable) }
{
    let bound = bindings.get(variable)?;
    Some(is_same(caller, bound, value))
}

// Whether both values are equal (Erlang Reference Manual, "Expressions", Term Comparisons).
fn is_same(caller: &Caller<'_>, left: &Term<Window>, right: &Term<Window>) -> bool
    requires left { IsOver IsShort AnyAtom left.now }
    requires right { IsOver IsShort AnyAtom right.now }
    ensures { result ≡ same_values (setting caller.now.names.now caller.now.pid).names (value_of itself left.now) (value_of itself right.now) }
{
    let store = PlainStore::new(caller.alloc);
    let look = StoreLook {
        store: &store,
        names: caller.names,
    };
    compare(&look, left, right).is_eq()
}
