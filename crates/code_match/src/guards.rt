//! Guard expressions, which are the sizes in patterns too, and guards.

ghost use Rattle.std.specs.Prelude.{◌≡◌, IfOk, IfErr, Err, IfSome, MatchOption};
ghost use Rattle.bit_store.specs.Stores.{itself};
ghost use Rattle.term_value.specs.Guards.{Results, AllGive, of_all, result_of as result_is, results_of, second_of, guard_holds as holds, all_hold as hold, verdict_of as verdict_is, tabled as tabled_as};
ghost use Rattle.term_value.specs.PutIn.{put_in, puts_in, in_guard};
ghost use Rattle.term_value.specs.Result.{Result as Evaluation, Gives};
ghost use Rattle.term_value.specs.Seen.{meanings, AreKnown};
ghost use Rattle.term_value.specs.Setting.{Setting};
ghost use Rattle.term_value.specs.Terms.{row, value_of, IsOver};
ghost use Rattle.term_value.specs.Tree.{Var};
ghost use Rattle.code_tree.specs.PlainTerms.{IsShort, AnyAtom};
ghost use Rattle.code_tree.specs.Reading.{form_of, tree_of, trees_of, guard_of};
ghost use Rattle.expr_eval.specs.Answers.{IsEvaluated, HasAnswer, setting};
ghost use Rattle.code_match.specs.Binds.{bounds};
ghost use Rattle.code_match.specs.Rows.{IsStop};
ghost use Rattle.code_match.specs.Verdicts.{verdict};

use crate::bindings::Bindings;
use crate::primitives::primitive;
use bit_store::Window;
use code_tree::{Form, Tree};
use erl_syntax::Listed;
use expr_eval::{Answer, Caller, EvalFault, Reason};
use shares::Share;
use std::alloc::AllocError;
use term_value::Term;

/// The number of the atom `true` in each table of atoms.
const TRUE: u32 = 11;

/// The number of the atom `false` in each table of atoms.
const FALSE: u32 = 12;

/// Whether a guard holds (Erlang Reference Manual, "Expressions", Guard Sequences).
#[derive(Clone, Copy, Debug, PartialEq, Eq)]
pub enum Verdict {
    Holds,
    Fails,
    /// A bound is passed, which no guard hides.
    AtLimit,
}

/// The result of a guard expression under bindings (Erlang Reference Manual, "Expressions", Guard Expressions).
///
/// What no guard may have raises `badarg`.
#[cycle(evaluate)]
pub fn result_of(caller: &Caller<'_>, tree: &Tree, bindings: &Bindings) -> Answer<Window>
    ensures is { IsEvaluated itself result (result_is (setting caller.now.names.now caller.now.pid) (put_in (bounds bindings.now) (tree_of tree.now))) }
    ensures over { HasAnswer IsShort result }
{
    match tree {
        Tree::Value(term) => shared(term.term()),
        Tree::Variable(variable) => bound_value(bindings, *variable),
        Tree::All(form, parts) => {
            tabled(caller, form, values_of(caller, parts.items(), bindings))
        }
        Tree::AndAlso(first, second) => {
            match decided(true, result_of(caller, first.get(), bindings)) {
                Some(answer) => answer,
                None => result_of(caller, second.get(), bindings),
            }
        }
        Tree::OrElse(first, second) => {
            match decided(false, result_of(caller, first.get(), bindings)) {
                Some(answer) => answer,
                None => result_of(caller, second.get(), bindings),
            }
        }
        _ => Err(EvalFault::Raised(Reason::BadArg)),
    }
}

// The values of all parts; the first that has none decides.
#[cycle(evaluate)]
#[tactic(auto, using(crate::proofs::Evaluated::fault_here))]
fn values_of(
    caller: &Caller<'_>,
    parts: &[Tree],
    bindings: &Bindings,
) -> Result<Vec<Term<Window>>, EvalFault<Window>>
    ensures values { IfOk result (λ values. AllGive (meanings itself (row values.items)) ≡ results_of (setting caller.now.names.now caller.now.pid) (puts_in (bounds bindings.now) (trees_of parts.now))) }
    ensures stops { IfErr result (λ fault. IsStop fault (results_of (setting caller.now.names.now caller.now.pid) (puts_in (bounds bindings.now) (trees_of parts.now)))) }
    ensures over { IfOk result (λ values. AreKnown IsShort AnyAtom (row values.items)) }
    ensures reason { IfErr result (λ fault. HasAnswer IsShort (Err fault)) }
{
    let mut values = Vec::new(caller.alloc);
    for part in parts {
        match result_of(caller, part, bindings) {
            Ok(value) => {
                if values.push(value).is_err() {
                    return Err(EvalFault::NoMemory);
                }
            }
            Err(fault) => return Err(fault),
        }
    }
    Ok(values)
}

fn shared(term: &Term<Window>) -> Answer<Window>
    requires { IsOver IsShort AnyAtom term.now }
    ensures is { IsEvaluated itself result (Gives (value_of itself term.now)) }
    ensures over { HasAnswer IsShort result }
{
    match term.share() {
        Ok(term) => Ok(term),
        Err(_) => Err(EvalFault::NoMemory),
    }
}

fn bound_value(bindings: &Bindings, variable: u32) -> Answer<Window>
    ensures is { (s : Setting) → IsEvaluated itself result (result_is s (put_in (bounds bindings.now) (Var variable))) }
    ensures over { HasAnswer IsShort result }
{
    match bindings.get(variable) {
        Some(term) => shared(term),
        None => Err(EvalFault::Raised(Reason::BadArg)),
    }
}

// What a form gives for the values of its parts; a guard has none but those that the values determine.
#[tactic(auto, using(crate::proofs::Tabled::tabled_is, crate::proofs::Tabled::stopped_is, crate::proofs::Tabled::untabled_is))]
fn tabled(
    caller: &Caller<'_>,
    form: &Form,
    values: Result<Vec<Term<Window>>, EvalFault<Window>>,
) -> Answer<Window>
    requires over { IfOk values (λ values. AreKnown IsShort AnyAtom (row values.items)) }
    requires reason { IfErr values (λ fault. HasAnswer IsShort (Err fault)) }
    ensures is { (due : Results) → IfOk values (λ values. AllGive (meanings itself (row values.items)) ≡ due) → IfErr values (λ fault. IsStop fault due) → IsEvaluated itself result (of_all (tabled_as (setting caller.now.names.now caller.now.pid) (form_of form.now)) due) }
    ensures over { HasAnswer IsShort result }
{
    match values {
        Ok(values) => match form {
            Form::Table(what) => primitive(caller, what, values),
            _ => Err(EvalFault::Raised(Reason::BadArg)),
        },
        Err(fault) => Err(fault),
    }
}

// The answer where the first part decides: `andalso` needs its second part where the first is `true`, `orelse` where it is `false`.
fn decided(wanted: bool, first: Answer<Window>) -> Option<Answer<Window>>
    requires { HasAnswer IsShort first }
    ensures is { (due second : Evaluation) → IsEvaluated itself first due → MatchOption result (second_of wanted second due ≡ second) (λ answer. IsEvaluated itself answer (second_of wanted second due)) }
    ensures over { IfSome result (HasAnswer IsShort) }
{
    match first {
        Ok(Term::Atom(TRUE)) => {
            if wanted {
                None
            } else {
                Some(Ok(Term::Atom(TRUE)))
            }
        }
        Ok(Term::Atom(FALSE)) => {
            if wanted {
                Some(Ok(Term::Atom(FALSE)))
            } else {
                None
            }
        }
        Ok(value) => Some(Err(EvalFault::Raised(Reason::BadArgOf(value)))),
        Err(fault) => Some(Err(fault)),
    }
}

/// Whether a guard holds under bindings: one of its alternatives does, of which the first that doesn't fail decides.
#[tactic(auto, using(crate::proofs::Evaluated::tests_are))]
pub fn guard_holds(
    caller: &Caller<'_>,
    guard: &[Listed<Tree>],
    bindings: &Bindings,
) -> Result<Verdict, AllocError>
    ensures { IfOk result (λ found. verdict found ≡ holds (setting caller.now.names.now caller.now.pid) (in_guard (bounds bindings.now) (guard_of guard.now))) }
{
    for tests in guard {
        match all_hold(caller, tests.items(), bindings)? {
            Verdict::Fails => {}
            Verdict::Holds => return Ok(Verdict::Holds),
            Verdict::AtLimit => return Ok(Verdict::AtLimit),
        }
    }
    Ok(Verdict::Fails)
}

// Whether all tests hold; the first that doesn't decides.
#[tactic(auto, using(crate::proofs::Evaluated::test_is))]
fn all_hold(caller: &Caller<'_>, tests: &[Tree], bindings: &Bindings) -> Result<Verdict, AllocError>
    ensures { IfOk result (λ found. verdict found ≡ hold (setting caller.now.names.now caller.now.pid) (puts_in (bounds bindings.now) (trees_of tests.now))) }
{
    for test in tests {
        match verdict_of(result_of(caller, test, bindings))? {
            Verdict::Holds => {}
            Verdict::Fails => return Ok(Verdict::Fails),
            Verdict::AtLimit => return Ok(Verdict::AtLimit),
        }
    }
    Ok(Verdict::Holds)
}

// A test holds where its value is `true`.
fn verdict_of(answer: Answer<Window>) -> Result<Verdict, AllocError>
    ensures { (due : Evaluation) → IsEvaluated itself answer due → IfOk result (λ found. verdict found ≡ verdict_is due) }
{
    match answer {
        Ok(Term::Atom(TRUE)) => Ok(Verdict::Holds),
        Ok(_) => Ok(Verdict::Fails),
        Err(EvalFault::Raised(_)) => Ok(Verdict::Fails),
        Err(EvalFault::Limit) => Ok(Verdict::AtLimit),
        Err(EvalFault::NoMemory) => Err(AllocError),
    }
}
