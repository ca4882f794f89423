//! Guard expressions, which are the sizes in patterns too, under the values of variables.

ghost use Rattle.std.specs.Prelude.{◌≡◌, ◌<◌, ◌^◌, List, Bool, IfOk, IfErr, Err, IfSome, MatchOption};
ghost use Rattle.bit_store.specs.Stores.{AnyAtom, Keeps};
ghost use Rattle.match_context.specs.Envs.{Agrees, AreThere};
ghost use Rattle.term_value.specs.Guards.{Results, AllGive, of_all, result_of as result_is, results_of, second_of, tabled as tabled_as};
ghost use Rattle.term_value.specs.PutIn.{put_in, puts_in};
ghost use Rattle.term_value.specs.Result.{Result as Evaluation, Gives};
ghost use Rattle.term_value.specs.Seen.{meanings, AreKnown};
ghost use Rattle.term_value.specs.Setting.{Setting};
ghost use Rattle.term_value.specs.Terms.{row, IsOver};
ghost use Rattle.term_value.specs.Tree.{Bound, Var};
ghost use Rattle.code_tree.specs.PlainTerms.{value};
ghost use Rattle.code_tree.specs.Reading.{form_of, tree_of, trees_of};
ghost use Rattle.expr_eval.specs.Answers.{IsEvaluated, HasAnswer, setting};
ghost use Rattle.proc_values.specs.MadeBits.{bits_inside, FormMakesNoBits, MakesNoBits, MakeNoBits};
ghost use Rattle.proc_values.specs.Rows.{IsStop};

use crate::access::Access;
use crate::literals::copy;
use crate::variables::Variables;
use code_tree::{Form, PlainTerm, Tree};
use expr_eval::{Answer, Caller, EvalFault, Reason};
use shares::Share;
use term_value::Term;

/// The number of the atom `true` in each table of atoms.
pub(crate) const TRUE: u32 = 11;

/// The number of the atom `false` in each table of atoms.
const FALSE: u32 = 12;

/// The result of a guard expression. What no guard may have raises `badarg`.
#[cycle(evaluate)]
pub(crate) fn evaluated<R: Share + Drop, A: Access<R>, V: Variables<R>>(
    caller: &Caller<'_>,
    access: &mut A,
    tree: &Tree,
    variables: &V,
) -> Answer<R>
    requires there { AreThere (A.has access.old) (V.held variables.now) }
    ensures keeps { Keeps A.shown A.has access.old access.new }
    ensures is { (bs : List Bound) → Agrees (A.shown access.old) (V.held variables.now) bs
        → IsEvaluated (A.shown access.new) result (result_is (setting caller.now.names.now caller.now.pid) (put_in bs (tree_of tree.now))) }
    ensures known { HasAnswer (A.has access.new) result }
    ensures quiet { MakesNoBits (tree_of tree.now) → A.moved access.old < 2 ^ 64 → A.moved access.new ≡ A.moved access.old }
{
    match tree {
        Tree::Value(term) => literal_value(caller, access, term),
        Tree::Variable(variable) => bound_value(access, variables, *variable),
        Tree::All(form, parts) => match values_of(caller, access, parts.items(), variables) {
            Ok(values) => tabled(caller, access, form, values),
            Err(fault) => Err(fault),
        },
        Tree::AndAlso(first, second) => {
            let answer = evaluated(caller, access, first.get(), variables);
            match decided(access, true, answer) {
                Some(answer) => answer,
                None => evaluated(caller, access, second.get(), variables),
            }
        }
        Tree::OrElse(first, second) => {
            let answer = evaluated(caller, access, first.get(), variables);
            match decided(access, false, answer) {
                Some(answer) => answer,
                None => evaluated(caller, access, second.get(), variables),
            }
        }
        _ => Err(EvalFault::Raised(Reason::BadArg)),
    }
}

// The values of all parts; the first that has none decides.
#[cycle(evaluate)]
fn values_of<R: Share + Drop, A: Access<R>, V: Variables<R>>(
    caller: &Caller<'_>,
    access: &mut A,
    parts: &[Tree],
    variables: &V,
) -> Result<Vec<Term<R>>, EvalFault<R>>
    requires there { AreThere (A.has access.old) (V.held variables.now) }
    ensures keeps { Keeps A.shown A.has access.old access.new }
    ensures values { (bs : List Bound) → Agrees (A.shown access.old) (V.held variables.now) bs
        → IfOk result (λ values. AllGive (meanings (A.shown access.new) (row values.items)) ≡ results_of (setting caller.now.names.now caller.now.pid) (puts_in bs (trees_of parts.now))) }
    ensures stops { (bs : List Bound) → Agrees (A.shown access.old) (V.held variables.now) bs
        → IfErr result (λ fault. IsStop (A.shown access.new) fault (results_of (setting caller.now.names.now caller.now.pid) (puts_in bs (trees_of parts.now)))) }
    ensures known { IfOk result (λ values. AreKnown (A.has access.new) AnyAtom (row values.items)) }
    ensures reason { IfErr result (λ fault. HasAnswer (A.has access.new) (Err fault)) }
    ensures quiet { MakeNoBits (trees_of parts.now) → A.moved access.old < 2 ^ 64 → A.moved access.new ≡ A.moved access.old }
{
    let mut values = Vec::new(caller.alloc);
    for part in parts {
        match evaluated(caller, access, part, variables) {
            Ok(value) => {
                if values.push(value).is_err() {
                    return Err(EvalFault::NoMemory);
                }
            }
            Err(fault) => return Err(fault),
        }
    }
    Ok(values)
}

fn literal_value<R: Share + Drop, A: Access<R>>(
    caller: &Caller<'_>,
    access: &mut A,
    term: &PlainTerm,
) -> Answer<R>
    ensures keeps { Keeps A.shown A.has access.old access.new }
    ensures is { IsEvaluated (A.shown access.new) result (Gives (value term.now)) }
    ensures known { HasAnswer (A.has access.new) result }
    ensures quiet { bits_inside (value term.now) ≡ 0 → A.moved access.old < 2 ^ 64 → A.moved access.new ≡ A.moved access.old }
{
    match copy(caller.alloc, access, term.term()) {
        Ok(term) => Ok(term),
        Err(_) => Err(EvalFault::NoMemory),
    }
}

fn bound_value<R: Share + Drop, A: Access<R>, V: Variables<R>>(
    access: &A,
    variables: &V,
    variable: u32,
) -> Answer<R>
    requires { AreThere (A.has access.now) (V.held variables.now) }
    ensures is { (s : Setting) (bs : List Bound) → Agrees (A.shown access.now) (V.held variables.now) bs → IsEvaluated (A.shown access.now) result (result_is s (put_in bs (Var variable))) }
    ensures known { HasAnswer (A.has access.now) result }
{
    match variables.value(variable) {
        Some(term) => match term.share() {
            Ok(term) => Ok(term),
            Err(_) => Err(EvalFault::NoMemory),
        },
        None => Err(EvalFault::Raised(Reason::BadArg)),
    }
}

// What a form gives for the values of its parts; a guard has none but those that the values determine.
fn tabled<R: Share + Drop, A: Access<R>>(
    caller: &Caller<'_>,
    access: &mut A,
    form: &Form,
    values: Vec<Term<R>>,
) -> Answer<R>
    requires { AreKnown (A.has access.old) AnyAtom (row values.items) }
    ensures keeps { Keeps A.shown A.has access.old access.new }
    ensures is { IsEvaluated (A.shown access.new) result (tabled_as (setting caller.now.names.now caller.now.pid) (form_of form.now) (meanings (A.shown access.old) (row values.items))) }
    ensures known { HasAnswer (A.has access.new) result }
    ensures quiet { FormMakesNoBits (form_of form.now) → A.moved access.new ≡ A.moved access.old }
{
    match form {
        Form::Table(what) => access.table(caller, what, values),
        _ => Err(EvalFault::Raised(Reason::BadArg)),
    }
}

// The answer where the first part decides: `andalso` needs its second part where the first is `true`, `orelse` where it is `false`.
fn decided<R: Share + Drop, A: Access<R>>(
    access: &A,
    wanted: bool,
    first: Answer<R>,
) -> Option<Answer<R>>
    requires { HasAnswer (A.has access.now) first }
    ensures is { (due second : Evaluation) → IsEvaluated (A.shown access.now) first due
        → MatchOption result (second_of wanted second due ≡ second) (λ answer. IsEvaluated (A.shown access.now) answer (second_of wanted second due)) }
    ensures known { IfSome result (HasAnswer (A.has access.now)) }
{
    match first {
        Ok(Term::Atom(TRUE)) => {
            if wanted {
                None
            } else {
                Some(Ok(Term::Atom(TRUE)))
            }
        }
        Ok(Term::Atom(FALSE)) => {
            if wanted {
                Some(Ok(Term::Atom(FALSE)))
            } else {
                None
            }
        }
        Ok(value) => Some(Err(EvalFault::Raised(Reason::BadArgOf(value)))),
        Err(fault) => Some(Err(fault)),
    }
}
