//! Guard expressions and guards.

ghost use Rattle.std.specs.Prelude.{◌≡◌, List, Bool, IfOk};
ghost use Rattle.bit_store.specs.Stores.{AnyAtom, Keeps};
ghost use Rattle.match_context.specs.Envs.{Agrees};
ghost use Rattle.term_value.specs.Guards.{result_of as result_is, guard_holds as holds, all_hold as hold, verdict_of as verdict_is};
ghost use Rattle.term_value.specs.PutIn.{put_in, puts_in, in_guard};
ghost use Rattle.term_value.specs.Result.{Result as Evaluation};
ghost use Rattle.term_value.specs.Tree.{Bound};
ghost use Rattle.code_tree.specs.Reading.{tree_of, trees_of, guard_of};
ghost use Rattle.expr_eval.specs.Answers.{IsEvaluated, HasAnswer, setting};
ghost use Rattle.proc_values.specs.Binds.{term_in, AreBound};
ghost use Rattle.proc_values.specs.MadeBits.{MakesNoBits, MakeNoBits, GuardMakesNoBits};
ghost use Rattle.proc_values.specs.Verdicts.{verdict};

use crate::bindings::Bindings;
use crate::evaluation::{TRUE, evaluated};
use crate::storage::Storage;
use bit_store::Store;
use code_tree::Tree;
use erl_syntax::Listed;
use expr_eval::{Answer, Caller, EvalFault};
use shares::Share;
use std::alloc::AllocError;
use term_value::Term;

/// Whether a guard holds (Erlang Reference Manual, "Expressions", Guard Sequences).
#[derive(Clone, Copy, Debug, PartialEq, Eq)]
pub enum Verdict {
    Holds,
    Fails,
    /// A bound is passed, which no guard hides.
    AtLimit,
}

/// The result of a guard expression under bindings (Erlang Reference Manual, "Expressions", Guard Expressions).
///
/// What no guard may have raises `badarg`. Each reference shows what it showed before, refused or not.
pub fn result_of<R: Share + Drop, S: Store<R>>(
    caller: &Caller<'_>,
    storage: &mut Storage<S>,
    tree: &Tree,
    bindings: &Bindings<R>,
) -> Answer<R>
    requires { AreBound (S.has storage.old.store) AnyAtom bindings.now }
    ensures keeps { Keeps S.shown S.has storage.old.store storage.new.store }
    ensures is { (bs : List Bound) → Agrees (S.shown storage.old.store) (term_in bindings.now) bs
        → IsEvaluated (S.shown storage.new.store) result (result_is (setting caller.now.names.now caller.now.pid) (put_in bs (tree_of tree.now))) }
    ensures known { HasAnswer (S.has storage.new.store) result }
    ensures quiet { MakesNoBits (tree_of tree.now) → storage.new.steps.moved ≡ storage.old.steps.moved }
{
    // read for its range alone
    let _moved = storage.steps.moved;
    evaluated(caller, storage, tree, bindings)
}

/// Whether a guard holds under bindings: one of its alternatives does, of which the first that doesn't fail decides.
///
/// Each reference shows what it showed before. The error says that no memory was left.
pub fn guard_holds<R: Share + Drop, S: Store<R>>(
    caller: &Caller<'_>,
    storage: &mut Storage<S>,
    guard: &[Listed<Tree>],
    bindings: &Bindings<R>,
) -> Result<Verdict, AllocError>
    requires { AreBound (S.has storage.old.store) AnyAtom bindings.now }
    ensures keeps { Keeps S.shown S.has storage.old.store storage.new.store }
    ensures is { (bs : List Bound) → Agrees (S.shown storage.old.store) (term_in bindings.now) bs
        → IfOk result (λ found. verdict found ≡ holds (setting caller.now.names.now caller.now.pid) (in_guard bs (guard_of guard.now))) }
    ensures quiet { GuardMakesNoBits (guard_of guard.now) → storage.new.steps.moved ≡ storage.old.steps.moved }
{
    for tests in guard {
        match all_hold(caller, storage, tests.items(), bindings)? {
            Verdict::Fails => {}
            Verdict::Holds => return Ok(Verdict::Holds),
            Verdict::AtLimit => return Ok(Verdict::AtLimit),
        }
    }
    Ok(Verdict::Fails)
}

// Whether all tests hold; the first that doesn't decides.
fn all_hold<R: Share + Drop, S: Store<R>>(
    caller: &Caller<'_>,
    storage: &mut Storage<S>,
    tests: &[Tree],
    bindings: &Bindings<R>,
) -> Result<Verdict, AllocError>
    requires { AreBound (S.has storage.old.store) AnyAtom bindings.now }
    ensures keeps { Keeps S.shown S.has storage.old.store storage.new.store }
    ensures is { (bs : List Bound) → Agrees (S.shown storage.old.store) (term_in bindings.now) bs
        → IfOk result (λ found. verdict found ≡ hold (setting caller.now.names.now caller.now.pid) (puts_in bs (trees_of tests.now))) }
    ensures quiet { MakeNoBits (trees_of tests.now) → storage.new.steps.moved ≡ storage.old.steps.moved }
{
    for test in tests {
        match verdict_of(result_of(caller, storage, test, bindings))? {
            Verdict::Holds => {}
            Verdict::Fails => return Ok(Verdict::Fails),
            Verdict::AtLimit => return Ok(Verdict::AtLimit),
        }
    }
    Ok(Verdict::Holds)
}

// A test holds where its value is `true`.
fn verdict_of<R: Drop>(answer: Answer<R>) -> Result<Verdict, AllocError>
    ensures { (shown : R → List Bool) (due : Evaluation) → IsEvaluated shown answer due → IfOk result (λ found. verdict found ≡ verdict_is due) }
{
    match answer {
        Ok(Term::Atom(TRUE)) => Ok(Verdict::Holds),
        Ok(_) => Ok(Verdict::Fails),
        Err(EvalFault::Raised(_)) => Ok(Verdict::Fails),
        Err(EvalFault::Limit) => Ok(Verdict::AtLimit),
        Err(EvalFault::NoMemory) => Err(AllocError),
    }
}
