//! The sizes in patterns.

ghost use Rattle.std.specs.Prelude.{◌≡◌, List, Bool};
ghost use Rattle.match_context.specs.Envs.{Agrees, AreThere, IsSized};
ghost use Rattle.term_value.specs.Guards.{result_of as result_is};
ghost use Rattle.term_value.specs.PutIn.{put_in};
ghost use Rattle.term_value.specs.Result.{Result as Evaluation};
ghost use Rattle.term_value.specs.Tree.{Bound};
ghost use Rattle.code_tree.specs.Reading.{tree_of};
ghost use Rattle.expr_eval.specs.Answers.{IsEvaluated, setting};

use crate::access::Reader;
use crate::evaluation::evaluated;
use crate::variables::Variables;
use bit_store::Store;
use code_tree::Tree;
use expr_eval::{Answer, Caller, EvalFault};
use match_context::Sized128;
use shares::Share;
use term_value::Term;

/// What the size of a segment comes to under the values of variables (Erlang Reference Manual, "Bit Syntax Expressions").
///
/// The store is only read: a bit expression, a bitstring that is a literal, and a built-in function that no guard may call come to
/// `NoMemory`. No size in an accepted module has one.
pub fn size_of<R: Share + Drop, S: Store<R>, V: Variables<R>>(
    caller: &Caller<'_>,
    store: &S,
    tree: &Tree,
    variables: &V,
) -> Sized128
    requires { AreThere (S.has store.now) (V.held variables.now) }
    ensures { (bs : List Bound) → Agrees (S.shown store.now) (V.held variables.now) bs
        → IsSized (result_is (setting caller.now.names.now caller.now.pid) (put_in bs (tree_of tree.now))) result }
{
    let mut reader = Reader { store };
    sized(evaluated(caller, &mut reader, tree, variables))
}

// What a size comes to by its value.
fn sized<R: Drop>(answer: Answer<R>) -> Sized128
    ensures { (shown : R → List Bool) (due : Evaluation) → IsEvaluated shown answer due → IsSized due result }
{
    match answer {
        Ok(Term::Int(number)) => {
            if number < 0 {
                Sized128::Bad
            } else {
                Sized128::Size(number)
            }
        }
        Ok(_) => Sized128::Bad,
        Err(EvalFault::Raised(_)) => Sized128::Bad,
        Err(EvalFault::Limit) => Sized128::Limit,
        Err(EvalFault::NoMemory) => Sized128::NoMemory,
    }
}
