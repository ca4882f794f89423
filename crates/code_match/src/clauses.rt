//! The choice of a clause.

ghost use Rattle.std.specs.Prelude.{◌≡◌, ◌∷◌, [], IfOk};
ghost use Rattle.term_value.specs.Match as m;
ghost use Rattle.term_layers.specs.Environments as e;
ghost use Rattle.term_value.specs.Seen.{meanings, AreKnown};
ghost use Rattle.term_value.specs.Terms.{row};
ghost use Rattle.bit_store.specs.Stores.{itself};
ghost use Rattle.code_tree.specs.PlainTerms.{IsShort, AnyAtom};
ghost use Rattle.code_tree.specs.Reading.{body_of, clauses_of, guard_of};
ghost use Rattle.expr_eval.specs.Answers.{setting};
ghost use Rattle.code_match.specs.Binds.{bounds};
ghost use Rattle.code_match.specs.Matches.{choice_of};

use crate::bindings::Bindings;
use crate::guards::{Verdict, guard_holds};
use crate::outcome::Matched;
use crate::patterns::each_matched;
use bit_store::Window;
use code_tree::{Clause, Line, Tree};
use erl_syntax::Listed;
use expr_eval::Caller;
use std::alloc::AllocError;
use term_value::Term;

/// The clause that is chosen.
#[derive(Drop)]
pub enum Choice<'a> {
    /// All bindings, and the clause's body.
    Chosen(Bindings, &'a [Line]),
    NotChosen,
    /// A bound is passed.
    Limit,
}

/// The first clause that takes the values (Erlang Reference Manual, "Function Clauses", "Case", "If", "Receive").
pub fn chosen<'a>(
    caller: &Caller<'_>,
    clauses: &'a [Clause],
    values: &[Term<Window>],
    bindings: &Bindings,
) -> Result<Choice<'a>, AllocError>
    requires { AreKnown IsShort AnyAtom (row values.now) }
    ensures { IfOk result (λ choice. choice_of choice ≡ e.chosen (setting caller.now.names.now caller.now.pid) (bounds bindings.now) (clauses_of clauses.now) (meanings itself (row values.now))) }
{
    for clause in clauses {
        match tried(caller, clause, values, bindings)? {
            Choice::NotChosen => {}
            Choice::Chosen(found, body) => return Ok(Choice::Chosen(found, body)),
            Choice::Limit => return Ok(Choice::Limit),
        }
    }
    Ok(Choice::NotChosen)
}

// Whether this clause takes the values.
fn tried<'a>(
    caller: &Caller<'_>,
    clause: &'a Clause,
    values: &[Term<Window>],
    bindings: &Bindings,
) -> Result<Choice<'a>, AllocError>
    requires { AreKnown IsShort AnyAtom (row values.now) }
    ensures { IfOk result (λ choice. choice_of choice ≡ e.chosen (setting caller.now.names.now caller.now.pid) (bounds bindings.now) (clauses_of (clause.now ∷ [])) (meanings itself (row values.now))) }
{
    match each_matched(caller, clause.patterns.items(), values, bindings.again()?)? {
        Matched::Yes(found) => {
            guarded(caller, clause.guard.items(), clause.body.items(), found)
        },
        Matched::No => Ok(Choice::NotChosen),
        Matched::Limit => Ok(Choice::Limit),
    }
}

// The body, where the guard holds under the bindings of the clause's patterns.
fn guarded<'a>(
    caller: &Caller<'_>,
    guard: &[Listed<Tree>],
    body: &'a [Line],
    bindings: Bindings,
) -> Result<Choice<'a>, AllocError>
    ensures { IfOk result (λ choice. choice_of choice ≡ e.matches_in (setting caller.now.names.now caller.now.pid) (m.Yes (bounds bindings)) (guard_of guard.now) (body_of body.now) e.NotChosen) }
{
    match guard_holds(caller, guard, &bindings)? {
        Verdict::Holds => Ok(Choice::Chosen(bindings, body)),
        Verdict::Fails => Ok(Choice::NotChosen),
        Verdict::AtLimit => Ok(Choice::Limit),
    }
}
