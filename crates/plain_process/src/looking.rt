//! The seen message that a receive takes.
ghost use Rattle.std.specs.Prelude.{◌≡◌, IfOk, map, length};
ghost use Rattle.code_tree.specs.PlainTerms.{value};
ghost use Rattle.code_tree.specs.Reading.{clauses_of};
ghost use Rattle.code_match.specs.Binds.{bounds};
ghost use Rattle.code_match.specs.Matches.{choice_of};
ghost use Rattle.plain_moves.specs.Worlds.{world_of};
ghost use Rattle.term_value.specs.Local.{looked};
ghost use Rattle.term_value.specs.PutIn.{in_clauses};
ghost use Rattle.term_value.specs.Step as step;
ghost use Rattle.plain_process.specs.Looking.{choice_for, found_in, IsAmong};

use crate::inbox::Inbox;
use code_match::{Bindings, Choice, chosen};
use code_tree::{Clause, Line, PlainTerm};
use plain_moves::Scene;
use std::alloc::AllocError;
use std::slice;

/// What a receive finds among the messages that were seen.
#[derive(Drop)]
pub enum Found<'a> {
    /// The message at this place, with all bindings and the body of the clause that takes it.
    Takes(usize, Bindings, &'a [Line]),
    NoMessage,
    /// A bound is passed.
    Limit,
}

// The clause that takes a message.
fn choose<'a>(
    scene: &Scene<'_>,
    clauses: &'a [Clause],
    bindings: &Bindings,
    message: &PlainTerm,
) -> Result<Choice<'a>, AllocError>
    ensures { IfOk result (λ choice. choice_of choice ≡ choice_for (step.setting (world_of scene.now)) (bounds bindings.now) (clauses_of clauses.now) message.now) }
{
    let caller = scene.caller();
    let values = slice::from_ref(message.term());
    let choice = chosen(&caller, clauses, values, bindings)?;
    Ok(choice)
}

/// The first message that some clause takes (Erlang Reference Manual, "Receive").
pub fn find<'a>(
    scene: &Scene<'_>,
    clauses: &'a [Clause],
    bindings: &Bindings,
    seen: &Inbox,
) -> Result<Found<'a>, AllocError>
    ensures is { IfOk result (λ found. found_in seen.now found ≡ looked (world_of scene.now) (in_clauses (bounds bindings.now) (clauses_of clauses.now)) (map value seen.now)) }
    ensures place { IfOk result (IsAmong (length seen.now)) }
{
    for index in 0..seen.len() {
        let Some(message) = seen.get(index) else {
            return Ok(Found::NoMessage);
        };
        let choice = choose(scene, clauses, bindings, message)?;
        match choice {
            Choice::Chosen(bound, body) => return Ok(Found::Takes(index, bound, body)),
            Choice::NotChosen => {}
            Choice::Limit => return Ok(Found::Limit),
        }
    }
    Ok(Found::NoMessage)
}
