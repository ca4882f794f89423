//! What a receive does.
ghost use Rattle.std.specs.Prelude.{◌≡◌, ◌<◌, length, map, remove, IfOk};
ghost use Rattle.code_match.specs.Binds.{bounds};
ghost use Rattle.code_tree.specs.PlainTerms.{value};
ghost use Rattle.code_tree.specs.Reading.{clauses_of};
ghost use Rattle.term_value.specs.Local.{NoMessage, looked};
ghost use Rattle.term_value.specs.PutIn.{in_clauses};
ghost use Rattle.term_value.specs.Step.{World};
ghost use Rattle.plain_moves.specs.Worlds.{world_of};
ghost use Rattle.plain_process.specs.Going.{opens, IsStage};

use crate::looking::{Found, find};
use crate::stage::Stage;
use crate::standing::{Round, Standing};
use code_match::Bindings;
use code_tree::{Clause, Line};
use plain_moves::{Focus, Open, REDUCTIONS, Scene, Stop};
use process_acts::Asking;
use std::alloc::AllocError;

// The message at this place is removed, and the body of the clause that takes it opens.
fn take<'a>(index: usize, body: &'a [Line], bindings: Bindings, round: Round<'a>) -> Standing<'a>
    requires { index < length round.seen }
    ensures { result ≡ opens (Focus.Goes (Open.Body body.entry bindings)) (record round.entry { seen = remove round.entry.seen index }) }
{
    let Round { frames, seen, left } = round;
    let round = Round {
        frames,
        seen: seen.without(index),
        left,
    };
    round.opens(Focus::Goes(Open::Body(body, bindings)))
}

// More messages are asked for where a reduction is left for it.
fn wait<'a>(clauses: &'a [Clause], bindings: Bindings, round: Round<'a>) -> Stage<'a>
    ensures { (w : World) → NoMessage ≡ looked w (in_clauses (bounds bindings) (clauses_of clauses.now)) (map value round.entry.seen) → IsStage w (opens (Focus.Receives clauses.entry bindings) round.entry) result }
{
    if round.left == 0 {
        return Stage::On(round.falls(Stop::Atom(REDUCTIONS)));
    }
    Stage::Asks(
        round.opens(Focus::Receives(clauses, bindings)),
        Asking::More,
    )
}

/// A receive takes the first message that some clause takes, or asks for more (Erlang Reference Manual, "Receive").
pub fn receive<'a>(
    scene: &Scene<'a>,
    clauses: &'a [Clause],
    bindings: Bindings,
    round: Round<'a>,
) -> Result<Stage<'a>, AllocError>
    ensures { IfOk result (IsStage (world_of scene.now) (opens (Focus.Receives clauses.entry bindings) round.entry)) }
{
    let found = find(scene, clauses, &bindings, &round.seen)?;
    match found {
        Found::Takes(index, bound, body) => Ok(Stage::On(take(index, body, bound, round))),
        Found::NoMessage => Ok(wait(clauses, bindings, round)),
        Found::Limit => Ok(Stage::On(round.falls(Stop::Limit))),
    }
}
