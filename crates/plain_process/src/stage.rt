//! What a process does next.
ghost use Rattle.std.specs.Prelude.{IfOk};
ghost use Rattle.plain_moves.specs.Worlds.{world_of};
ghost use Rattle.term_value.specs.Step.{World};
ghost use Rattle.plain_process.specs.Going.{opens, IsStage};

use crate::asks::{asking_of, ending_of};
use crate::inbox::Inbox;
use crate::receiving::receive;
use crate::settling::settle;
use crate::standing::{Course, Round, Standing};
use code_tree::PlainTerm;
use plain_moves::{Focus, Open, REDUCTIONS, Scene, Stop, Visible, give, open};
use process_acts::Asking;
use std::alloc::AllocError;

/// What a process does next.
#[derive(Drop)]
pub enum Stage<'a> {
    /// It goes on here.
    On(Standing<'a>),
    /// It asks, and rests at its ask.
    Asks(Standing<'a>, Asking),
}

// An open part goes on.
fn go<'a>(scene: &Scene<'a>, part: Open<'a>, round: Round<'a>) -> Result<Stage<'a>, AllocError>
    ensures { IfOk result (IsStage (world_of scene.now) (opens (Focus.Goes part.entry) round.entry)) }
{
    let made = open(scene, part)?;
    Ok(Stage::On(settle(made, round)?))
}

// A value goes to the frame round it; without a frame the process is done.
fn hand<'a>(scene: &Scene<'a>, term: PlainTerm, round: Round<'a>) -> Result<Stage<'a>, AllocError>
    ensures { IfOk result (IsStage (world_of scene.now) (opens (Focus.Value term) round.entry)) }
{
    let Round {
        mut frames,
        seen,
        left,
    } = round;
    match frames.pop() {
        None => {
            let round = Round { frames, seen, left };
            Ok(Stage::Asks(round.opens(Focus::Value(term)), Asking::Done))
        }
        Some(frame) => {
            let made = give(scene, frame, term)?;
            Ok(Stage::On(settle(made, Round { frames, seen, left })?))
        }
    }
}

// A visible act is asked for where a reduction is left for it.
fn ask<'a>(visible: Visible, round: Round<'a>) -> Result<Stage<'a>, AllocError>
    ensures { IfOk result (λ stage. (w : World) → IsStage w (opens (Focus.Asks visible) round.entry) stage) }
{
    if round.left == 0 {
        return Ok(Stage::On(round.falls(Stop::Atom(REDUCTIONS))));
    }
    let asking = asking_of(&visible)?;
    Ok(Stage::Asks(round.opens(Focus::Asks(visible)), asking))
}

// What is open goes on, or asks.
fn part<'a>(scene: &Scene<'a>, focus: Focus<'a>, round: Round<'a>) -> Result<Stage<'a>, AllocError>
    ensures { IfOk result (IsStage (world_of scene.now) (opens focus.entry round.entry)) }
{
    match focus {
        Focus::Goes(part) => Ok(go(scene, part, round)?),
        Focus::Value(term) => Ok(hand(scene, term, round)?),
        Focus::Asks(visible) => Ok(ask(visible, round)?),
        Focus::Receives(clauses, bindings) => Ok(receive(scene, clauses, bindings, round)?),
    }
}

// A process that fell ends.
fn end<'a>(scene: &Scene<'a>, stop: Stop, seen: Inbox, left: u32) -> Result<Stage<'a>, AllocError>
    ensures { IfOk result (IsStage (world_of scene.now) (record { course = Course.Fell stop; seen = seen; left = left })) }
{
    let asking = ending_of(scene.alloc, &stop)?;
    let standing = Standing {
        course: Course::Fell(stop),
        seen,
        left,
    };
    Ok(Stage::Asks(standing, asking))
}

/// What a process does next.
pub fn next<'a>(scene: &Scene<'a>, standing: Standing<'a>) -> Result<Stage<'a>, AllocError>
    ensures { IfOk result (IsStage (world_of scene.now) standing.entry) }
{
    let Standing { course, seen, left } = standing;
    match course {
        Course::At(focus, frames) => Ok(part(scene, focus, Round { frames, seen, left })?),
        Course::Fell(stop) => Ok(end(scene, stop, seen, left)?),
    }
}
