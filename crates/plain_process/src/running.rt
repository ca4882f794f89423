//! Runs to the next ask, or until so many reductions are used.
ghost use Rattle.std.specs.Prelude.{◌≡◌, ◌+◌, ◌≤◌, IfOk, IsTrue};
ghost use Rattle.plain_moves.specs.Worlds.{world_of};
ghost use Rattle.plain_process.specs.Going.{IsReached};

use crate::stage::{Stage, next};
use crate::standing::Standing;
use crate::starting::over;
use plain_moves::Scene;
use process_acts::{Asking, Turn};
use std::alloc::AllocError;
use std::mem;

/// Where a turn ends, and how.
#[derive(Drop)]
pub struct Reached<'a> {
    pub standing: Standing<'a>,
    pub turn: Turn,
}

fn asks_at<'a>(standing: Standing<'a>, asking: Asking) -> Reached<'a>
    ensures { result ≡ record { standing = standing.entry; turn = Turn.Asks asking } }
{
    Reached {
        standing,
        turn: Turn::Asks(asking),
    }
}

fn yields_at<'a>(standing: Standing<'a>) -> Reached<'a>
    ensures { result ≡ record { standing = standing.entry; turn = Turn.Yields } }
{
    Reached {
        standing,
        turn: Turn::Yields,
    }
}

// Whether at least `most` of the reductions that were left at first are used.
fn is_over(first: u32, most: u32, left: u32) -> bool
    ensures { IsTrue result → left + most ≤ first }
{
    most <= first && left <= first - most
}

/// Runs to the next ask, or until at least `most` reductions are used.
pub fn run<'a>(scene: &Scene<'a>, start: Standing<'a>, most: u32) -> Result<Reached<'a>, AllocError>
    ensures { IfOk result (IsReached (world_of scene.now) most start.entry) }
{
    let first = start.left;
    let mut standing = start;
    for _ in 0..u64::MAX {
        let stage = next(scene, standing)?;
        match stage {
            Stage::Asks(resting, asking) => return Ok(asks_at(resting, asking)),
            Stage::On(further) => {
                if is_over(first, most, further.left) {
                    return Ok(yields_at(further));
                }
                standing = further;
            }
        }
    }
    Err(AllocError)
}

/// A turn of the process that stands here.
pub fn turn<'a>(
    scene: &Scene<'a>,
    standing: &mut Standing<'a>,
    most: u32,
) -> Result<Turn, AllocError>
    ensures { IfOk result (λ turn. IsReached (world_of scene.now) most standing.old (record { standing = standing.new; turn = turn })) }
{
    let taken = mem::replace(standing, over(scene.alloc));
    let reached = run(scene, taken, most)?;
    *standing = reached.standing;
    Ok(reached.turn)
}
