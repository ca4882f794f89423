//! What a process comes to by a move.
ghost use Rattle.std.specs.Prelude.{◌≡◌, IfOk};
ghost use Rattle.plain_process.specs.Going.{opens, falls, spent, settled};

use crate::standing::{Course, Round, Standing};
use plain_moves::{Focus, Frame, Move, Open, REDUCTIONS, Stop};
use std::alloc::AllocError;

impl<'a> Round<'a> {
    /// This is open.
    pub fn opens(self, focus: Focus<'a>) -> Standing<'a>
        ensures { result ≡ opens focus.entry self.entry }
    {
        Standing {
            course: Course::At(focus, self.frames),
            seen: self.seen,
            left: self.left,
        }
    }

    /// It fell.
    pub fn falls(self, stop: Stop) -> Standing<'a>
        ensures { result ≡ falls stop self.entry }
    {
        Standing {
            course: Course::Fell(stop),
            seen: self.seen,
            left: self.left,
        }
    }
}

/// The standing at so many reductions less; where fewer are left, the process ended.
fn spend<'a>(cost: u32, standing: Standing<'a>) -> Standing<'a>
    ensures { result ≡ spent cost standing.entry }
{
    let Standing { course, seen, left } = standing;
    if left < cost {
        return Standing {
            course: Course::Fell(Stop::Atom(REDUCTIONS)),
            seen,
            left,
        };
    }
    Standing {
        course,
        seen,
        left: left - cost,
    }
}

// The first part opens within this frame.
fn enter<'a>(frame: Frame<'a>, part: Open<'a>, round: Round<'a>) -> Result<Standing<'a>, AllocError>
    ensures { IfOk result (λ standing. standing ≡ settled (Move.Enters frame.entry part.entry) round.entry) }
{
    let Round {
        mut frames,
        seen,
        left,
    } = round;
    frames.push(frame)?;
    Ok(Standing {
        course: Course::At(Focus::Goes(part), frames),
        seen,
        left,
    })
}

/// What a process comes to by a move.
pub fn settle<'a>(made: Move<'a>, round: Round<'a>) -> Result<Standing<'a>, AllocError>
    ensures { IfOk result (λ standing. standing ≡ settled made.entry round.entry) }
{
    match made {
        Move::Enters(frame, part) => Ok(enter(frame, part, round)?),
        Move::Becomes(focus) => Ok(round.opens(focus)),
        Move::Goes(cost, focus) => Ok(spend(cost, round.opens(focus))),
        Move::Falls(cost, stop) => Ok(spend(cost, round.falls(stop))),
    }
}
