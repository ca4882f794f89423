//! How a process goes on with the answer to its ask.
ghost use Rattle.std.specs.Prelude.{◌≡◌, IfOk};
ghost use Rattle.plain_process.specs.Going.{answered_course, answered, saw, filled};

use crate::standing::{Course, Standing};
use crate::starting::over;
use code_tree::PlainTerm;
use plain_moves::{Focus, Stop};
use std::alloc::{AllocError, Global};
use std::mem;

impl<'a> Course<'a> {
    // The answer stands where the ask stood.
    fn answered(self, answer: PlainTerm) -> Course<'a>
        ensures { result ≡ answered_course answer self.entry }
    {
        match self {
            Course::At(_, frames) => Course::At(Focus::Value(answer), frames),
            Course::Fell(stop) => Course::Fell(stop),
        }
    }
}

impl<'a> Standing<'a> {
    /// Goes on with an answer.
    pub fn answered(self, answer: PlainTerm) -> Standing<'a>
        ensures { result ≡ answered answer self.entry }
    {
        Standing {
            course: self.course.answered(answer),
            seen: self.seen,
            left: self.left.saturating_sub(1),
        }
    }

    /// Goes on with these messages behind those that were seen. The error says that no memory was left.
    pub fn saw(self, messages: Vec<PlainTerm>) -> Result<Standing<'a>, AllocError>
        ensures { IfOk result (λ standing. standing ≡ saw messages.items self.entry) }
    {
        Ok(Standing {
            course: self.course,
            seen: self.seen.with(messages)?,
            left: self.left.saturating_sub(1),
        })
    }

    /// Goes on at a limit.
    pub fn filled(self) -> Standing<'a>
        ensures { result ≡ filled self.entry }
    {
        Standing {
            course: Course::Fell(Stop::Limit),
            seen: self.seen,
            left: self.left.saturating_sub(1),
        }
    }
}

/// Goes on with an answer where the process stands.
pub fn answer<'a>(alloc: Global, standing: &mut Standing<'a>, answer: PlainTerm)
    ensures { standing.new ≡ answered answer standing.old }
{
    let taken = mem::replace(standing, over(alloc));
    *standing = taken.answered(answer);
}

/// Goes on with these messages where the process stands. The error says that no memory was left.
pub fn see<'a>(
    alloc: Global,
    standing: &mut Standing<'a>,
    messages: Vec<PlainTerm>,
) -> Result<(), AllocError>
    ensures { IfOk result (λ _. standing.new ≡ saw messages.items standing.old) }
{
    let taken = mem::replace(standing, over(alloc));
    *standing = taken.saw(messages)?;
    Ok(())
}

/// Goes on at a limit where the process stands.
pub fn fill<'a>(alloc: Global, standing: &mut Standing<'a>)
    ensures { standing.new ≡ filled standing.old }
{
    let taken = mem::replace(standing, over(alloc));
    *standing = taken.filled();
}
