//! Where a process begins.
ghost use Rattle.std.specs.Prelude.{◌≡◌, IfOk};
ghost use Rattle.term_value.specs.Machine.{call_of};
ghost use Rattle.term_value.specs.Setting.{Setting};
ghost use Rattle.term_value.specs.Step.{World};
ghost use Rattle.term_value.specs.Value as V;
ghost use Rattle.code_tree.specs.PlainTerms.{value};
ghost use Rattle.process_acts.specs.Acts.{IsFirst};
ghost use Rattle.plain_process.specs.Standing.{course_in, local_in};

use crate::arguments::arguments_of;
use crate::inbox::Inbox;
use crate::standing::{Course, Standing};
use code_tree::PlainTerm;
use plain_moves::{Focus, Open, Stack, Stop, UNDEF};
use process_acts::First;
use std::alloc::{AllocError, Global};

// The call of the function at this place of the module; without a place, `undef`.
fn called<'a>(
    alloc: Global,
    function: Option<u32>,
    arguments: &PlainTerm,
) -> Result<Course<'a>, AllocError>
    ensures { IfOk result (λ course. (s : Setting) (vs : V.Values) → value arguments.now ≡ V.VList vs → course_in s course ≡ call_of function vs) }
{
    match function {
        None => Ok(Course::Fell(Stop::Atom(UNDEF))),
        Some(function) => {
            let arguments = arguments_of(alloc, arguments)?;
            let call = Open::Call(function, arguments);
            Ok(Course::At(Focus::Goes(call), Stack::new(alloc)))
        }
    }
}

/// Where a process begins.
pub fn start<'a>(alloc: Global, first: First) -> Result<Standing<'a>, AllocError>
    ensures { IfOk result (λ standing. (w : World) → w.pid ≡ first.pid → IsFirst first (local_in w standing)) }
{
    let course = called(alloc, first.function, &first.arguments)?;
    Ok(Standing {
        course,
        seen: Inbox::new(alloc),
        left: first.reductions,
    })
}

/// Where no process stands any more.
pub fn over<'a>(alloc: Global) -> Standing<'a> {
    Standing {
        course: Course::Fell(Stop::Limit),
        seen: Inbox::new(alloc),
        left: 0,
    }
}
