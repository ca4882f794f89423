ghost use Rattle.std.specs.Prelude.{IfOk};
ghost use Rattle.copy_machine.specs.Reaching.{Reaches};

use process_acts::{Asking, Process, Turn};
use std::alloc::AllocError;

/// Runs a process to its next ask.
pub fn next_ask<P: Process>(process: &mut P) -> Result<Asking, AllocError>
    ensures { IfOk result (λ ask. Reaches P.code P.local P.waits process.old process.new ask) }
{
    for _ in 0..u64::MAX {
        match process.turn(u32::MAX)? {
            Turn::Yields => {}
            Turn::Asks(ask) => return Ok(ask),
        }
    }
    Err(AllocError)
}
