ghost use Rattle.std.specs.Prelude.{IfOk};
ghost use Rattle.term_value.specs.Machine as m;
ghost use Rattle.term_value.specs.Outcomes.{IsOutcome};
ghost use Rattle.copy_machine.specs.Following.{Follows, IsFollower};
ghost use Rattle.copy_machine.specs.Replaying.{IsReplay, LeadsOn};

use crate::fault::CopyFault;
use crate::machine::Machine;
use process_acts::Process;
use std::alloc::AllocError;
use term_value::{Entry, Outcome};

// Applies entries in order up to the first that isn't legal, and answers its place, counted from 1.
fn lead<P: Process + Drop>(
    machine: &mut Machine<'_, P>,
    entries: &[Entry],
) -> Result<Option<u64>, AllocError>
    requires { IsFollower P.code P.local P.waits machine.old }
    ensures { IfOk result (λ stop. (start : m.Machine) → Follows P.code P.local P.waits start machine.old → LeadsOn P.code P.local P.waits start entries.now stop machine.new) }
{
    let mut place = 0u64;
    for entry in entries {
        place += 1;
        if !machine.apply(*entry)? {
            return Ok(Some(place));
        }
    }
    Ok(None)
}

/// Replays an order.
///
/// `Illegal` says which entry is the first that isn't legal, and `Incomplete` that all are and some process isn't gone.
pub fn replay<P: Process + Drop>(
    machine: Machine<'_, P>,
    entries: Vec<Entry>,
) -> Result<Outcome, CopyFault>
    requires { IsFollower P.code P.local P.waits machine }
    ensures { (start : m.Machine) → Follows P.code P.local P.waits start machine.entry → IsReplay start entries.items result }
{
    let mut machine = machine;
    match lead(&mut machine, entries.as_slice()) {
        Err(_) => Err(CopyFault::NoMemory),
        Ok(Some(place)) => Err(CopyFault::Illegal(place)),
        Ok(None) => {
            if !machine.all_left() {
                return Err(CopyFault::Incomplete);
            }
            match machine.outcome(entries) {
                Err(_) => Err(CopyFault::NoMemory),
                Ok(outcome) => Ok(outcome),
            }
        }
    }
}
