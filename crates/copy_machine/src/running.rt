ghost use Rattle.std.specs.Prelude.{IfOk};
ghost use Rattle.term_value.specs.Machine as m;
ghost use Rattle.copy_machine.specs.Following.{Follows, IsFollower};
ghost use Rattle.copy_machine.specs.Running.{GoesOn, IsOwnRun, IsUnderWay};

use crate::machine::Machine;
use crate::progress::Progress;
use crate::queue::Queue;
use crate::want::Want;
use process_acts::Process;
use std::alloc::{AllocError, Global};
use term_value::{Entry, Outcome};

/// The most reductions of a turn.
const TURN: u32 = 4_000;

// The process leaves, which ended or was stopped.
fn leave<P: Process + Drop>(
    progress: &mut Progress<'_, P>,
    last: Entry,
    pid: u32,
) -> Result<(), AllocError>
    requires { IsUnderWay P.code P.local P.waits progress.old }
    ensures { IfOk result (λ _. GoesOn P.code P.local P.waits progress.old progress.new) }
{
    progress.enter(last)?;
    progress.enter(Entry::Gone {
        pid,
        births: 0,
        drops: 0,
        moved: 0,
    })?;
    Ok(())
}

// Enters what a process wants.
fn enter<P: Process + Drop>(progress: &mut Progress<'_, P>, entry: Entry) -> Result<(), AllocError>
    requires { IsUnderWay P.code P.local P.waits progress.old }
    ensures { IfOk result (λ _. GoesOn P.code P.local P.waits progress.old progress.new) }
{
    match entry {
        Entry::Ended { pid } => Ok(leave(progress, entry, pid)?),
        _ => Ok(progress.enter(entry)?),
    }
}

// Gives a process its turn.
fn serve<P: Process + Drop>(
    progress: &mut Progress<'_, P>,
    queue: &mut Queue,
    pid: u32,
) -> Result<(), AllocError>
    requires { IsUnderWay P.code P.local P.waits progress.old }
    ensures { IfOk result (λ _. GoesOn P.code P.local P.waits progress.old progress.new) }
{
    match progress.want(pid, TURN)? {
        Want::Nothing => Ok(()),
        Want::Turn => Ok(queue.add(pid)?),
        Want::Message => {
            queue.rest(pid);
            Ok(())
        }
        Want::Enters(entry) => {
            enter(progress, entry)?;
            queue.follow(entry)?;
            Ok(())
        }
    }
}

// Gives processes their turns in order, until each waits or is gone.
fn serve_all<P: Process + Drop>(
    progress: &mut Progress<'_, P>,
    queue: &mut Queue,
) -> Result<(), AllocError>
    requires { IsUnderWay P.code P.local P.waits progress.old }
    ensures { IfOk result (λ _. GoesOn P.code P.local P.waits progress.old progress.new) }
{
    for _ in 0..u64::MAX {
        match queue.next() {
            None => return Ok(()),
            Some(pid) => serve(progress, queue, pid)?,
        }
    }
    Err(AllocError)
}

// Stops the processes that wait; that of pid p stands at p - 1.
fn stop<P: Process + Drop>(progress: &mut Progress<'_, P>, waits: &[bool]) -> Result<(), AllocError>
    requires { IsUnderWay P.code P.local P.waits progress.old }
    ensures { IfOk result (λ _. GoesOn P.code P.local P.waits progress.old progress.new) }
{
    let mut pid = 0u32;
    for waiting in waits {
        match pid.checked_add(1) {
            None => return Err(AllocError),
            Some(next) => pid = next,
        }
        if *waiting {
            leave(progress, Entry::Stopped { pid }, pid)?;
        }
    }
    Ok(())
}

/// Runs a machine to its end, by an order that is made on the way. Processes that can go on have turns, the one that waited longest
/// first, each up to its next entry or 4,000 reductions; when none can go on, those that wait for a message are stopped.
///
/// # Errors
///
/// Memory ran out.
pub fn run<P: Process + Drop>(alloc: Global, machine: Machine<'_, P>) -> Result<Outcome, AllocError>
    requires { IsFollower P.code P.local P.waits machine }
    ensures { IfOk result (λ outcome. (start : m.Machine) → Follows P.code P.local P.waits start machine.entry → IsOwnRun start outcome) }
{
    let mut progress = Progress::begin(alloc, machine);
    let mut queue = Queue::new(alloc)?;
    serve_all(&mut progress, &mut queue)?;
    let waits = queue.waits();
    stop(&mut progress, waits.as_slice())?;
    let outcome = progress.finish()?;
    Ok(outcome)
}
