ghost use Rattle.std.specs.Prelude.{◌≡◌, true, IfOk};
ghost use Rattle.term_value.specs.Machine as m;
ghost use Rattle.copy_machine.specs.Following.{Follows};
ghost use Rattle.copy_machine.specs.Running.{GoesOn, GotTo, IsOwnEntry, IsOwnRun, IsUnderWay};

use crate::machine::Machine;
use crate::want::Want;
use process_acts::Process;
use std::alloc::{AllocError, Global};
use term_value::{Entry, Outcome};

/// A run on its way.
#[derive(Drop)]
pub struct Progress<'a, P> {
    pub machine: Machine<'a, P>,
    /// The entries so far.
    pub entries: Vec<Entry>,
}

/// The largest pid.
const PID_BOUND: u32 = 1_024;

// Whether the numbers of an entry are in the ranges of its line, and it counts nothing that is shared.
fn is_own_entry(entry: Entry) -> bool
    ensures { result ≡ true → IsOwnEntry entry }
{
    match entry {
        Entry::Sent { from, to } => 1 <= from && from <= PID_BOUND && 1 <= to && to <= PID_BOUND,
        Entry::Saw { pid, count } => 1 <= pid && pid <= PID_BOUND && 1 <= count,
        Entry::Shown { pid } => 1 <= pid && pid <= PID_BOUND,
        Entry::Started { pid, child } => 1 <= pid
            && pid <= PID_BOUND
            && 1 <= child
            && child <= PID_BOUND,
        Entry::Full { pid } => 1 <= pid && pid <= PID_BOUND,
        Entry::Ended { pid } => 1 <= pid && pid <= PID_BOUND,
        Entry::Stopped { pid } => 1 <= pid && pid <= PID_BOUND,
        Entry::Gone {
            pid,
            births,
            drops,
            moved,
        } => 1 <= pid && pid <= PID_BOUND && births == 0 && drops == 0 && moved == 0,
    }
}

impl<'a, P: Process + Drop> Progress<'a, P> {
    /// The run at its start.
    pub fn begin(alloc: Global, machine: Machine<'a, P>) -> Progress<'a, P>
        ensures { (start : m.Machine) → Follows P.code P.local P.waits start machine.entry → GotTo P.code P.local P.waits start result }
    {
        Progress {
            machine,
            entries: Vec::new(alloc),
        }
    }

    /// What the process of this pid wants next, after a turn of at most so many reductions.
    pub fn want(&mut self, pid: u32, most: u32) -> Result<Want, AllocError>
        requires { IsUnderWay P.code P.local P.waits self.old }
        ensures { IfOk result (λ _. GoesOn P.code P.local P.waits self.old self.new) }
    {
        let want = self.machine.want(pid, most)?;
        Ok(want)
    }

    /// Enters the next entry of the run. The error says that memory ran out, or that the entry doesn't fit.
    pub fn enter(&mut self, entry: Entry) -> Result<(), AllocError>
        requires { IsUnderWay P.code P.local P.waits self.old }
        ensures { IfOk result (λ _. GoesOn P.code P.local P.waits self.old self.new) }
    {
        if !is_own_entry(entry) {
            return Err(AllocError);
        }
        if !self.machine.apply(entry)? {
            return Err(AllocError);
        }
        self.entries.push(entry)?;
        Ok(())
    }

    /// What the run came to. The error says that memory ran out, or that some process isn't gone.
    pub fn finish(self) -> Result<Outcome, AllocError>
        ensures { IfOk result (λ outcome. (start : m.Machine) → GotTo P.code P.local P.waits start self.entry → IsOwnRun start outcome) }
    {
        if !self.machine.all_left() {
            return Err(AllocError);
        }
        let outcome = self.machine.outcome(self.entries)?;
        Ok(outcome)
    }
}
