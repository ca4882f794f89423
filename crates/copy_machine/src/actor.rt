ghost use Rattle.std.specs.Prelude.{◌≡◌, ◌&&◌, ◌+◌, ℕ, IfOk, nat_eq, nat_le};
ghost use Rattle.code_tree.specs.Reading.{module_meant};
ghost use Rattle.code_tree.specs.PlainTerms.{value};
ghost use Rattle.process_acts.specs.Acts.{AwaitsAnswer};
ghost use Rattle.term_value.specs.Machine.{process_bound};
ghost use Rattle.copy_machine.specs.Following.{StandsAt};
ghost use Rattle.copy_machine.specs.Entering.{Acts, Answers, Rests, Conditions, Settles, conditions};
ghost use Rattle.copy_machine.specs.Proceeding.{KeepsActor};

use crate::act::{Act, Effect};
use crate::asks::{called_by, ended_by, is_more, is_start, message_to, shown_by};
use crate::ending::Ending;
use crate::next_ask::next_ask;
use crate::want::Want;
use crate::world::World;
use code_tree::PlainTerm;
use process_acts::{Asking, Process, Turn};
use shares::Share;
use std::alloc::{AllocError, Global};
use std::mem;
use term_value::{Entry, Term};

/// A process that runs.
#[derive(Drop)]
pub struct Actor<P> {
    pub process: P,
    /// The messages that it hasn't seen, the oldest first.
    pub unseen: Vec<PlainTerm>,
    /// Its ask, where it stands at one.
    pub ask: Option<Asking>,
}

/// The number of the atom `true`.
const TRUE: u32 = 11;

/// The most processes that may be started in a run.
pub const PROCESS_BOUND: usize = 1_024;

// Whether the pid is the one after those that were started, and no larger than a pid may be.
fn is_next(child: u32, started: usize) -> bool
    ensures { result ≡ (nat_eq child (started + 1) && nat_le child process_bound) }
{
    if started >= PROCESS_BOUND {
        return false;
    }
    child as usize == started + 1 && child as usize <= PROCESS_BOUND
}

// Whether no more processes may be started.
fn is_full(started: usize) -> bool
    ensures { result ≡ nat_eq started process_bound }
{
    started == PROCESS_BOUND
}

// Whether the count is that of the unseen messages, of which there are some.
fn is_all(count: u32, unseen: usize) -> bool
    ensures { result ≡ (nat_eq count unseen && nat_le 1 count) }
{
    count as usize == unseen && 1 <= count
}

impl<P: Process + Drop> Actor<P> {
    /// Runs to its ask.
    pub fn settle(&mut self) -> Result<(), AllocError>
        requires { StandsAt P.code P.local P.waits self.old.process self.old.ask }
        ensures { IfOk result (λ _. Settles P.code P.local P.waits self.old self.new) }
    {
        if self.ask.is_some() {
            return Ok(());
        }
        let ask = next_ask(&mut self.process)?;
        self.ask = Some(ask);
        Ok(())
    }

    // Goes on with the answer to its ask.
    fn answer(&mut self, answer: PlainTerm)
        requires waits { P.waits self.old.process }
        requires awaits { AwaitsAnswer (P.code self.old.process) (P.local self.old.process) }
        ensures { Answers P.code P.local (value answer) self.old self.new }
    {
        self.process.answer(answer);
        self.ask = None;
    }

    // Sends a message to this pid.
    fn send(&mut self, to: u32) -> Result<Act<P>, AllocError>
        requires { StandsAt P.code P.local P.waits self.old.process self.old.ask }
        ensures { IfOk result (λ act. (s : Conditions) (pid : ℕ) → Acts P.code P.local P.waits s (Entry.Sent pid to) self.old act self.new) }
    {
        self.settle()?;
        match message_to(&self.ask, to)? {
            None => Ok(Act::Refused),
            Some(message) => {
                let copy = message.share()?;
                self.answer(copy);
                Ok(Act::Goes(Effect::Delivers(to, message)))
            }
        }
    }

    // Displays a value.
    fn show(&mut self) -> Result<Act<P>, AllocError>
        requires { StandsAt P.code P.local P.waits self.old.process self.old.ask }
        ensures { IfOk result (λ act. (s : Conditions) (pid : ℕ) → Acts P.code P.local P.waits s (Entry.Shown pid) self.old act self.new) }
    {
        self.settle()?;
        match shown_by(&self.ask)? {
            None => Ok(Act::Refused),
            Some(shown) => {
                let yes = PlainTerm::of(Term::Atom(TRUE));
                self.answer(yes);
                Ok(Act::Goes(Effect::Shows(shown)))
            }
        }
    }

    // Ends.
    fn end(&mut self, world: &World<'_>) -> Result<Act<P>, AllocError>
        requires { StandsAt P.code P.local P.waits self.old.process self.old.ask }
        ensures { IfOk result (λ act. (s : Conditions) (pid : ℕ) → s.code ≡ module_meant world.now.code.now → Acts P.code P.local P.waits s (Entry.Ended pid) self.old act self.new) }
    {
        self.settle()?;
        match ended_by(world, &self.ask)? {
            None => Ok(Act::Refused),
            Some(ending) => Ok(Act::Ends(ending)),
        }
    }

    // Sees all unseen messages, so many.
    fn see(&mut self, alloc: Global, count: u32) -> Result<Act<P>, AllocError>
        requires { StandsAt P.code P.local P.waits self.old.process self.old.ask }
        ensures { IfOk result (λ act. (s : Conditions) (pid : ℕ) → Acts P.code P.local P.waits s (Entry.Saw pid count) self.old act self.new) }
    {
        self.settle()?;
        if is_more(&self.ask) {
            if is_all(count, self.unseen.as_slice().len()) {
                let messages = mem::replace(&mut self.unseen, Vec::new(alloc));
                self.process.see(messages)?;
                self.ask = None;
                Ok(Act::Goes(Effect::Nothing))
            } else {
                Ok(Act::Refused)
            }
        } else {
            Ok(Act::Refused)
        }
    }

    // Goes on where no more processes may be started.
    fn fill(&mut self, started: usize) -> Result<Act<P>, AllocError>
        requires { StandsAt P.code P.local P.waits self.old.process self.old.ask }
        ensures { IfOk result (λ act. (s : Conditions) (pid : ℕ) → s.started ≡ started → Acts P.code P.local P.waits s (Entry.Full pid) self.old act self.new) }
    {
        self.settle()?;
        if is_start(&self.ask) {
            if is_full(started) {
                self.process.fill();
                self.ask = None;
                Ok(Act::Goes(Effect::Nothing))
            } else {
                Ok(Act::Refused)
            }
        } else {
            Ok(Act::Refused)
        }
    }

    // Starts the process of this pid.
    fn start(&mut self, world: &World<'_>, child: u32, started: usize) -> Result<Act<P>, AllocError>
        requires { StandsAt P.code P.local P.waits self.old.process self.old.ask }
        ensures { IfOk result (λ act. (s : Conditions) (pid : ℕ) → s ≡ conditions world.now.code.now world.now.reductions started → Acts P.code P.local P.waits s (Entry.Started pid child) self.old act self.new) }
    {
        self.settle()?;
        if is_next(child, started) {
            match called_by(&self.ask)? {
                None => Ok(Act::Refused),
                Some(call) => {
                    let first = world.first(call, child)?;
                    let process = self.process.child(first)?;
                    let pid = PlainTerm::of(Term::Pid(child));
                    self.answer(pid);
                    Ok(Act::Goes(Effect::Starts(process)))
                }
            }
        } else {
            Ok(Act::Refused)
        }
    }

    /// Does what an entry of its process says.
    ///
    /// That the process may be stopped now, and that its pid is the entry's, is for the caller to see.
    pub fn act(
        &mut self,
        world: &World<'_>,
        entry: Entry,
        started: usize,
    ) -> Result<Act<P>, AllocError>
        requires { StandsAt P.code P.local P.waits self.old.process self.old.ask }
        ensures { IfOk result (λ act. (s : Conditions) → s ≡ conditions world.now.code.now world.now.reductions started → Acts P.code P.local P.waits s entry self.old act self.new) }
    {
        match entry {
            Entry::Sent { from: _, to } => Ok(self.send(to)?),
            Entry::Saw { pid: _, count } => Ok(self.see(world.alloc, count)?),
            Entry::Shown { pid: _ } => Ok(self.show()?),
            Entry::Started { pid: _, child } => Ok(self.start(world, child, started)?),
            Entry::Full { pid: _ } => Ok(self.fill(started)?),
            Entry::Ended { pid: _ } => Ok(self.end(world)?),
            Entry::Stopped { pid: _ } => Ok(Act::Ends(Ending::Waiting)),
            Entry::Gone { .. } => Ok(Act::Refused),
        }
    }

    // Runs by a turn, where it isn't at its ask.
    fn proceed(&mut self, most: u32) -> Result<(), AllocError>
        requires { StandsAt P.code P.local P.waits self.old.process self.old.ask }
        ensures { IfOk result (λ _. KeepsActor P.code P.local P.waits self.old self.new) }
    {
        if self.ask.is_some() {
            return Ok(());
        }
        match self.process.turn(most)? {
            Turn::Yields => Ok(()),
            Turn::Asks(ask) => {
                self.ask = Some(ask);
                Ok(())
            }
        }
    }

    /// What it wants next, after a turn of at most so many reductions. This is its pid, and so many processes were started.
    pub fn want(&mut self, pid: u32, started: usize, most: u32) -> Result<Want, AllocError>
        requires { StandsAt P.code P.local P.waits self.old.process self.old.ask }
        ensures { IfOk result (λ _. KeepsActor P.code P.local P.waits self.old self.new) }
    {
        self.proceed(most)?;
        let unseen = self.unseen.as_slice().len();
        let want = Want::of(&self.ask, pid, started, unseen)?;
        Ok(want)
    }

    /// Whether it waits: it asks for more messages, and has seen all.
    pub fn is_at_rest(&mut self) -> Result<bool, AllocError>
        requires { StandsAt P.code P.local P.waits self.old.process self.old.ask }
        ensures { IfOk result (λ rests. Rests P.code P.local P.waits self.old rests self.new) }
    {
        if self.unseen.as_slice().len() > 0 {
            return Ok(false);
        }
        self.settle()?;
        Ok(is_more(&self.ask))
    }
}
