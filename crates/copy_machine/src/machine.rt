ghost use Rattle.std.specs.Prelude.{◌≡◌, ◌+◌, ◌<◌, ℕ, Option, Some, slice_get, IfOk, length};
ghost use Rattle.std.specs.List.{list_all};
ghost use Rattle.term_value.specs.Machine as m;
ghost use Rattle.term_value.specs.Outcomes.{IsOutcome};
ghost use Rattle.copy_machine.specs.Replaying.{has_left};
ghost use Rattle.code_tree.specs.PlainTerms.{value};
ghost use Rattle.code_tree.specs.Reading.{module_meant};
ghost use Rattle.copy_machine.specs.Following.{Follows, IsFollower};
ghost use Rattle.copy_machine.specs.Entering.{AllRest, Applies, Enters, MayEnter, IsOfCode, IsTimely, RestsAt, pid_of, took};
ghost use Rattle.copy_machine.specs.Proceeding.{Keeps};

use crate::act::Effect;
use crate::actor::Actor;
use crate::entries::{is_stop, pid_of};
use crate::outcome::{all_left, ends_of};
use crate::row::Row;
use crate::want::Want;
use crate::world::World;
use code_tree::PlainTerm;
use erl_syntax::{Listed, Text};
use process_acts::Process;
use std::alloc::AllocError;
use term_value::{Entry, Outcome};

/// The copying machine's state.
#[derive(Drop)]
pub struct Machine<'a, P> {
    world: World<'a>,
    /// The process of pid p stands at p - 1.
    rows: Vec<Row<P>>,
    /// The texts of what was displayed.
    shown: Vec<Text>,
}

impl<'a, P: Process + Drop> Machine<'a, P> {
    /// The machine with this process alone.
    pub fn start(world: World<'a>, first: P) -> Result<Machine<'a, P>, AllocError>
        requires { P.code first ≡ module_meant world.code.now }
        ensures { IfOk result (λ c. Follows P.code P.local P.waits (m.beginning (module_meant world.entry.code.now) world.entry.reductions (P.local first)) c) }
    {
        let mut rows = Vec::new(world.alloc);
        rows.push(Row::Running(Actor {
            process: first,
            unseen: Vec::new(world.alloc),
            ask: None,
        }))?;
        let shown = Vec::new(world.alloc);
        Ok(Machine { world, rows, shown })
    }

    // Whether the process at this place waits or doesn't run.
    fn rests_at(&mut self, index: usize) -> Result<bool, AllocError>
        requires { IsFollower P.code P.local P.waits self.old }
        ensures { IfOk result (λ rests. (machine : m.Machine) → Follows P.code P.local P.waits machine self.old → RestsAt P.code P.local P.waits machine index rests self.new) }
    {
        match self.rows.get_mut(index) {
            None => Ok(true),
            Some(row) => Ok(row.is_at_rest()?),
        }
    }

    // What an entry does to its own process.
    fn enter(&mut self, entry: Entry) -> Result<Option<Effect<P>>, AllocError>
        requires { IsFollower P.code P.local P.waits self.old }
        ensures { IfOk result (λ effect. (machine : m.Machine) → Follows P.code P.local P.waits machine self.old → IsTimely entry machine → Enters P.code P.local P.waits machine entry effect self.new) }
    {
        let pid = pid_of(entry);
        if pid == 0 {
            return Ok(None);
        }
        let started = self.rows.as_slice().len();
        match self.rows.get_mut(pid as usize - 1) {
            None => Ok(None),
            Some(row) => Ok(row.enter(&self.world, entry, started)?),
        }
    }

    // Brings a message to the process of this pid.
    fn deliver(&mut self, to: u32, message: PlainTerm) -> Result<(), AllocError>
        ensures { IfOk result (λ _. (machine : m.Machine) → Follows P.code P.local P.waits machine self.old
            → Follows P.code P.local P.waits (m.delivered machine to (value message) (m.process_at machine to)) self.new) }
    {
        if to == 0 {
            return Ok(());
        }
        match self.rows.get_mut(to as usize - 1) {
            None => Ok(()),
            Some(row) => Ok(row.receive(message)?),
        }
    }

    // Does what an entry does beside what became of its process.
    fn take(&mut self, effect: Effect<P>) -> Result<(), AllocError>
        ensures { IfOk result (λ _. (machine : m.Machine) → Follows P.code P.local P.waits machine self.old → IsOfCode P.code machine.code effect
            → Follows P.code P.local P.waits (took P.local effect machine) self.new) }
    {
        match effect {
            Effect::Nothing => Ok(()),
            Effect::Delivers(to, message) => Ok(self.deliver(to, message)?),
            Effect::Shows(shown) => {
                let text = self.world.text(&shown)?;
                self.shown.push(text)?;
                Ok(())
            }
            Effect::Starts(process) => {
                let unseen = Vec::new(self.world.alloc);
                self.rows.push(Row::Running(Actor {
                    process,
                    unseen,
                    ask: None,
                }))?;
                Ok(())
            }
        }
    }

    // Whether all processes wait or don't run.
    fn all_rest(&mut self) -> Result<bool, AllocError>
        requires { IsFollower P.code P.local P.waits self.old }
        ensures { IfOk result (λ rest. (machine : m.Machine) → Follows P.code P.local P.waits machine self.old → AllRest P.code P.local P.waits machine rest self.new) }
    {
        for index in 0..self.rows.as_slice().len() {
            if !self.rests_at(index)? {
                return Ok(false);
            }
        }
        Ok(true)
    }

    // Whether the entry comes at its time, or no entry of it fits.
    fn may_enter(&mut self, entry: Entry) -> Result<bool, AllocError>
        requires { IsFollower P.code P.local P.waits self.old }
        ensures { IfOk result (λ may. (machine : m.Machine) → Follows P.code P.local P.waits machine self.old → MayEnter P.code P.local P.waits machine entry may self.new) }
    {
        if is_stop(entry) {
            return Ok(self.all_rest()?);
        }
        Ok(true)
    }

    /// Applies an entry, and answers whether it fits: whether it is its process's own next step. Where it doesn't, nothing changed.
    pub fn apply(&mut self, entry: Entry) -> Result<bool, AllocError>
        requires { IsFollower P.code P.local P.waits self.old }
        ensures { IfOk result (λ fits. (machine : m.Machine) → Follows P.code P.local P.waits machine self.old → Applies P.code P.local P.waits machine entry fits self.new) }
    {
        if !self.may_enter(entry)? {
            return Ok(false);
        }
        match self.enter(entry)? {
            None => Ok(false),
            Some(effect) => {
                self.take(effect)?;
                Ok(true)
            }
        }
    }

    /// What the process of this pid wants next, after a turn of at most so many reductions.
    pub fn want(&mut self, pid: u32, most: u32) -> Result<Want, AllocError>
        requires { IsFollower P.code P.local P.waits self.old }
        ensures { IfOk result (λ _. Keeps P.code P.local P.waits self.old self.new) }
    {
        if pid == 0 {
            return Ok(Want::Nothing);
        }
        let started = self.rows.as_slice().len();
        match self.rows.get_mut(pid as usize - 1) {
            None => Ok(Want::Nothing),
            Some(row) => Ok(row.want(pid, started, most)?),
        }
    }

    /// Whether all processes are gone.
    pub fn all_left(&self) -> bool
        ensures { result ≡ list_all has_left self.now.rows.items }
    {
        all_left(self.rows.as_slice())
    }

    /// What a run with this order came to.
    pub fn outcome(self, entries: Vec<Entry>) -> Result<Outcome, AllocError>
        ensures { IfOk result (λ outcome. (machine : m.Machine) → Follows P.code P.local P.waits machine self.entry → IsOutcome machine entries.items outcome) }
    {
        let ends = ends_of(self.world.alloc, self.rows)?;
        Ok(Outcome {
            entries: Listed::of(entries),
            shown: Listed::of(self.shown),
            ends: Listed::of(ends),
        })
    }
}
