ghost use Rattle.std.specs.Prelude.{◌≡◌, IfOk};
ghost use Rattle.code_tree.specs.PlainTerms.{value};
ghost use Rattle.term_value.specs.Tree.{Module};
ghost use Rattle.term_value.specs.Machine.{Process as Played, is_at_rest, receives};
ghost use Rattle.copy_machine.specs.Following.{IsRowOf, IsSound};
ghost use Rattle.copy_machine.specs.Entering.{IsEffect, Conditions, is_gone, conditions};
ghost use Rattle.copy_machine.specs.Proceeding.{KeepsRow};

use crate::act::{Act, Effect};
use crate::actor::Actor;
use crate::ending::Ending;
use crate::want::Want;
use crate::world::World;
use code_tree::PlainTerm;
use process_acts::Process;
use std::alloc::AllocError;
use term_value::Entry;

/// A process of the machine.
#[derive(Drop)]
pub enum Row<P> {
    Running(Actor<P>),
    Ended {
        ending: Ending,
        /// Whether it is gone.
        gone: bool,
    },
}

// Whether the entry says that its process is gone.
fn is_gone(entry: Entry) -> bool
    ensures { result ≡ is_gone entry }
{
    match entry {
        Entry::Gone { .. } => true,
        _ => false,
    }
}

impl<P: Process + Drop> Row<P> {
    /// Does what an entry of its process says, and answers what it does beside that; None where the entry doesn't fit.
    pub fn enter(
        &mut self,
        world: &World<'_>,
        entry: Entry,
        started: usize,
    ) -> Result<Option<Effect<P>>, AllocError>
        requires { IsSound P.code P.local P.waits self.old }
        ensures { IfOk result (λ effect. (s : Conditions) → s ≡ conditions world.now.code.now world.now.reductions started
            → (p : Played) → IsRowOf P.code P.local P.waits s.code p self.old → IsEffect P.code P.local P.waits s entry p effect self.new) }
    {
        match self {
            Row::Running(actor) => match actor.act(world, entry, started)? {
                Act::Refused => Ok(None),
                Act::Goes(effect) => Ok(Some(effect)),
                Act::Ends(ending) => {
                    *self = Row::Ended {
                        ending,
                        gone: false,
                    };
                    Ok(Some(Effect::Nothing))
                }
            },
            Row::Ended { ending: _, gone } => {
                if is_gone(entry) && !*gone {
                    *gone = true;
                    return Ok(Some(Effect::Nothing));
                }
                Ok(None)
            }
        }
    }

    /// Gets a message, if it runs.
    pub fn receive(&mut self, message: PlainTerm) -> Result<(), AllocError>
        ensures { IfOk result (λ _. (code : Module) (p : Played) → IsRowOf P.code P.local P.waits code p self.old → IsRowOf P.code P.local P.waits code (receives (value message) p) self.new) }
    {
        match self {
            Row::Running(actor) => {
                actor.unseen.push(message)?;
                Ok(())
            }
            Row::Ended { .. } => Ok(()),
        }
    }

    /// What it wants next, after a turn of at most so many reductions.
    pub fn want(&mut self, pid: u32, started: usize, most: u32) -> Result<Want, AllocError>
        requires { IsSound P.code P.local P.waits self.old }
        ensures { IfOk result (λ _. KeepsRow P.code P.local P.waits self.old self.new) }
    {
        match self {
            Row::Running(actor) => Ok(actor.want(pid, started, most)?),
            Row::Ended { .. } => Ok(Want::Nothing),
        }
    }

    /// Whether it waits or doesn't run.
    pub fn is_at_rest(&mut self) -> Result<bool, AllocError>
        requires { IsSound P.code P.local P.waits self.old }
        ensures { IfOk result (λ rests. (code : Module) (p : Played) → IsRowOf P.code P.local P.waits code p self.old
            → IsRowOf P.code P.local P.waits code p self.new × (rests ≡ is_at_rest code p)) }
    {
        match self {
            Row::Running(actor) => Ok(actor.is_at_rest()?),
            Row::Ended { .. } => Ok(true),
        }
    }
}
