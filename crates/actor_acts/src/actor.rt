ghost use Rattle.std.specs.Prelude.{◌≡◌, ℕ, IfOk, IfErr};
ghost use Rattle.term_value.specs.Local.{Local};
ghost use Rattle.term_value.specs.Parcel.{child_of};
ghost use Rattle.term_value.specs.Tree.{Module};
ghost use Rattle.actor_acts.specs.Slices.{IsSlice, Awaits, IsAnswered, AreMessages, AreItemsBounded, HasEnded, IsAccount};

use crate::ask::{Account, Answer, Ask};
use off_heap::Parcel;
use std::collections::VecDeque;

/// How many reductions a slice uses at most.
pub const SLICE_REDUCTIONS: u32 = 4_000;

/// A process with storage of its own.
///
/// Its local state goes on by contractions only, as the definitions have them, and by the answers that it is given.
pub trait Actor: Sized {
    /// The module whose functions it runs.
    ghost code: { Self → Module };

    /// How many reductions each process of the run may use.
    ghost reductions: { Self → ℕ };

    /// Its local state.
    ghost local: { Self → Local };

    /// Whether it stands at its ask.
    ghost waits: { Self → Type 0 };

    /// How many bits it has moved.
    ghost moved: { Self → ℕ };

    /// Runs to the next ask, or until it has used `SLICE_REDUCTIONS` and could go on. After NoMemory nothing is said of it.
    fn slice(&mut self) -> Ask
        ensures code { code self.new ≡ code self.old }
        ensures reductions { reductions self.new ≡ reductions self.old }
        ensures runs { IsSlice (code self.old) (local self.old) (local self.new) (waits self.new) result };

    /// Goes on with the answer to its ask. Takes no memory.
    fn answer(&mut self, answer: Answer)
        requires waits { waits self.old }
        requires awaits { Awaits (code self.old) (local self.old) answer }
        requires messages { AreMessages answer }
        ensures code { code self.new ≡ code self.old }
        ensures reductions { reductions self.new ≡ reductions self.old }
        ensures goes { IsAnswered (code self.old) (local self.old) answer (local self.new) }
        ensures moved { moved self.new ≡ moved self.old };

    /// The process that is started by this call. The error hands the parcel back: memory was wanting.
    fn child(&self, pid: u32, first: Parcel) -> Result<Self, Parcel>
        requires { AreItemsBounded first }
        ensures code { IfOk result (λ other. code other ≡ code self.now) }
        ensures reductions { IfOk result (λ other. reductions other ≡ reductions self.now) }
        ensures begins { IfOk result (λ other. local other ≡ child_of (code self.now) (reductions self.now) pid first) }
        ensures moved { IfOk result (λ other. moved other ≡ 0) }
        ensures back { IfErr result (λ parcel. parcel ≡ first) };

    /// Drops all that it has, and the messages that came and weren't seen. Takes no memory.
    fn finish(&mut self, rest: VecDeque<Parcel>) -> Account
        requires waits { waits self.old }
        requires ended { HasEnded (code self.old) (local self.old) }
        ensures { IsAccount (moved self.old) result };
}
