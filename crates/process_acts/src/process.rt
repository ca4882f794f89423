ghost use Rattle.std.specs.Prelude.{◌≡◌, ◌+◌, ◌≤◌, ◌++◌, map, IfOk};
ghost use Rattle.term_value.specs.Local.{Local};
ghost use Rattle.term_value.specs.Tree.{Module};
ghost use Rattle.code_tree.specs.PlainTerms.{value};
ghost use Rattle.process_acts.specs.declared.asking.Turn.TheVariants.{Yields};
ghost use Rattle.process_acts.specs.Acts.{Runs, IsTurn, AwaitsAnswer, AwaitsMessages, Answered, Saw, Filled, IsFirst};

use crate::asking::Turn;
use code_tree::PlainTerm;
use std::alloc::AllocError;

/// With what a process begins.
#[derive(Drop)]
pub struct First {
    pub pid: u32,
    /// The reductions that it may use.
    pub reductions: u32,
    /// The place in the module of the function that it calls; None where there is no such function, and it ends with `undef`.
    pub function: Option<u32>,
    /// The list of the arguments.
    pub arguments: PlainTerm,
}

/// A process.
///
/// Its local state goes on by contractions only, as the definitions have them, and by the answers that it is given. An error says that
/// memory ran out; nothing is said of the process then.
pub trait Process: Sized {
    /// The module whose functions it runs.
    ghost code: { Self → Module };

    /// Its local state.
    ghost local: { Self → Local };

    /// Whether it stands at its ask.
    ghost waits: { Self → Type 0 };

    /// Runs to the next ask, or until `most` reductions are used. It yields only where that many were.
    fn turn(&mut self, most: u32) -> Result<Turn, AllocError>
        ensures code { code self.new ≡ code self.old }
        ensures runs { IfOk result (λ turn. Runs (code self.old) (local self.old) (local self.new)) }
        ensures asks { IfOk result (λ turn. IsTurn (code self.new) (local self.new) (waits self.new) turn) }
        ensures yields { IfOk result (λ turn. turn ≡ Yields → (local self.new).left + most ≤ (local self.old).left) };

    /// Goes on with the answer to a message that was sent, a value that was displayed, or a process that was started.
    fn answer(&mut self, answer: PlainTerm)
        requires waits { waits self.old }
        requires awaits { AwaitsAnswer (code self.old) (local self.old) }
        ensures code { code self.new ≡ code self.old }
        ensures goes { Answered (code self.old) (local self.old) (value answer) (local self.new) };

    /// Goes on with these messages behind those that it has seen.
    fn see(&mut self, messages: Vec<PlainTerm>) -> Result<(), AllocError>
        requires waits { waits self.old }
        requires awaits { AwaitsMessages (code self.old) (local self.old) }
        ensures code { code self.new ≡ code self.old }
        ensures goes { IfOk result (λ _. Saw (code self.old) (local self.old) (map value messages.items) (local self.new)) };

    /// Goes on at a limit, as no more processes may be started.
    fn fill(&mut self)
        requires waits { waits self.old }
        requires awaits { AwaitsAnswer (code self.old) (local self.old) }
        ensures code { code self.new ≡ code self.old }
        ensures goes { Filled (code self.old) (local self.old) (local self.new) };

    /// Another process of the same module.
    fn child(&self, first: First) -> Result<Self, AllocError>
        ensures code { IfOk result (λ other. code other ≡ code self.now) }
        ensures begins { IfOk result (λ other. IsFirst first (local other)) };
}
