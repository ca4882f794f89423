ghost use Rattle.std.specs.Prelude.{◌≡◌};
ghost use Rattle.expr_eval.specs.Answers.{setting};
ghost use Rattle.term_value.specs.Step as step;
ghost use Rattle.plain_moves.specs.Worlds.{world_of};

use code_tree::Code;
use expr_eval::Caller;
use std::alloc::Global;

/// What a process runs in.
#[derive(Drop)]
pub struct Scene<'a> {
    pub alloc: Global,
    pub code: &'a Code,
    pub pid: u32,
}

impl<'a> Scene<'a> {
    pub fn caller(&self) -> Caller<'_>
        ensures { setting result.names.now result.pid ≡ step.setting (world_of self.now) }
    {
        Caller {
            alloc: self.alloc,
            names: self.code.atoms.items(),
            pid: self.pid,
        }
    }
}
