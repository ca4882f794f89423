//! A process of the plain machine.
ghost use Rattle.std.specs.Prelude.{◌≡◌, IfOk};
ghost use Rattle.code_tree.specs.Reading.{module_meant};
ghost use Rattle.process_acts.specs.Acts.{IsFirst};

use crate::answering::{answer as answer_at, fill, see};
use crate::running::turn;
use crate::standing::Standing;
use crate::starting::start;
use code_tree::{Code, PlainTerm};
use plain_moves::Scene;
use process_acts::{First, Process, Turn};
use std::alloc::{AllocError, Global};

/// A process that runs a module laid out as code.
#[derive(Drop)]
pub struct PlainProcess<'a> {
    scene: Scene<'a>,
    standing: Standing<'a>,
}

impl<'a> PlainProcess<'a> {
    ghost use Rattle.plain_process.specs.Standing.{code_of, local_of};

    /// A process of a module, at its start.
    pub fn new(alloc: Global, code: &'a Code, first: First) -> Result<PlainProcess<'a>, AllocError>
        ensures code { IfOk result (λ process. code_of process ≡ module_meant code.now) }
        ensures begins { IfOk result (λ process. IsFirst first (local_of process)) }
    {
        let scene = Scene {
            alloc,
            code,
            pid: first.pid,
        };
        let standing = start(alloc, first)?;
        Ok(PlainProcess { scene, standing })
    }
}

impl<'a> Process for PlainProcess<'a> {
    ghost use Rattle.plain_process.specs.Standing.{code_of, local_of, waits_of};

    ghost code = { code_of };

    ghost local = { local_of };

    ghost waits = { waits_of };

    fn turn(&mut self, most: u32) -> Result<Turn, AllocError> {
        turn(&self.scene, &mut self.standing, most)
    }

    fn answer(&mut self, answer: PlainTerm) {
        answer_at(self.scene.alloc, &mut self.standing, answer);
    }

    fn see(&mut self, messages: Vec<PlainTerm>) -> Result<(), AllocError> {
        see(self.scene.alloc, &mut self.standing, messages)
    }

    fn fill(&mut self) {
        fill(self.scene.alloc, &mut self.standing);
    }

    fn child(&self, first: First) -> Result<PlainProcess<'a>, AllocError> {
        PlainProcess::new(self.scene.alloc, self.scene.code, first)
    }
}
