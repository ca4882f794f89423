ghost use Rattle.std.specs.Prelude.{IfOk};
ghost use Rattle.term_value.specs.Machine.{start_of};
ghost use Rattle.code_tree.specs.Reading.{module_meant};
ghost use Rattle.copy_machine.specs.Following.{Follows};
ghost use Rattle.plain_process.specs.Standing.{code_of, local_of, waits_of};

use code_tree::Code;
use copy_machine::{Machine, World};
use plain_process::PlainProcess;
use std::alloc::{AllocError, Global};

/// The machine at its start: process 1 with the call of `main/0`. Each process has so many reductions.
pub fn start<'a>(
    alloc: Global,
    code: &'a Code,
    reductions: u32,
) -> Result<Machine<'a, PlainProcess<'a>>, AllocError>
    ensures { IfOk result (λ machine. Follows code_of local_of waits_of (start_of (module_meant code.now) reductions) machine) }
{
    let world = World {
        alloc,
        code,
        reductions,
    };
    let first = world.begin()?;
    let process = PlainProcess::new(alloc, code, first)?;
    let machine = Machine::start(world, process)?;
    Ok(machine)
}
