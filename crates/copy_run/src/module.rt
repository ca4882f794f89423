ghost use Rattle.std.specs.Prelude.{IfOk};
ghost use Rattle.term_value.specs.Machine.{start_of};
ghost use Rattle.term_value.specs.ReadTrees.{module_of};
ghost use Rattle.copy_machine.specs.Replaying.{IsReplay};
ghost use Rattle.copy_machine.specs.Running.{IsOwnRun};

use crate::starting::start;
use code_layout::lay_out;
use copy_machine::{CopyFault, replay, run};
use module_check::Checked;
use std::alloc::{AllocError, Global};
use term_value::{Entry, Outcome};

/// Runs a module, each process with so many reductions, by an order that is made on the way.
///
/// # Errors
///
/// Memory ran out.
pub fn run_module(alloc: Global, checked: &Checked, reductions: u32) -> Result<Outcome, AllocError>
    ensures { IfOk result (λ outcome. IsOwnRun (start_of (module_of checked.now.vars.items checked.now.tree) reductions) outcome) }
{
    let code = lay_out(alloc, checked.module(), checked.vars())?;
    let machine = start(alloc, &code, reductions)?;
    let outcome = run(alloc, machine)?;
    Ok(outcome)
}

/// Replays an order of a module.
///
/// # Errors
///
/// The place of the first entry that isn't legal, counted from 1; that all are legal and some process isn't gone; or that memory ran out.
pub fn replay_module(
    alloc: Global,
    checked: &Checked,
    reductions: u32,
    entries: Vec<Entry>,
) -> Result<Outcome, CopyFault>
    ensures { IsReplay (start_of (module_of checked.now.vars.items checked.now.tree) reductions) entries.items result }
{
    match lay_out(alloc, checked.module(), checked.vars()) {
        Err(_) => Err(CopyFault::NoMemory),
        Ok(code) => match start(alloc, &code, reductions) {
            Err(_) => Err(CopyFault::NoMemory),
            Ok(machine) => replay(machine, entries),
        },
    }
}
