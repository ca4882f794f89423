ghost use Rattle.std.specs.Prelude.{◌≡◌, ◌⊎◌, ◌++◌, ℕ, List, IfOk, IfErr};
ghost use Rattle.erl_syntax.specs.Atoms.{fixed_atoms};
ghost use Rattle.erl_syntax.specs.Reading.{Reads, StandOnce};
ghost use Rattle.erl_syntax.specs.Checking.{IsFirstFault};
ghost use Rattle.erl_syntax.specs.declared.module.Module.{Module};
ghost use Rattle.erl_syntax.specs.declared.checking.CheckCause.TheVariants as c;
ghost use Rattle.clause_read.specs.ReadText.{IsReadFault};
ghost use Rattle.clause_read.specs.declared.read.ReadCause.TheVariants as r;
ghost use Rattle.module_accept.specs.Accepting.{Accepts};
ghost use Rattle.module_accept.specs.Outcome.{Refuses};

use crate::causes::{check_text, read_text};
use crate::lines::line;
use clause_read::{ReadCause, ReadFault, atoms_stand_once, read_module};
use erl_syntax::{CheckCause, CheckFault, Span};
use module_check::{Checked, check};
use std::alloc::{AllocError, Global};

/// Why a text isn't accepted.
#[derive(Debug, Drop)]
pub enum Refusal {
    Memory,
    /// The line of the first fault, with its line feed.
    Line(Vec<u8>),
}

impl From<AllocError> for Refusal {
    ghost use Rattle.module_accept.specs.declared.accepting.Refusal.TheVariants.{Memory};
    ghost use Rattle.std.specs.Prelude.{◌≡◌};

    ghost from_gives = { λ _ e. e ≡ Memory };

    fn from(_: AllocError) -> Refusal {
        Refusal::Memory
    }
}

/// The refusal of a fault of reading.
fn unread(alloc: Global, fault: ReadFault) -> Refusal
    ensures told { (text : List ℕ) → IsReadFault text fault → Refuses text result }
    ensures memory { fault.why ≡ r.NoMemory → result ≡ Refusal.Memory }
{
    if fault.why == ReadCause::NoMemory {
        return Refusal::Memory;
    }
    let at = Span {
        line: fault.line,
        column: fault.column,
    };
    match line(alloc, at, read_text(fault.why)) {
        Ok(line) => Refusal::Line(line),
        Err(_) => Refusal::Memory,
    }
}

/// The refusal of a fault of a module.
fn unchecked(alloc: Global, fault: CheckFault) -> Refusal
    ensures told { (text : List ℕ) (m : Module) → Reads text m → (fault.why ≡ c.NoMemory) ⊎ IsFirstFault m fault.span fault.why → Refuses text result }
    ensures memory { fault.why ≡ c.NoMemory → result ≡ Refusal.Memory }
{
    if fault.why == CheckCause::NoMemory {
        return Refusal::Memory;
    }
    match line(alloc, fault.span, check_text(fault.why)) {
        Ok(line) => Refusal::Line(line),
        Err(_) => Refusal::Memory,
    }
}

/// The module of a text, where it is accepted.
///
/// # Errors
///
/// The line of the text's first fault, or that memory ran out.
pub fn accept(alloc: Global, text: &[u8]) -> Result<Checked, Refusal>
    ensures accepted { IfOk result (λ checked. Accepts text.now checked.tree) }
    ensures only { IfOk result (λ checked. (other : Module) → Reads text.now other → other ≡ checked.tree) }
    ensures fixed { IfOk result (λ checked. (more : List (List ℕ)) × (checked.tree.atoms ≡ fixed_atoms ++ more)) }
    ensures once { IfOk result (λ checked. StandOnce checked.tree.atoms) }
    ensures refused { IfErr result (λ refusal. Refuses text.now refusal) }
    ensures none { IfErr result (λ refusal. (refusal ≡ Refusal.Memory) ⊎ ((m : Module) → Accepts text.now m → ⊥)) }
{
    atoms_stand_once();
    let module = match read_module(alloc, text) {
        Ok(module) => module,
        Err(fault) => return Err(unread(alloc, fault)),
    };
    match check(alloc, module) {
        Ok(checked) => Ok(checked),
        Err(fault) => Err(unchecked(alloc, fault)),
    }
}
