ghost use Rattle.std.specs.Prelude.{◌≡◌, ◌<◌, ◌⊎◌, IfOk, IfErr, MatchOption, length};
ghost use Rattle.erl_syntax.specs.Checking.{IsAccepted, IsFirstFault, AreNumbered};
ghost use Rattle.erl_syntax.specs.declared.checking.CheckCause.TheVariants.{NoMemory};
ghost use Rattle.module_check.specs.Order.{IsLeast, Below};
ghost use Rattle.module_check.specs.Faults.{FunctionFault, AnyFault};

use crate::forms::{clauses_fault, end_fault, exports_fault, heads_fault};
use crate::index::Indexed;
use crate::numbers::vars;
use crate::order::first_of;
use crate::walk::inner_fault;
use erl_syntax::{CheckCause, CheckFault, Listed, Module, Span, VarUse};
use std::alloc::{AllocError, Global};

/// The first fault of the function at this place among the module's.
fn function_fault(
    alloc: Global,
    tree: &Indexed,
    index: usize,
) -> Result<Option<CheckFault>, AllocError>
    requires { index < length tree.now.functions }
    ensures { IfOk result (λ r. IsLeast (FunctionFault tree.now index) r) }
{
    let functions = tree.module().functions.items();
    let function = &functions[index];
    let heads = clauses_fault(tree, index, function);
    let inner = inner_fault(alloc, tree, function)?;
    Ok(first_of(heads, inner))
}

/// The first fault of the module's functions.
fn functions_fault(alloc: Global, tree: &Indexed) -> Result<Option<CheckFault>, AllocError>
    ensures { IfOk result (λ r. IsLeast (Below (FunctionFault tree.now) (length tree.now.functions)) r) }
{
    let mut best = None;
    let count = tree.module().functions.items().len();
    for index in 0..count {
        let fault = function_fault(alloc, tree, index)?;
        best = first_of(best, fault);
    }
    Ok(best)
}

/// The first fault of the module, or None where it is accepted.
fn any_fault(alloc: Global, tree: &Module) -> Result<Option<CheckFault>, AllocError>
    ensures { IfOk result (λ r. IsLeast (AnyFault tree.now) r) }
{
    let indexed = Indexed::of(alloc, tree)?;
    let heads = heads_fault(tree.heads.items());
    let forms = first_of(heads, exports_fault(&indexed));
    let functions = functions_fault(alloc, &indexed)?;
    let rest = first_of(functions, end_fault(tree));
    Ok(first_of(forms, rest))
}

/// A module that is refused nothing, with its variables' numbers.
#[derive(Debug, Drop)]
pub struct Checked {
    tree: Module,
    vars: Vec<Listed<VarUse>>,
    ghost accepted: { IsAccepted tree },
    ghost numbered: { ∥ AreNumbered tree.functions vars.items ∥₁ },
}

impl Checked {
    /// The module that was checked.
    pub fn module(&self) -> &Module
        ensures same { result.now ≡ self.now.tree }
        ensures accepted { IsAccepted result.now }
    {
        &self.tree
    }

    /// The variables of each of the module's functions but `_`, in the order of the text: where each stands, its number in its
    /// function, which is how many get their values further left, and whether it gets its value here.
    pub fn vars(&self) -> &[Listed<VarUse>]
        ensures same { result.now ≡ self.now.vars.items }
        ensures numbered { ∥ AreNumbered self.now.tree.functions result.now ∥₁ }
    {
        &self.vars
    }
}

fn out_of_memory(_: AllocError) -> CheckFault
    ensures { result.why ≡ NoMemory }
{
    CheckFault {
        span: Span { line: 1, column: 1 },
        why: CheckCause::NoMemory,
    }
}

/// Numbers the variables of a module that is accepted.
fn numbered(alloc: Global, tree: Module) -> Result<Checked, CheckFault>
    requires { IsAccepted tree }
    ensures same { IfOk result (λ checked. checked.tree ≡ tree) }
    ensures memory { IfErr result (λ fault. fault.why ≡ NoMemory) }
{
    match vars(alloc, &tree) {
        Ok(vars) => Ok(Checked { tree, vars }),
        Err(error) => Err(out_of_memory(error)),
    }
}

/// Checks a module (Erlang Reference Manual, "Modules", "Functions", "Expressions").
///
/// # Errors
///
/// The fault that starts first in the text, and of those at one place the one whose cause stands first in the order of the
/// causes; or that memory ran out, which says nothing of the module.
///
/// Variables of a function that stand at one place and get their values at different ones can't be numbered by place. No tree of
/// a text has them, since each of its variables is a token of its own; a tree that was made otherwise may, and is answered as if
/// memory ran out.
pub fn check(alloc: Global, tree: Module) -> Result<Checked, CheckFault>
    ensures accepted { IfOk result (λ checked. checked.tree ≡ tree) }
    ensures refused { IfErr result (λ fault. (fault.why ≡ NoMemory) ⊎ IsFirstFault tree fault.span fault.why) }
{
    match any_fault(alloc, &tree) {
        Ok(None) => numbered(alloc, tree),
        Ok(Some(fault)) => Err(fault),
        Err(error) => Err(out_of_memory(error)),
    }
}
