ghost use Rattle.std.specs.Prelude.{◌≡◌, ◌≢◌, MatchBool, [], pos, ℕ, take, length, codes, Contains};
ghost use Rattle.erl_syntax.specs.Checking.{Spelled};
ghost use Rattle.module_check.specs.Order.{IsLeast, Some_of};
ghost use Rattle.module_check.specs.Faults.{rest, HeadFault, ExportFault, HasNoMain, EndFault, Differs, DiffersFault, ClausesFault};
ghost use Rattle.erl_syntax.specs.declared.module.Name.{Name};

use crate::calls::is_spelled;
use crate::index::Indexed;
use crate::order::{fault_if, first_of};
use erl_syntax::{CheckCause, CheckFault, Clause, Function, Head, Module, Name};

/// That a `-module` form isn't the module's own.
fn head_fault(head: &Head) -> Option<CheckFault>
    ensures { IsLeast (HeadFault head.now) result }
{
    Some(CheckFault {
        span: head.at,
        why: CheckCause::ModuleAgain,
    })
}

/// The first of these `-module` forms.
fn first_head(heads: &[Head]) -> Option<CheckFault>
    ensures { IsLeast (Some_of HeadFault heads.now) result }
{
    let mut best = None;
    for head in heads {
        best = first_of(best, head_fault(head));
    }
    best
}

/// The first `-module` form that isn't the module's own.
pub(crate) fn heads_fault(heads: &[Head]) -> Option<CheckFault>
    ensures { IsLeast (Some_of HeadFault (rest heads.now)) result }
{
    match heads {
        [] => None,
        [_, again @ ..] => first_head(again),
    }
}

/// The first export of no function.
pub(crate) fn exports_fault(tree: &Indexed) -> Option<CheckFault>
    ensures { IsLeast (Some_of (ExportFault tree.now) tree.now.exports) result }
{
    let mut best = None;
    let exports = tree.module().exports.items();
    for export in exports {
        let missing = tree.is_missing(export);
        best = first_of(
            best,
            fault_if(missing, export.at, CheckCause::ExportMissing),
        );
    }
    best
}

/// Whether the export is of `main/0`.
fn is_main(tree: &Module, export: &Name) -> bool
    ensures { MatchBool result (Spelled tree.now export.now.name (codes "main") × (export.now.arity ≡ pos 0)) (Spelled tree.now export.now.name (codes "main") × (export.now.arity ≡ pos 0) → ⊥) }
{
    export.arity == 0 && is_spelled(tree, export.name, b"main")
}

/// Whether one of the exports is of `main/0`.
fn exports_main(tree: &Module, exports: &[Name]) -> bool
    ensures { MatchBool result ((e : Name) × (Contains exports.now e × (Spelled tree.now e.name (codes "main") × (e.arity ≡ pos 0)))) ((e : Name) × (Contains exports.now e × (Spelled tree.now e.name (codes "main") × (e.arity ≡ pos 0))) → ⊥) }
{
    exports.iter().any(|export| is_main(tree, export))
}

/// Whether the module doesn't export `main/0`.
fn has_no_main(tree: &Module) -> bool
    ensures { MatchBool result (HasNoMain tree.now) (HasNoMain tree.now → ⊥) }
{
    !exports_main(tree, tree.exports.items())
}

/// What is missing in the module.
pub(crate) fn end_fault(tree: &Module) -> Option<CheckFault>
    ensures { IsLeast (EndFault tree.now) result }
{
    let nameless = tree.heads.items().is_empty();
    let no_main = has_no_main(tree);
    first_of(
        fault_if(nameless, tree.last, CheckCause::NoModule),
        fault_if(no_main, tree.last, CheckCause::NoMain),
    )
}

/// Whether the clause has another name or number of arguments than the function.
fn differs(function: &Function, clause: &Clause) -> bool
    ensures { MatchBool result (Differs function.now clause.now) (Differs function.now clause.now → ⊥) }
{
    clause.name != function.name || clause.patterns.items().len() != function.arity as usize
}

/// The first of these clauses that differ from the function.
fn differs_fault(function: &Function, clauses: &[Clause]) -> Option<CheckFault>
    ensures { IsLeast (Some_of (DiffersFault function.now) clauses.now) result }
{
    let mut best = None;
    for clause in clauses {
        let differs = differs(function, clause);
        best = first_of(best, fault_if(differs, clause.at, CheckCause::HeadsDiffer));
    }
    best
}

/// The first fault of the heads of the function at this place among the module's.
pub(crate) fn clauses_fault(tree: &Indexed, place: usize, function: &Function) -> Option<CheckFault>
    ensures { IsLeast (ClausesFault (take place tree.now.functions) function.now function.now.clauses) result }
{
    match function.clauses.items() {
        [] => None,
        [first, others @ ..] => {
            let again = tree.stands_before(place, function.name, function.arity as usize);
            let again = fault_if(again, first.at, CheckCause::FunctionAgain);
            first_of(again, differs_fault(function, others))
        }
    }
}
