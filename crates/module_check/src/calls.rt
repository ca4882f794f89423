ghost use Rattle.std.specs.Prelude.{◌≡◌, MatchBool, Contains, true};
ghost use Rattle.erl_syntax.specs.BuiltIns.{is_for_guards};
ghost use Rattle.erl_syntax.specs.Checking.{Spelled, IsOwn, CallsBuiltIn, CallsOwn};
ghost use Rattle.erl_syntax.specs.declared.built_in.BuiltIn.{BuiltIn};
ghost use Rattle.module_check.specs.Order.{IsLeast};
ghost use Rattle.module_check.specs.Faults.{IsOfBuiltIn, IsForGuards, IsUndefined, BareFault, CallFault, IsAtomOf};

use crate::index::Indexed;
use crate::order::{fault_if, first_of};
use erl_syntax::{BUILT_INS, BuiltIn, CheckCause, CheckFault, Expr, Module, Span};

/// Whether the atom of this number has these characters.
pub fn is_spelled(tree: &Module, atom: u32, chars: &[u8]) -> bool
    ensures { MatchBool result (Spelled tree.now atom chars.now) (Spelled tree.now atom chars.now → ⊥) }
{
    match tree.atoms.items().get(atom as usize) {
        Some(text) => text.bytes() == chars,
        None => false,
    }
}

/// Whether the expression is an atom of these characters.
fn is_atom(tree: &Module, home: &Expr, chars: &[u8]) -> bool
    ensures { MatchBool result (IsAtomOf tree.now chars.now home.now) (IsAtomOf tree.now chars.now home.now → ⊥) }
{
    match home {
        Expr::Atom { atom, .. } => is_spelled(tree, *atom, chars),
        _ => false,
    }
}

/// Whether the expression is the module's own name.
fn is_own(tree: &Module, home: &Expr) -> bool
    ensures { MatchBool result (IsOwn tree.now home.now) (IsOwn tree.now home.now → ⊥) }
{
    match home {
        Expr::ModuleName { .. } => true,
        Expr::Atom { atom, .. } => match tree.heads.items().first() {
            Some(head) => head.name == *atom,
            None => false,
        },
        _ => false,
    }
}

/// Whether a call with this before it, of this name and number of arguments, is of the built-in function.
fn calls_built_in(tree: &Module, home: &[Expr], name: u32, arity: usize, built_in: BuiltIn) -> bool
    ensures { MatchBool result (CallsBuiltIn tree.now home.now name arity built_in) (CallsBuiltIn tree.now home.now name arity built_in → ⊥) }
{
    if built_in.arity() != arity || !is_spelled(tree, name, built_in.name()) {
        return false;
    }
    match home {
        [] => built_in.is_bare(),
        [home] => is_atom(tree, home, built_in.home()),
        _ => false,
    }
}

/// Whether a call is of one of these functions.
fn is_of_any(tree: &Module, home: &[Expr], name: u32, arity: usize, all: &[BuiltIn]) -> bool
    ensures { MatchBool result ((b : BuiltIn) × (Contains all.now b × CallsBuiltIn tree.now home.now name arity b)) ((b : BuiltIn) → Contains all.now b → CallsBuiltIn tree.now home.now name arity b → ⊥) }
{
    all.iter().any(|built_in| calls_built_in(tree, home, name, arity, *built_in))
}

/// Whether a call is of a built-in function.
fn is_of_built_in(tree: &Module, home: &[Expr], name: u32, arity: usize) -> bool
    ensures { MatchBool result (IsOfBuiltIn tree.now home.now name arity) (IsOfBuiltIn tree.now home.now name arity → ⊥) }
{
    is_of_any(tree, home, name, arity, &BUILT_INS)
}

/// Whether the call is of the function, and it may be called in a guard.
fn is_for_guards_by(
    tree: &Module,
    home: &[Expr],
    name: u32,
    arity: usize,
    built_in: BuiltIn,
) -> bool
    ensures { MatchBool result (CallsBuiltIn tree.now home.now name arity built_in × (is_for_guards built_in ≡ true)) (CallsBuiltIn tree.now home.now name arity built_in × (is_for_guards built_in ≡ true) → ⊥) }
{
    built_in.is_for_guards() && calls_built_in(tree, home, name, arity, built_in)
}

/// Whether a call is of one of these functions that may be called in guards.
fn is_for_guards_of_any(
    tree: &Module,
    home: &[Expr],
    name: u32,
    arity: usize,
    all: &[BuiltIn],
) -> bool
    ensures { MatchBool result ((b : BuiltIn) × (Contains all.now b × (CallsBuiltIn tree.now home.now name arity b × (is_for_guards b ≡ true)))) ((b : BuiltIn) → Contains all.now b → CallsBuiltIn tree.now home.now name arity b × (is_for_guards b ≡ true) → ⊥) }
{
    all.iter().any(|built_in| is_for_guards_by(tree, home, name, arity, *built_in))
}

/// Whether a call is of a built-in function that may be called in guards.
fn is_for_guards(tree: &Module, home: &[Expr], name: u32, arity: usize) -> bool
    ensures { MatchBool result (IsForGuards tree.now home.now name arity) (IsForGuards tree.now home.now name arity → ⊥) }
{
    is_for_guards_of_any(tree, home, name, arity, &BUILT_INS)
}

/// Whether a call is of a function of the module.
fn calls_own(tree: &Indexed, home: &[Expr], name: u32, arity: usize) -> bool
    ensures { MatchBool result (CallsOwn tree.now home.now name arity) (CallsOwn tree.now home.now name arity → ⊥) }
{
    if !tree.has_function(name, arity) {
        return false;
    }
    match home {
        [] => true,
        [home] => is_own(tree.module(), home) && tree.is_exported(name, arity),
        _ => false,
    }
}

/// Whether a call is of no function.
fn is_undefined(tree: &Indexed, home: &[Expr], name: u32, arity: usize) -> bool
    ensures { MatchBool result (IsUndefined tree.now home.now name arity) (IsUndefined tree.now home.now name arity → ⊥) }
{
    !is_of_built_in(tree.module(), home, name, arity) && !calls_own(tree, home, name, arity)
}

/// Whether a call stands in a guard and may not.
fn is_barred(tree: &Indexed, guarded: bool, home: &[Expr], name: u32, arity: usize) -> bool
    ensures { MatchBool result ((guarded ≡ true) × (IsForGuards tree.now home.now name arity → ⊥)) ((guarded ≡ true) × (IsForGuards tree.now home.now name arity → ⊥) → ⊥) }
{
    guarded && !is_for_guards(tree.module(), home, name, arity)
}

/// The functions whose name and number of arguments are those of a built-in function, and of this call.
fn bare_fault(tree: &Indexed, home: &[Expr], name: u32, arity: usize) -> Option<CheckFault>
    ensures { IsLeast (BareFault tree.now home.now name arity) result }
{
    if home.is_empty() && is_of_built_in(tree.module(), home, name, arity) {
        tree.named_faults(name, arity)
    } else {
        None
    }
}

/// The first fault of a call.
pub(crate) fn call_fault(
    tree: &Indexed,
    guarded: bool,
    at: Span,
    home: &[Expr],
    name: u32,
    arity: usize,
) -> Option<CheckFault>
    ensures { IsLeast (CallFault tree.now guarded at home.now name arity) result }
{
    let undefined = is_undefined(tree, home, name, arity);
    let barred = is_barred(tree, guarded, home, name, arity);
    let barred = fault_if(barred, at, CheckCause::CallInGuard);
    let bare = bare_fault(tree, home, name, arity);
    first_of(
        fault_if(undefined, at, CheckCause::UndefinedFunction),
        first_of(barred, bare),
    )
}
