use crate::{SegFault, Span};
use std::alloc::AllocFailed;

/// Why a module that was read isn't accepted, in the order in which the faults at one place are told.
#[derive(Clone, Copy, Debug, PartialEq, Eq)]
pub enum CheckCause {
    /// A segment without a type.
    Segment(SegFault),
    /// A second `-module` form.
    ModuleAgain,
    /// A clause with another name or number of arguments than the first of its function.
    HeadsDiffer,
    /// A function that stands before, or whose calls would also be of a built-in function.
    FunctionAgain,
    /// An exported name of no function.
    ExportMissing,
    /// A call of no function.
    UndefinedFunction,
    /// A call in a guard or in a pattern's size that isn't of a built-in function for guards.
    CallInGuard,
    /// A variable that has no value where it stands.
    UnboundVariable,
    /// A variable of a `case`, an `if` or a `receive`, behind it.
    UnsafeVariable,
    /// A module without a `-module` form.
    NoModule,
    /// A module that doesn't export `main/0`.
    NoMain,
    /// No fault of the module: memory ran out.
    NoMemory,
}

/// The first fault of a module, or that memory ran out (at 1:1).
#[derive(Clone, Copy, Debug, PartialEq, Eq)]
pub struct CheckFault {
    pub span: Span,
    pub why: CheckCause,
}

/// A variable of a function: where it stands, its number in the function (how many get their values further left), and whether it gets
/// its value here (Erlang Reference Manual, "Expressions": "Variables").
#[derive(Clone, Copy, Debug, PartialEq, Eq)]
pub struct VarUse {
    pub at: Span,
    pub number: u32,
    pub binds: bool,
}

impl<T: Drop> From<AllocFailed<T>> for CheckFault {
    ghost use Rattle.erl_syntax.specs.declared.checking.CheckCause.TheVariants.{NoMemory};
    ghost use Rattle.std.specs.Prelude.{◌≡◌};

    ghost from_gives = { λ _ e. e.why ≡ NoMemory };

    fn from(_: AllocFailed<T>) -> CheckFault {
        CheckFault {
            span: Span { line: 1, column: 1 },
            why: CheckCause::NoMemory,
        }
    }
}
