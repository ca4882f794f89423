ghost use Rattle.std.specs.Prelude.{◌≡◌, MatchBool};
ghost use Rattle.module_check.specs.Order.{segment_rank, rank, NotAfter, IsFirstOf, fault_if};

use crate::names::is_before;
use erl_syntax::{CheckCause, CheckFault, SegFault, Span};

/// Where a segment's fault stands in the order of the causes.
fn segment_rank(fault: SegFault) -> u32
    ensures { result ≡ segment_rank fault }
{
    match fault {
        SegFault::TwoOfAKind => 0,
        SegFault::UnitRange => 1,
        SegFault::FloatType => 2,
        SegFault::SizeOnUtf => 3,
        SegFault::UnitOnUtf => 4,
        SegFault::UnitWithoutSize => 5,
        SegFault::StringType => 6,
        SegFault::OpenNotLast => 7,
        SegFault::OpenInGenerator => 8,
    }
}

/// Where a cause stands in the order of the causes.
fn rank(why: CheckCause) -> u32
    ensures { result ≡ rank why }
{
    match why {
        CheckCause::Segment(fault) => segment_rank(fault),
        CheckCause::ModuleAgain => 9,
        CheckCause::HeadsDiffer => 10,
        CheckCause::FunctionAgain => 11,
        CheckCause::ExportMissing => 12,
        CheckCause::UndefinedFunction => 13,
        CheckCause::CallInGuard => 14,
        CheckCause::UnboundVariable => 15,
        CheckCause::UnsafeVariable => 16,
        CheckCause::NoModule => 17,
        CheckCause::NoMain => 18,
        CheckCause::NoMemory => 19,
    }
}

/// Whether a fault is told before the other, or both are at one place and of one cause.
fn is_first(fault: CheckFault, other: CheckFault) -> bool
    ensures { MatchBool result (NotAfter fault.span fault.why other.span other.why) (NotAfter other.span other.why fault.span fault.why) }
{
    if is_before(fault.span, other.span) {
        return true;
    }
    !is_before(other.span, fault.span) && rank(fault.why) <= rank(other.why)
}

/// The one of two faults that is told: the one that starts first, and at one place the one whose cause stands first.
pub fn first_of(fault: Option<CheckFault>, other: Option<CheckFault>) -> Option<CheckFault>
    ensures { IsFirstOf fault other result }
{
    match (fault, other) {
        (None, other) => other,
        (Some(fault), None) => Some(fault),
        (Some(fault), Some(other)) if is_first(fault, other) => Some(fault),
        (Some(_), Some(other)) => Some(other),
    }
}

/// The fault of this cause at this place, where it holds.
pub(crate) fn fault_if(holds: bool, span: Span, why: CheckCause) -> Option<CheckFault>
    ensures { result ≡ fault_if holds span why }
{
    if holds {
        Some(CheckFault { span, why })
    } else {
        None
    }
}
