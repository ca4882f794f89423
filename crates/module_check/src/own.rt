//! The faults of a part by itself.

ghost use Rattle.std.specs.Prelude.{◌≡◌, MatchBool, List, not, ◌&&◌};
ghost use Rattle.erl_syntax.specs.Bindings.{Bound};
ghost use Rattle.erl_syntax.specs.Scopes.{Scope, IsKnown};
ghost use Rattle.erl_syntax.specs.declared.expr.Expr.{out-Expr};
ghost use Rattle.erl_syntax.specs.declared.pattern.Pattern.{out-Pattern};
ghost use Rattle.module_check.specs.Order.{IsLeast};
ghost use Rattle.module_check.specs.Nodes.{TreeOf, SeesUnsafe};
ghost use Rattle.module_check.specs.Spots.{Spot};
ghost use Rattle.module_check.specs.Tasks.{Means, Fits};
ghost use Rattle.module_check.specs.Faults.{UnsafeFault, ReadFault, ExprFault, PatternFault, TargetFault, TypeFault, SegmentFault, Own};

use crate::calls::call_fault;
use crate::index::Indexed;
use crate::order::{fault_if, first_of};
use crate::tasks::{Facts, Part, Task};
use crate::trees::{Node, find};
use erl_syntax::{CheckCause, CheckFault, Expr, Pattern, Segment, SideUse, Span};
use segment_type::type_segment;

/// Whether the name stands at the node or behind it.
fn is_put(nodes: &[Node], last: usize, name: &[u8]) -> bool
    ensures { (bs : List Bound) → TreeOf nodes.now last bs → MatchBool result (IsKnown bs name.now) (IsKnown bs name.now → ⊥) }
{
    find(nodes, last, name).is_some()
}

/// That a variable is unsafe.
fn unsafe_fault(nodes: &[Node], dangers: usize, at: Span, name: &[u8]) -> Option<CheckFault>
    ensures { (s : Scope) → SeesUnsafe nodes.now dangers s.dangers → IsLeast (UnsafeFault s at name.now) result }
{
    let put = is_put(nodes, dangers, name);
    fault_if(put, at, CheckCause::UnsafeVariable)
}

fn is_neither(first: bool, second: bool) -> bool
    ensures { result ≡ (not first && not second) }
{
    !first && !second
}

/// That a variable that is read is unbound or unsafe.
fn read_fault(nodes: &[Node], facts: Facts, at: Span, name: &[u8]) -> Option<CheckFault>
    ensures { (s : Scope) → Means nodes.now facts s → IsLeast (ReadFault s at name.now) result }
{
    let known = is_put(nodes, facts.known, name);
    let endangered = is_put(nodes, facts.dangers, name);
    let unbound = fault_if(
        is_neither(known, endangered),
        at,
        CheckCause::UnboundVariable,
    );
    first_of(unbound, unsafe_fault(nodes, facts.dangers, at, name))
}

fn expr_fault(tree: &Indexed, nodes: &[Node], facts: Facts, expr: &Expr) -> Option<CheckFault>
    ensures { (s : Scope) → Means nodes.now facts s → IsLeast (ExprFault tree.now s (out-Expr expr.now)) result }
{
    match expr {
        Expr::Var { at, name } => read_fault(nodes, facts, *at, name.bytes()),
        Expr::Call {
            at,
            module,
            name,
            args,
        } => {
            let arity = args.items().len();
            call_fault(tree, facts.guarded, *at, module.items(), *name, arity)
        }
        _ => None,
    }
}

fn pattern_fault(nodes: &[Node], facts: Facts, pattern: &Pattern) -> Option<CheckFault>
    ensures { (s : Scope) → Means nodes.now facts s → IsLeast (PatternFault s (out-Pattern pattern.now)) result }
{
    match pattern {
        Pattern::Var { at, name } => unsafe_fault(nodes, facts.dangers, *at, name.bytes()),
        _ => None,
    }
}

/// That the variable of a pattern's segment is unsafe.
fn target_fault(nodes: &[Node], facts: Facts, value: &Expr) -> Option<CheckFault>
    ensures { (s : Scope) → Means nodes.now facts s → IsLeast (TargetFault s (out-Expr value.now)) result }
{
    match value {
        Expr::Var { at, name } => unsafe_fault(nodes, facts.dangers, *at, name.bytes()),
        _ => None,
    }
}

/// That a segment has no type.
fn type_fault(side: SideUse, last: bool, segment: &Segment) -> Option<CheckFault>
    ensures { IsLeast (TypeFault side last segment.now) result }
{
    match type_segment(segment, side, last) {
        Ok(_) => None,
        Err(fault) => Some(CheckFault {
            span: segment.at,
            why: CheckCause::Segment(fault),
        }),
    }
}

fn segment_fault(
    nodes: &[Node],
    facts: Facts,
    side: SideUse,
    last: bool,
    segment: &Segment,
) -> Option<CheckFault>
    ensures { (s : Scope) → Means nodes.now facts s → IsLeast (SegmentFault s side last segment.now) result }
{
    let untyped = type_fault(side, last, segment);
    match side {
        SideUse::Build => untyped,
        SideUse::Match => first_of(untyped, target_fault(nodes, facts, &segment.value)),
        SideUse::Generator => first_of(untyped, target_fault(nodes, facts, &segment.value)),
    }
}

/// The first fault of the part of a task by itself.
pub(crate) fn own_fault(tree: &Indexed, nodes: &[Node], task: Task) -> Option<CheckFault>
    ensures { (d : Spot) → Fits nodes.now task.entry d → IsLeast (Own tree.now d.scope d.part) result }
{
    let facts = task.facts;
    match task.part {
        Part::Expr(expr) => expr_fault(tree, nodes, facts, expr),
        Part::Pattern(pattern) => pattern_fault(nodes, facts, pattern),
        Part::Body(_) => None,
        Part::Segment(side, last, segment) => segment_fault(nodes, facts, side, last, segment),
    }
}
