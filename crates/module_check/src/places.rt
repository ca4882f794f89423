//! Where the variables of a function stand, and where they get their values.

ghost use Rattle.std.specs.Prelude.{◌≡◌, ◌++◌, IfOk, List};
ghost use Rattle.std.specs.Option.{option_to_list};
ghost use Rattle.erl_syntax.specs.Bindings.{Bound};
ghost use Rattle.erl_syntax.specs.Scopes.{Scope};
ghost use Rattle.erl_syntax.specs.declared.expr.Expr.{out-Expr};
ghost use Rattle.erl_syntax.specs.declared.pattern.Pattern.{out-Pattern};
ghost use Rattle.module_check.specs.Nodes.{Sees};
ghost use Rattle.module_check.specs.Spots.{Spot};
ghost use Rattle.module_check.specs.Tasks.{Means, Fits};
ghost use Rattle.module_check.specs.Places.{seen, IsOnly, Reads, Meets, ExprPlace, PatternPlace, ValuePlace, SegmentPlace, OwnPlace, InnerPlace, AreAll};

use crate::tasks::{Facts, Part, Task, Walk};
use crate::trees::{Node, find};
use erl_syntax::{Expr, Function, Pattern, Segment, SideUse, Span};
use std::alloc::{AllocError, Global};

/// A place in a module's text, in the order of the text.
#[derive(Clone, Copy, PartialEq, Eq, PartialOrd, Ord)]
pub(crate) struct Position {
    pub line: u32,
    pub column: u32,
}

/// Where a variable stands, and where it gets its value.
#[derive(Clone, Copy, PartialEq, Eq, PartialOrd, Ord)]
pub(crate) struct Occurrence {
    pub at: Position,
    pub bound_at: Position,
}

fn stands(at: Span, bound_at: Span) -> Occurrence
    ensures { seen result ≡ record { at = at; bound_at = bound_at } }
{
    Occurrence {
        at: Position {
            line: at.line,
            column: at.column,
        },
        bound_at: Position {
            line: bound_at.line,
            column: bound_at.column,
        },
    }
}

/// A variable that is read, where it has a value.
fn read(nodes: &[Node], known: usize, at: Span, name: &[u8]) -> Option<Occurrence>
    ensures { (bs : List Bound) → Sees nodes.now known bs → IsOnly (Reads bs at name.now) result }
{
    match find(nodes, known, name) {
        Some(bound_at) => Some(stands(at, bound_at)),
        None => None,
    }
}

/// A variable that a pattern compares where it has a value, and else binds.
fn met(nodes: &[Node], known: usize, at: Span, name: &[u8]) -> Option<Occurrence>
    ensures { (bs : List Bound) → Sees nodes.now known bs → IsOnly (Meets bs at name.now) result }
{
    match find(nodes, known, name) {
        Some(bound_at) => Some(stands(at, bound_at)),
        None => Some(stands(at, at)),
    }
}

fn expr_place(nodes: &[Node], facts: Facts, expr: &Expr) -> Option<Occurrence>
    ensures { (s : Scope) → Means nodes.now facts s → IsOnly (ExprPlace s (out-Expr expr.now)) result }
{
    match expr {
        Expr::Var { at, name } => read(nodes, facts.known, *at, name.bytes()),
        _ => None,
    }
}

fn pattern_place(nodes: &[Node], facts: Facts, pattern: &Pattern) -> Option<Occurrence>
    ensures { (s : Scope) → Means nodes.now facts s → IsOnly (PatternPlace s (out-Pattern pattern.now)) result }
{
    match pattern {
        Pattern::Var { at, name } => met(nodes, facts.known, *at, name.bytes()),
        _ => None,
    }
}

/// The variable that is the value of a pattern's segment.
fn value_place(nodes: &[Node], facts: Facts, value: &Expr) -> Option<Occurrence>
    ensures { (s : Scope) → Means nodes.now facts s → IsOnly (ValuePlace s (out-Expr value.now)) result }
{
    match value {
        Expr::Var { at, name } => met(nodes, facts.known, *at, name.bytes()),
        _ => None,
    }
}

fn segment_place(
    nodes: &[Node],
    facts: Facts,
    side: SideUse,
    segment: &Segment,
) -> Option<Occurrence>
    ensures { (s : Scope) → Means nodes.now facts s → IsOnly (SegmentPlace s side segment.now) result }
{
    match side {
        SideUse::Build => None,
        SideUse::Match => value_place(nodes, facts, &segment.value),
        SideUse::Generator => value_place(nodes, facts, &segment.value),
    }
}

/// The variable that the part of a task is by itself.
fn own_place(nodes: &[Node], task: Task) -> Option<Occurrence>
    ensures { (d : Spot) → Fits nodes.now task.entry d → IsOnly (OwnPlace d.scope d.part) result }
{
    let facts = task.facts;
    match task.part {
        Part::Expr(expr) => expr_place(nodes, facts, expr),
        Part::Pattern(pattern) => pattern_place(nodes, facts, pattern),
        Part::Body(_) => None,
        Part::Segment(side, _, segment) => segment_place(nodes, facts, side, segment),
    }
}

/// Adds a variable, where there is one.
fn add(found: &mut Vec<Occurrence>, place: Option<Occurrence>) -> Result<(), AllocError>
    ensures { IfOk result (λ u. found.new.items ≡ found.old.items ++ option_to_list place) }
{
    match place {
        Some(occurrence) => Ok(found.push(occurrence)?),
        None => Ok(()),
    }
}

/// The variables of a function, in no order. One may stand here more than once.
pub(crate) fn places(alloc: Global, function: &Function) -> Result<Vec<Occurrence>, AllocError>
    ensures { IfOk result (λ os. AreAll (InnerPlace function.now) os.items) }
{
    let mut walk = Walk {
        alloc,
        nodes: Vec::new(alloc),
        tasks: Vec::new(alloc),
    };
    walk.push_clauses(function)?;
    let mut found = Vec::new(alloc);
    while let Some(task) = walk.tasks.pop() {
        walk.nodes.truncate(task.mark);
        add(&mut found, own_place(&walk.nodes, task))?;
        walk.push_inside(task)?;
    }
    Ok(found)
}
