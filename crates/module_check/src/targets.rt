ghost use Rattle.std.specs.Prelude.{◌≡◌, ◌++◌, IfOk};
ghost use Rattle.erl_syntax.specs.Bindings.{names, targets, targets_of, segment_targets, vars_of, new_names, qual_unsafe};
ghost use Rattle.module_check.specs.Nodes.{bounds_of};
ghost use Rattle.module_check.specs.Unsafe.{unsafe_of, segment_unsafe, alt_unsafe, alts_unsafe, branches_unsafe, items_unsafe, items_bound, alt_bound, part_unsafe};

use crate::scopes::Target;
use erl_syntax::{Alt, Branch, Expr, Item, Pattern, Qual, Segment};
use std::alloc::AllocError;

/// Adds the variables that a pattern binds or compares.
#[cycle(targets)]
pub(crate) fn add_targets<'a>(
    found: &mut Vec<Target<'a>>,
    pattern: &'a Pattern,
) -> Result<(), AllocError>
    ensures { IfOk result (λ u. bounds_of found.new.items ≡ bounds_of found.old.items ++ targets pattern.now) }
{
    match pattern {
        Pattern::Var { at, name } => Ok(found.push(Target {
            name: name.bytes(),
            at: *at,
        })?),
        Pattern::Tuple { items, .. } => add_targets_of(found, items.items()),
        Pattern::List { items, tail, .. } => {
            add_targets_of(found, items.items())?;
            add_targets_of(found, tail.items())
        }
        Pattern::Bits { segments, .. } => add_segment_targets(found, segments.items()),
        Pattern::Same { patterns, .. } => add_targets_of(found, patterns.items()),
        _ => Ok(()),
    }
}

/// Adds the variables that these patterns bind or compare.
#[cycle(targets)]
pub(crate) fn add_targets_of<'a>(
    found: &mut Vec<Target<'a>>,
    patterns: &'a [Pattern],
) -> Result<(), AllocError>
    ensures { IfOk result (λ u. bounds_of found.new.items ≡ bounds_of found.old.items ++ targets_of patterns.now) }
{
    for pattern in patterns {
        add_targets(found, pattern)?;
    }
    Ok(())
}

/// Adds the variable that is the value of the segment of a pattern.
pub(crate) fn add_segment_target<'a>(
    found: &mut Vec<Target<'a>>,
    segment: &'a Segment,
) -> Result<(), AllocError>
    ensures { IfOk result (λ u. bounds_of found.new.items ≡ bounds_of found.old.items ++ (vars_of segment.now.value).own) }
{
    match &segment.value {
        Expr::Var { at, name } => Ok(found.push(Target {
            name: name.bytes(),
            at: *at,
        })?),
        _ => Ok(()),
    }
}

/// Adds the variables that these segments of a pattern bind or compare.
pub(crate) fn add_segment_targets<'a>(
    found: &mut Vec<Target<'a>>,
    segments: &'a [Segment],
) -> Result<(), AllocError>
    ensures { IfOk result (λ u. bounds_of found.new.items ≡ bounds_of found.old.items ++ segment_targets segments.now) }
{
    for segment in segments {
        add_segment_target(found, segment)?;
    }
    Ok(())
}

/// Adds the variables that an expression leaves unsafe.
#[cycle(left)]
pub(crate) fn add_unsafe<'a>(found: &mut Vec<Target<'a>>, expr: &'a Expr) -> Result<(), AllocError>
    ensures { IfOk result (λ u. names (bounds_of found.new.items) ≡ names (bounds_of found.old.items) ++ (vars_of expr.now).left_unsafe) }
{
    match expr {
        Expr::Tuple { items, .. } => add_unsafe_of(found, items.items()),
        Expr::List { items, tail, .. } => {
            add_unsafe_of(found, items.items())?;
            add_unsafe_of(found, tail.items())
        }
        Expr::Bits { segments, .. } => add_segments(found, segments.items()),
        Expr::Call { args, .. } => add_unsafe_of(found, args.items()),
        Expr::Case { value, alts, .. } => {
            add_unsafe_of(found, value.items())?;
            add_alts(found, alts.items())
        }
        Expr::Receive { alts, .. } => add_alts(found, alts.items()),
        Expr::If { branches, .. } => add_branches(found, branches.items()),
        Expr::Unary { part, .. } => add_unsafe_of(found, part.items()),
        Expr::Binary { parts, .. } => add_unsafe_of(found, parts.items()),
        _ => Ok(()),
    }
}

/// Adds the variables that these expressions leave unsafe.
#[cycle(left)]
pub(crate) fn add_unsafe_of<'a>(
    found: &mut Vec<Target<'a>>,
    exprs: &'a [Expr],
) -> Result<(), AllocError>
    ensures { IfOk result (λ u. names (bounds_of found.new.items) ≡ names (bounds_of found.old.items) ++ unsafe_of exprs.now) }
{
    for expr in exprs {
        add_unsafe(found, expr)?;
    }
    Ok(())
}

#[cycle(left)]
fn add_segment<'a>(found: &mut Vec<Target<'a>>, segment: &'a Segment) -> Result<(), AllocError>
    ensures { IfOk result (λ u. names (bounds_of found.new.items) ≡ names (bounds_of found.old.items) ++ part_unsafe segment.now) }
{
    add_unsafe(found, &segment.value)?;
    match &segment.size {
        Some(size) => add_unsafe(found, size),
        None => Ok(()),
    }
}

#[cycle(left)]
fn add_segments<'a>(found: &mut Vec<Target<'a>>, segments: &'a [Segment]) -> Result<(), AllocError>
    ensures { IfOk result (λ u. names (bounds_of found.new.items) ≡ names (bounds_of found.old.items) ++ segment_unsafe segments.now) }
{
    for segment in segments {
        add_segment(found, segment)?;
    }
    Ok(())
}

/// Adds the variables that a clause of a `case` or a `receive` leaves unsafe.
#[cycle(left)]
pub(crate) fn add_alt<'a>(found: &mut Vec<Target<'a>>, alt: &'a Alt) -> Result<(), AllocError>
    ensures { IfOk result (λ u. names (bounds_of found.new.items) ≡ names (bounds_of found.old.items) ++ alt_unsafe alt.now) }
{
    add_targets(found, &alt.pattern)?;
    add_body(found, alt.body.items())
}

/// Adds the variables that these clauses leave unsafe.
#[cycle(left)]
pub(crate) fn add_alts<'a>(found: &mut Vec<Target<'a>>, alts: &'a [Alt]) -> Result<(), AllocError>
    ensures { IfOk result (λ u. names (bounds_of found.new.items) ≡ names (bounds_of found.old.items) ++ alts_unsafe alts.now) }
{
    for alt in alts {
        add_alt(found, alt)?;
    }
    Ok(())
}

/// Adds the variables that the clauses of an `if` leave unsafe.
#[cycle(left)]
pub(crate) fn add_branches<'a>(
    found: &mut Vec<Target<'a>>,
    branches: &'a [Branch],
) -> Result<(), AllocError>
    ensures { IfOk result (λ u. names (bounds_of found.new.items) ≡ names (bounds_of found.old.items) ++ branches_unsafe branches.now) }
{
    for branch in branches {
        add_body(found, branch.body.items())?;
    }
    Ok(())
}

/// Adds the variables that a body leaves unsafe.
#[cycle(left)]
pub(crate) fn add_body<'a>(found: &mut Vec<Target<'a>>, items: &'a [Item]) -> Result<(), AllocError>
    ensures { IfOk result (λ u. names (bounds_of found.new.items) ≡ names (bounds_of found.old.items) ++ items_unsafe items.now) }
{
    for item in items {
        add_targets_of(found, item.patterns.items())?;
        add_unsafe(found, &item.value)?;
    }
    Ok(())
}

/// Adds the variables of the patterns of a body, but of none inside its expressions.
pub(crate) fn add_bound<'a>(
    found: &mut Vec<Target<'a>>,
    items: &'a [Item],
) -> Result<(), AllocError>
    ensures { IfOk result (λ u. names (bounds_of found.new.items) ≡ names (bounds_of found.old.items) ++ items_bound items.now) }
{
    for item in items {
        add_targets_of(found, item.patterns.items())?;
    }
    Ok(())
}

/// Adds those of the pattern and of the body of a clause of a `case` or a `receive`.
pub(crate) fn add_alt_bound<'a>(found: &mut Vec<Target<'a>>, alt: &'a Alt) -> Result<(), AllocError>
    ensures { IfOk result (λ u. names (bounds_of found.new.items) ≡ names (bounds_of found.old.items) ++ alt_bound alt.now) }
{
    add_targets(found, &alt.pattern)?;
    add_bound(found, alt.body.items())
}

/// Adds the new variables of a qualifier.
pub(crate) fn add_new<'a>(found: &mut Vec<Target<'a>>, qual: &'a Qual) -> Result<(), AllocError>
    ensures { IfOk result (λ u. bounds_of found.new.items ≡ bounds_of found.old.items ++ new_names qual.now) }
{
    match qual {
        Qual::Items { pattern, .. } => add_targets(found, pattern),
        Qual::Bits { segments, .. } => add_segment_targets(found, segments.items()),
        Qual::Filter { .. } => Ok(()),
    }
}

/// Adds the variables that a qualifier leaves unsafe.
pub(crate) fn add_qual_unsafe<'a>(
    found: &mut Vec<Target<'a>>,
    qual: &'a Qual,
) -> Result<(), AllocError>
    ensures { IfOk result (λ u. names (bounds_of found.new.items) ≡ names (bounds_of found.old.items) ++ qual_unsafe qual.now) }
{
    match qual {
        Qual::Items { source, .. } => add_unsafe(found, source),
        Qual::Bits { source, .. } => add_unsafe(found, source),
        Qual::Filter { test, .. } => add_unsafe(found, test),
    }
}
