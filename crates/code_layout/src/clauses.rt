ghost use Rattle.std.specs.Prelude.{◌≡◌, List, map, IfOk};
ghost use Rattle.term_value.specs.Read.{Read as ExprRead, clauses, guard_of as read_guard};
ghost use Rattle.term_value.specs.ReadTrees.{guard_tree, function_clauses};
ghost use Rattle.code_tree.specs.Reading.{clause_of, clauses_of, line_of, guard_of, tree_of, patterns_of, body_of};
ghost use Rattle.code_layout.specs.Layout.{reading_of, expr_tree, line_read, parts_of, read_parts};
ghost use Rattle.code_layout.specs.Readings.{alt_read, branch_read};

use crate::expressions::expression;
use crate::laying::Laying;
use crate::patterns::{from_right, pattern, patterns};
use code_tree::{Clause, Line, Pattern, Tree};
use erl_syntax::{Alt, Branch, Clause as Read, Expr, Guard, Item, Listed};
use std::alloc::{AllocError, Global};

/// The tests of an alternative of a guard.
#[cycle(lay)]
fn tests(laying: &Laying, exprs: &[Expr]) -> Result<Listed<Tree>, AllocError>
    ensures { IfOk result (λ tests. map tree_of tests ≡ map (expr_tree laying.now) exprs.now) }
{
    let mut tests = Vec::new(laying.alloc);
    for expr in exprs {
        let test = expression(laying, expr)?;
        tests.push(test)?;
    }
    Ok(Listed::of(tests))
}

/// The alternatives of a guard.
#[cycle(lay)]
fn tests_of(laying: &Laying, read: &Guard) -> Result<Vec<Listed<Tree>>, AllocError>
    ensures { IfOk result (λ found. map (map tree_of) found.items ≡ map (map (expr_tree laying.now)) read.now.alternatives) }
{
    let mut found = Vec::new(laying.alloc);
    let reads = read.alternatives.items();
    for exprs in reads {
        let tests = tests(laying, exprs.items())?;
        found.push(tests)?;
    }
    Ok(found)
}

/// A guard of these alternatives. No guard is one alternative without tests.
fn guard_of_tests(
    alloc: Global,
    mut alternatives: Vec<Listed<Tree>>,
) -> Result<Listed<Listed<Tree>>, AllocError>
    ensures { IfOk result (λ guard. (readss : List (List ExprRead)) → map (map tree_of) alternatives.items ≡ map (map (λ q. q.tree)) readss → guard_of guard ≡ read_guard readss) }
{
    if alternatives.is_empty() {
        alternatives.push(Listed::of(Vec::new(alloc)))?;
        return Ok(Listed::of(alternatives));
    }
    Ok(Listed::of(alternatives))
}

/// A guard.
#[cycle(lay)]
fn guard(laying: &Laying, read: &Guard) -> Result<Listed<Listed<Tree>>, AllocError>
    ensures { IfOk result (λ guard. guard_of guard ≡ guard_tree (reading_of laying.now) read.now) }
{
    let alternatives = tests_of(laying, read)?;
    guard_of_tests(laying.alloc, alternatives)
}

/// An item of a body.
#[cycle(lay)]
fn line(laying: &Laying, item: &Item) -> Result<Line, AllocError>
    ensures { IfOk result (λ line. line_of line ≡ line_read laying.now item.now) }
{
    let patterns = from_right(laying, item.patterns.items())?;
    let value = expression(laying, &item.value)?;
    Ok(Line { patterns, value })
}

#[cycle(lay)]
fn body(laying: &Laying, items: &[Item]) -> Result<Listed<Line>, AllocError>
    ensures { IfOk result (λ lines. map line_of lines ≡ map (line_read laying.now) items.now) }
{
    let mut lines = Vec::new(laying.alloc);
    for item in items {
        let line = line(laying, item)?;
        lines.push(line)?;
    }
    Ok(Listed::of(lines))
}

/// A clause of these parts.
fn clause(patterns: Listed<Pattern>, guard: Listed<Listed<Tree>>, body: Listed<Line>) -> Clause
    ensures { parts_of (clause_of result) ≡ record { heads = patterns_of patterns; guard = guard_of guard; body = body_of body } }
{
    Clause {
        patterns,
        guard,
        body,
    }
}

/// A clause of a `case` or a `receive`.
#[cycle(lay)]
fn alternative(laying: &Laying, alt: &Alt) -> Result<Clause, AllocError>
    ensures { IfOk result (λ clause. parts_of (clause_of clause) ≡ read_parts (alt_read (reading_of laying.now) alt.now)) }
{
    let mut patterns = Vec::new(laying.alloc);
    let pattern = pattern(laying, &alt.pattern)?;
    patterns.push(pattern)?;
    let guard = guard(laying, &alt.guard)?;
    let body = body(laying, alt.body.items())?;
    Ok(clause(Listed::of(patterns), guard, body))
}

/// The clauses of a `case` or a `receive`.
#[cycle(lay)]
pub(crate) fn alternatives(laying: &Laying, alts: &[Alt]) -> Result<Listed<Clause>, AllocError>
    ensures { IfOk result (λ found. clauses_of found ≡ clauses (map (alt_read (reading_of laying.now)) alts.now)) }
{
    let mut clauses = Vec::new(laying.alloc);
    for alt in alts {
        let clause = alternative(laying, alt)?;
        clauses.push(clause)?;
    }
    Ok(Listed::of(clauses))
}

/// A clause of an `if`.
#[cycle(lay)]
fn branch(laying: &Laying, read: &Branch) -> Result<Clause, AllocError>
    ensures { IfOk result (λ clause. parts_of (clause_of clause) ≡ read_parts (branch_read (reading_of laying.now) read.now)) }
{
    let patterns = Listed::of(Vec::new(laying.alloc));
    let guard = guard(laying, &read.guard)?;
    let body = body(laying, read.body.items())?;
    Ok(clause(patterns, guard, body))
}

/// The clauses of an `if`.
#[cycle(lay)]
pub(crate) fn branches(laying: &Laying, branches: &[Branch]) -> Result<Listed<Clause>, AllocError>
    ensures { IfOk result (λ found. clauses_of found ≡ clauses (map (branch_read (reading_of laying.now)) branches.now)) }
{
    let mut clauses = Vec::new(laying.alloc);
    for read in branches {
        let clause = branch(laying, read)?;
        clauses.push(clause)?;
    }
    Ok(Listed::of(clauses))
}

/// The clauses of a function.
pub(crate) fn function_clauses(
    laying: &Laying,
    reads: &[Read],
) -> Result<Listed<Clause>, AllocError>
    ensures { IfOk result (λ found. clauses_of found ≡ function_clauses (reading_of laying.now) reads.now) }
{
    let mut clauses = Vec::new(laying.alloc);
    for read in reads {
        let patterns = patterns(laying, read.patterns.items())?;
        let guard = guard(laying, &read.guard)?;
        let body = body(laying, read.body.items())?;
        let clause = clause(patterns, guard, body);
        clauses.push(clause)?;
    }
    Ok(Listed::of(clauses))
}
