ghost use Rattle.std.specs.Prelude.{◌≤◌, ◌<◌, ◌+◌, length, IfOk};
ghost use Rattle.pattern_read.specs.Reading.{Gives, closed};
ghost use Rattle.body_read.specs.WantedExprs.{alt_in, alts_in, body_longer, branch_in, branches_in, in_body};

use crate::bodies::{body, guarded, tests};
use erl_syntax::{Alt, Branch, Guard, Listed, TokenKind};
use pattern_read::cursor::Cursor;
use pattern_read::fault::{Cause, Fault};
use pattern_read::patterns::pattern;
use pattern_read::placed::higher;
use std::alloc::Global;

/// The clauses of `case` and `receive`, up to `end`.
#[cycle(expr)]
pub fn alts(
    alloc: Global,
    cursor: &Cursor,
    at: usize,
    deep: usize,
    brackets: usize,
) -> Result<((Listed<Alt>, usize), usize), Fault>
    requires place { at ≤ length cursor.now.words }
    requires tree { deep ≤ cursor.now.limits.trees }
    requires bracket { brackets ≤ cursor.now.limits.brackets }
    ensures reads { Gives closed (alts_in (in_body deep brackets)) cursor.now at result }
    ensures further { IfOk result (λ r. at < r.1 × (r.1 ≤ length cursor.now.words)) }
    ensures bounded { IfOk result (λ r. (1 ≤ r.0.1) × (deep + r.0.1 ≤ cursor.now.limits.trees + 1)) }
{
    let mut alts = Vec::new(alloc);
    let mut height = 0;
    let mut next = at;
    loop {
        let ((read, tall), after) = alt(alloc, cursor, next, deep, brackets)?;
        alts.push(read)?;
        height = higher(height, tall);
        if cursor.is(after, TokenKind::End) {
            return Ok(((Listed::of(alts), height), after + 1));
        }
        if !cursor.is(after, TokenKind::Semicolon) {
            return Err(Fault::Refused(after, Cause::Syntax));
        }
        next = after + 1;
    }
}

/// A clause of `case` or `receive`.
#[cycle(expr)]
pub fn alt(
    alloc: Global,
    cursor: &Cursor,
    at: usize,
    deep: usize,
    brackets: usize,
) -> Result<((Alt, usize), usize), Fault>
    requires place { at ≤ length cursor.now.words }
    requires tree { deep ≤ cursor.now.limits.trees }
    requires bracket { brackets ≤ cursor.now.limits.brackets }
    ensures reads { Gives body_longer (alt_in (in_body deep brackets)) cursor.now at result }
    ensures further { IfOk result (λ r. at < r.1 × (r.1 ≤ length cursor.now.words)) }
    ensures bounded { IfOk result (λ r. (1 ≤ r.0.1) × (deep + r.0.1 ≤ cursor.now.limits.trees + 1)) }
{
    let (first, after) = pattern(alloc, cursor, at, deep, brackets)?;
    let ((guard, guard_height), then) = guarded(alloc, cursor, after, deep, brackets)?;
    let ((items, body_height), next) = body(alloc, cursor, then, deep, brackets)?;
    let alt = Alt {
        at: first.at,
        pattern: first.tree,
        guard,
        body: items,
    };
    let height = higher(first.height, higher(guard_height, body_height));
    Ok(((alt, height), next))
}

/// The clauses of `if`, up to `end`.
#[cycle(expr)]
pub fn branches(
    alloc: Global,
    cursor: &Cursor,
    at: usize,
    deep: usize,
    brackets: usize,
) -> Result<((Listed<Branch>, usize), usize), Fault>
    requires place { at ≤ length cursor.now.words }
    requires tree { deep ≤ cursor.now.limits.trees }
    requires bracket { brackets ≤ cursor.now.limits.brackets }
    ensures reads { Gives closed (branches_in (in_body deep brackets)) cursor.now at result }
    ensures further { IfOk result (λ r. at < r.1 × (r.1 ≤ length cursor.now.words)) }
    ensures bounded { IfOk result (λ r. (1 ≤ r.0.1) × (deep + r.0.1 ≤ cursor.now.limits.trees + 1)) }
{
    let mut branches = Vec::new(alloc);
    let mut height = 0;
    let mut next = at;
    loop {
        let ((read, tall), after) = branch(alloc, cursor, next, deep, brackets)?;
        branches.push(read)?;
        height = higher(height, tall);
        if cursor.is(after, TokenKind::End) {
            return Ok(((Listed::of(branches), height), after + 1));
        }
        if !cursor.is(after, TokenKind::Semicolon) {
            return Err(Fault::Refused(after, Cause::Syntax));
        }
        next = after + 1;
    }
}

/// A clause of `if`.
#[cycle(expr)]
pub fn branch(
    alloc: Global,
    cursor: &Cursor,
    at: usize,
    deep: usize,
    brackets: usize,
) -> Result<((Branch, usize), usize), Fault>
    requires place { at ≤ length cursor.now.words }
    requires tree { deep ≤ cursor.now.limits.trees }
    requires bracket { brackets ≤ cursor.now.limits.brackets }
    ensures reads { Gives body_longer (branch_in (in_body deep brackets)) cursor.now at result }
    ensures further { IfOk result (λ r. at < r.1 × (r.1 ≤ length cursor.now.words)) }
    ensures bounded { IfOk result (λ r. (1 ≤ r.0.1) × (deep + r.0.1 ≤ cursor.now.limits.trees + 1)) }
{
    let (read, after) = tests(alloc, cursor, at, deep, brackets)?;
    let ((items, body_height), next) = body(alloc, cursor, after, deep, brackets)?;
    let branch = Branch {
        at: read.at,
        guard: Guard {
            alternatives: read.tree,
        },
        body: items,
    };
    Ok(((branch, higher(read.height, body_height)), next))
}
