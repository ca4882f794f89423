ghost use Rattle.std.specs.Prelude.{◌≤◌, ◌<◌, ◌+◌, length, IfOk};
ghost use Rattle.pattern_read.specs.Reading.{Gives, closed};
ghost use Rattle.body_read.specs.WantedExprs.{body_in, body_longer, guarded_in, in_body, in_guard, tests_in};

use crate::exprs::level;
use crate::items::item;
use crate::site::Site;
use erl_syntax::{Expr, Guard, Item, Listed, TokenKind};
use pattern_read::cursor::Cursor;
use pattern_read::fault::{Cause, Fault};
use pattern_read::placed::{Placed, higher};
use std::alloc::Global;

/// A guard, if there is one, and the arrow.
#[cycle(expr)]
pub fn guarded(
    alloc: Global,
    cursor: &Cursor,
    at: usize,
    deep: usize,
    brackets: usize,
) -> Result<((Guard, usize), usize), Fault>
    requires place { at ≤ length cursor.now.words }
    requires tree { deep ≤ cursor.now.limits.trees }
    requires bracket { brackets ≤ cursor.now.limits.brackets }
    ensures reads { Gives closed (guarded_in (in_body deep brackets)) cursor.now at result }
    ensures further { IfOk result (λ r. at < r.1 × (r.1 ≤ length cursor.now.words)) }
    ensures bounded { IfOk result (λ r. deep + r.0.1 ≤ cursor.now.limits.trees + 1) }
{
    if cursor.is(at, TokenKind::Arrow) {
        let alternatives = Listed::of(Vec::new(alloc));
        return Ok(((Guard { alternatives }, 0), at + 1));
    }
    if !cursor.is(at, TokenKind::When) {
        return Err(Fault::Refused(at, Cause::Syntax));
    }
    let (read, next) = tests(alloc, cursor, at + 1, deep, brackets)?;
    let guard = Guard {
        alternatives: read.tree,
    };
    Ok(((guard, read.height), next))
}

/// The alternatives of a guard, and the arrow.
#[cycle(expr)]
pub fn tests(
    alloc: Global,
    cursor: &Cursor,
    at: usize,
    deep: usize,
    brackets: usize,
) -> Result<(Placed<Listed<Listed<Expr>>>, usize), Fault>
    requires place { at ≤ length cursor.now.words }
    requires tree { deep ≤ cursor.now.limits.trees }
    requires bracket { brackets ≤ cursor.now.limits.brackets }
    ensures reads { Gives closed (tests_in (in_guard deep brackets)) cursor.now at result }
    ensures further { IfOk result (λ r. at < r.1 × (r.1 ≤ length cursor.now.words)) }
    ensures bounded { IfOk result (λ r. (1 ≤ r.0.height) × (deep + r.0.height ≤ cursor.now.limits.trees + 1)) }
{
    let (first, after) = level(alloc, cursor, at, 0, Site::Guard, deep, brackets)?;
    let place = first.at;
    let mut height = first.height;
    let mut tests = vec![in alloc; first.tree]?;
    let mut alternatives = Vec::new(alloc);
    let mut next = after;
    loop {
        if cursor.is(next, TokenKind::Arrow) {
            alternatives.push(Listed::of(tests))?;
            let tree = Listed::of(alternatives);
            return Ok((
                Placed {
                    at: place,
                    tree,
                    height,
                },
                next + 1,
            ));
        }
        if cursor.is(next, TokenKind::Semicolon) {
            alternatives.push(Listed::of(tests))?;
            tests = Vec::new(alloc);
        } else if !cursor.is(next, TokenKind::Comma) {
            return Err(Fault::Refused(next, Cause::Syntax));
        }
        let (test, after) = level(alloc, cursor, next + 1, 0, Site::Guard, deep, brackets)?;
        tests.push(test.tree)?;
        height = higher(height, test.height);
        next = after;
    }
}

/// The items of a body.
#[cycle(expr)]
pub fn body(
    alloc: Global,
    cursor: &Cursor,
    at: usize,
    deep: usize,
    brackets: usize,
) -> Result<((Listed<Item>, usize), usize), Fault>
    requires place { at ≤ length cursor.now.words }
    requires tree { deep ≤ cursor.now.limits.trees }
    requires bracket { brackets ≤ cursor.now.limits.brackets }
    ensures reads { Gives body_longer (body_in (in_body deep brackets)) cursor.now at result }
    ensures further { IfOk result (λ r. at < r.1 × (r.1 ≤ length cursor.now.words)) }
    ensures bounded { IfOk result (λ r. (1 ≤ r.0.1) × (deep + r.0.1 ≤ cursor.now.limits.trees + 1)) }
{
    let mut items = Vec::new(alloc);
    let mut height = 0;
    let mut next = at;
    loop {
        let ((read, tall), after) = item(alloc, cursor, next, deep, brackets)?;
        items.push(read)?;
        height = higher(height, tall);
        if !cursor.is(after, TokenKind::Comma) {
            return Ok(((Listed::of(items), height), after));
        }
        next = after + 1;
    }
}
