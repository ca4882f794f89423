ghost use Rattle.std.specs.Prelude.{◌≤◌, ◌<◌, ◌+◌, length, IfOk};
ghost use Rattle.pattern_read.specs.Reading.{Gives, closed};
ghost use Rattle.body_read.specs.WantedExprs.{in_body, item_in, item_longer};
ghost use Rattle.body_read.specs.WantedItems.{matched_in};

use crate::choosing::item_value;
use crate::exprs::level;
use crate::site::Site;
use erl_syntax::{Item, Listed, Pattern, TokenKind};
use pattern_read::cursor::{Cursor, mark};
use pattern_read::fault::Fault;
use pattern_read::patterns::pat;
use pattern_read::placed::{Placed, higher};
use std::alloc::Global;

/// An item of a body: patterns, each with `=`, and an expression.
#[cycle(expr)]
pub fn item(
    alloc: Global,
    cursor: &Cursor,
    at: usize,
    deep: usize,
    brackets: usize,
) -> Result<((Item, usize), usize), Fault>
    requires place { at ≤ length cursor.now.words }
    requires tree { deep ≤ cursor.now.limits.trees }
    requires bracket { brackets ≤ cursor.now.limits.brackets }
    ensures reads { Gives item_longer (item_in (in_body deep brackets)) cursor.now at result }
    ensures further { IfOk result (λ r. at < r.1 × (r.1 ≤ length cursor.now.words)) }
    ensures bounded { IfOk result (λ r. (1 ≤ r.0.1) × (deep + r.0.1 ≤ cursor.now.limits.trees + 1)) }
{
    let mut patterns = Vec::new(alloc);
    let mut height = 0;
    let mut next = at;
    loop {
        match matched(alloc, cursor, next, deep, brackets) {
            Ok((pattern, after)) => {
                patterns.push(pattern.tree)?;
                height = higher(height, pattern.height);
                next = after;
            }
            Err(fault) => {
                let read = level(alloc, cursor, next, 0, Site::Body, deep, brackets);
                let (value, after) = item_value(cursor, next, fault, read)?;
                let patterns = Listed::of(patterns);
                let height = higher(height, value.height);
                let value = value.tree;
                return Ok(((Item { patterns, value }, height), after));
            }
        }
    }
}

/// A pattern of an item, with its `=`.
fn matched(
    alloc: Global,
    cursor: &Cursor,
    at: usize,
    deep: usize,
    brackets: usize,
) -> Result<(Placed<Pattern>, usize), Fault>
    requires place { at ≤ length cursor.now.words }
    requires tree { deep ≤ cursor.now.limits.trees }
    requires bracket { brackets ≤ cursor.now.limits.brackets }
    ensures reads { Gives closed (matched_in (in_body deep brackets)) cursor.now at result }
    ensures further { IfOk result (λ r. at < r.1 × (r.1 ≤ length cursor.now.words)) }
    ensures bounded { IfOk result (λ r. (1 ≤ r.0.height) × (deep + r.0.height ≤ cursor.now.limits.trees + 1)) }
{
    let (pattern, after) = pat(alloc, cursor, at, deep, brackets)?;
    let (_, next) = mark(cursor, after, TokenKind::Match)?;
    Ok((pattern, next))
}
