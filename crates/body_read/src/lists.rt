ghost use Rattle.std.specs.Prelude.{◌≤◌, ◌<◌, ◌+◌, drop, length, IfOk};
ghost use Rattle.erl_syntax.specs.declared.token.TokenKind.TheVariants as k;
ghost use Rattle.pattern_read.specs.Reading.{Gives, closed};
ghost use Rattle.body_read.specs.WantedExprs.{in_site, list_in, mode_of};
ghost use Rattle.body_read.specs.WantedSegments.{NoRow, after_first_in, last_in};

use crate::exprs::{cause_of_first, level};
use crate::quals::quals;
use crate::segments::is_row;
use crate::site::Site;
use erl_syntax::{Expr, Listed, Span, TokenKind};
use pattern_read::cursor::{Cursor, mark};
use pattern_read::fault::{Cause, Fault};
use pattern_read::placed::{Placed, higher};
use std::alloc::Global;

/// A list or a list comprehension, behind `[`.
#[cycle(expr)]
pub fn list(
    alloc: Global,
    cursor: &Cursor,
    at: usize,
    site: Site,
    deep: usize,
    brackets: usize,
    place: Span,
) -> Result<((Expr, usize), usize), Fault>
    requires place { at ≤ length cursor.now.words }
    requires tree { deep ≤ cursor.now.limits.trees }
    requires bracket { brackets < cursor.now.limits.brackets }
    ensures reads { Gives closed (list_in (in_site site deep brackets) place) cursor.now at result }
    ensures further { IfOk result (λ r. at < r.1 × (r.1 ≤ length cursor.now.words)) }
    ensures bounded { IfOk result (λ r. (1 ≤ r.0.1) × (deep + r.0.1 ≤ cursor.now.limits.trees + 1)) }
{
    if cursor.is(at, TokenKind::RightBracket) {
        let items = Listed::of(Vec::new(alloc));
        let tail = Listed::of(Vec::new(alloc));
        let tree = Expr::List {
            at: place,
            items,
            tail,
        };
        return Ok(((tree, 1), at + 1));
    }
    if deep >= cursor.trees() {
        return Err(Fault::Refused(at, cause_of_first(cursor, at, site)));
    }
    let (first, next) = level(alloc, cursor, at, 0, site, deep + 1, brackets + 1)?;
    after_first(alloc, cursor, next, site, deep, brackets, place, first)
}

/// A list or a list comprehension, behind its first item.
#[cycle(expr)]
fn after_first(
    alloc: Global,
    cursor: &Cursor,
    at: usize,
    site: Site,
    deep: usize,
    brackets: usize,
    place: Span,
    first: Placed<Expr>,
) -> Result<((Expr, usize), usize), Fault>
    requires place { at ≤ length cursor.now.words }
    requires tree { deep < cursor.now.limits.trees }
    requires bracket { brackets < cursor.now.limits.brackets }
    requires tall { 1 ≤ first.height }
    requires height { deep + first.height ≤ cursor.now.limits.trees }
    ensures reads { Gives closed (after_first_in (in_site site deep brackets) place first) cursor.now at result }
    ensures further { IfOk result (λ r. at < r.1 × (r.1 ≤ length cursor.now.words)) }
    ensures bounded { IfOk result (λ r. (1 ≤ r.0.1) × (deep + r.0.1 ≤ cursor.now.limits.trees + 1)) }
{
    if !is_row(cursor, at, site) {
        return list_items(alloc, cursor, at, site, deep, brackets, place, first);
    }
    let ((quals, height), next) = quals(
        alloc,
        cursor,
        at + 1,
        deep + 1,
        brackets + 1,
        TokenKind::RightBracket,
    )?;
    let highest = higher(first.height, height) + 1;
    let row = Listed::of(vec![in alloc; first.tree]?);
    let tree = Expr::ListFor {
        at: place,
        row,
        quals,
    };
    Ok(((tree, highest), next))
}

/// A list behind its first item: more items and the tail, up to `]`.
#[cycle(expr)]
fn list_items(
    alloc: Global,
    cursor: &Cursor,
    at: usize,
    site: Site,
    deep: usize,
    brackets: usize,
    place: Span,
    first: Placed<Expr>,
) -> Result<((Expr, usize), usize), Fault>
    requires place { at ≤ length cursor.now.words }
    requires tree { deep < cursor.now.limits.trees }
    requires bracket { brackets < cursor.now.limits.brackets }
    requires tall { 1 ≤ first.height }
    requires height { deep + first.height ≤ cursor.now.limits.trees }
    requires row { NoRow (mode_of site) (drop at cursor.now.words) }
    ensures reads { Gives closed (after_first_in (in_site site deep brackets) place first) cursor.now at result }
    ensures further { IfOk result (λ r. at < r.1 × (r.1 ≤ length cursor.now.words)) }
    ensures bounded { IfOk result (λ r. (1 ≤ r.0.1) × (deep + r.0.1 ≤ cursor.now.limits.trees + 1)) }
{
    let mut height = first.height;
    let mut items = vec![in alloc; first.tree]?;
    let mut next = at;
    loop {
        if cursor.is(next, TokenKind::RightBracket) {
            let tree = Expr::List {
                at: place,
                items: Listed::of(items),
                tail: Listed::of(Vec::new(alloc)),
            };
            return Ok(((tree, height + 1), next + 1));
        }
        if cursor.is(next, TokenKind::Bar) {
            let (last, after) = last(alloc, cursor, next + 1, site, deep + 1, brackets + 1)?;
            let highest = higher(height, last.height) + 1;
            let tree = Expr::List {
                at: place,
                items: Listed::of(items),
                tail: Listed::of(vec![in alloc; last.tree]?),
            };
            return Ok(((tree, highest), after));
        }
        if !cursor.is(next, TokenKind::Comma) {
            return Err(Fault::Refused(next, Cause::Syntax));
        }
        let (item, after) = level(alloc, cursor, next + 1, 0, site, deep + 1, brackets + 1)?;
        items.push(item.tree)?;
        height = higher(height, item.height);
        next = after;
    }
}

/// The tail of a list and `]`.
#[cycle(expr)]
fn last(
    alloc: Global,
    cursor: &Cursor,
    at: usize,
    site: Site,
    deep: usize,
    brackets: usize,
) -> Result<(Placed<Expr>, usize), Fault>
    requires place { at ≤ length cursor.now.words }
    requires tree { deep ≤ cursor.now.limits.trees }
    requires bracket { brackets ≤ cursor.now.limits.brackets }
    ensures reads { Gives closed (last_in k.RightBracket (in_site site deep brackets)) cursor.now at result }
    ensures further { IfOk result (λ r. at < r.1 × (r.1 ≤ length cursor.now.words)) }
    ensures bounded { IfOk result (λ r. (1 ≤ r.0.height) × (deep + r.0.height ≤ cursor.now.limits.trees + 1)) }
{
    let (tail, after) = level(alloc, cursor, at, 0, site, deep, brackets)?;
    let (_, next) = mark(cursor, after, TokenKind::RightBracket)?;
    Ok((tail, next))
}
