ghost use Rattle.std.specs.Prelude.{◌≤◌, ◌<◌, ◌+◌, length, IfOk};
ghost use Rattle.pattern_read.specs.Reading.{Gives, closed};
ghost use Rattle.pattern_read.specs.Wanted.{in_size};
ghost use Rattle.pattern_read.specs.WantedPatterns.{goes_same, pat_in, pattern_end_in, pattern_in, pattern_list_in, patterns_in, same_in, ClosesPatterns};

use crate::cursor::{Cursor, mark};
use crate::fault::{Cause, Fault};
use crate::pattern_leaves::leaf;
pub use crate::pattern_segments::pattern_bits;
use crate::pattern_starts::{opens_pattern, pattern_cause};
use crate::placed::{Placed, higher};
use erl_syntax::{Listed, Pattern, TokenKind};
use std::alloc::Global;

/// A pattern.
#[cycle(pattern)]
pub fn pattern(
    alloc: Global,
    cursor: &Cursor,
    at: usize,
    deep: usize,
    brackets: usize,
) -> Result<(Placed<Pattern>, usize), Fault>
    requires place { at ≤ length cursor.now.words }
    requires tree { deep ≤ cursor.now.limits.trees }
    requires bracket { brackets ≤ cursor.now.limits.brackets }
    ensures reads { Gives goes_same (pattern_in (in_size deep brackets)) cursor.now at result }
    ensures further { IfOk result (λ r. at < r.1 × (r.1 ≤ length cursor.now.words)) }
    ensures bounded { IfOk result (λ r. (1 ≤ r.0.height) × (deep + r.0.height ≤ cursor.now.limits.trees + 1)) }
{
    let (first, after) = pat(alloc, cursor, at, deep, brackets)?;
    let place = first.at;
    let ((tree, height), next) = same(alloc, cursor, after, deep, brackets, first)?;
    Ok((
        Placed {
            at: place,
            tree,
            height,
        },
        next,
    ))
}

/// What stands behind the first pattern of a chain of patterns with `=` between them.
#[cycle(pattern)]
fn same(
    alloc: Global,
    cursor: &Cursor,
    at: usize,
    deep: usize,
    brackets: usize,
    first: Placed<Pattern>,
) -> Result<((Pattern, usize), usize), Fault>
    requires place { at ≤ length cursor.now.words }
    requires tree { deep ≤ cursor.now.limits.trees }
    requires bracket { brackets ≤ cursor.now.limits.brackets }
    requires tall { 1 ≤ first.height }
    requires height { deep + first.height ≤ cursor.now.limits.trees + 1 }
    ensures reads { Gives goes_same (same_in (in_size deep brackets) first) cursor.now at result }
    ensures further { IfOk result (λ r. at ≤ r.1 × (r.1 ≤ length cursor.now.words)) }
    ensures bounded { IfOk result (λ r. (1 ≤ r.0.1) × (deep + r.0.1 ≤ cursor.now.limits.trees + 1)) }
{
    if !cursor.is(at, TokenKind::Match) {
        return Ok(((first.tree, first.height), at));
    }
    if deep + first.height > cursor.trees() {
        return Err(Fault::Refused(at, Cause::TooDeep));
    }
    let place = first.at;
    let mut height = first.height;
    let mut patterns = vec![in alloc; first.tree]?;
    let mut next = at + 1;
    loop {
        let (item, after) = pat(alloc, cursor, next, deep + 1, brackets)?;
        patterns.push(item.tree)?;
        height = higher(height, item.height);
        if !cursor.is(after, TokenKind::Match) {
            let tree = Pattern::Same {
                at: place,
                patterns: Listed::of(patterns),
            };
            return Ok(((tree, height + 1), after));
        }
        next = after + 1;
    }
}

/// A pattern with no `=` outside brackets.
#[cycle(pattern)]
pub fn pat(
    alloc: Global,
    cursor: &Cursor,
    at: usize,
    deep: usize,
    brackets: usize,
) -> Result<(Placed<Pattern>, usize), Fault>
    requires place { at ≤ length cursor.now.words }
    requires tree { deep ≤ cursor.now.limits.trees }
    requires bracket { brackets ≤ cursor.now.limits.brackets }
    ensures reads { Gives closed (pat_in (in_size deep brackets)) cursor.now at result }
    ensures further { IfOk result (λ r. at < r.1 × (r.1 ≤ length cursor.now.words)) }
    ensures bounded { IfOk result (λ r. (1 ≤ r.0.height) × (deep + r.0.height ≤ cursor.now.limits.trees + 1)) }
{
    let Some(numbered) = cursor.token(at) else {
        return Err(Fault::Refused(at, Cause::Syntax));
    };
    let kind = numbered.token.kind;
    if !opens_pattern(kind) {
        return leaf(alloc, cursor, at, numbered);
    }
    if brackets >= cursor.brackets() {
        return Err(Fault::Refused(at, Cause::TooDeep));
    }
    let place = numbered.token.span;
    match kind {
        TokenKind::LeftParen => {
            let (inner, after) = pattern(alloc, cursor, at + 1, deep, brackets + 1)?;
            let (_, next) = mark(cursor, after, TokenKind::RightParen)?;
            Ok((
                Placed {
                    at: place,
                    tree: inner.tree,
                    height: inner.height,
                },
                next,
            ))
        }
        TokenKind::LeftBrace => {
            let close = TokenKind::RightBrace;
            let ((items, height), next) = patterns(
                alloc,
                cursor,
                at + 1,
                deep + 1,
                brackets + 1,
                close,
            )?;
            Ok((
                Placed {
                    at: place,
                    tree: Pattern::Tuple { at: place, items },
                    height: height + 1,
                },
                next,
            ))
        }
        TokenKind::LeftBracket => {
            let (((items, tail), height), next) = pattern_list(
                alloc,
                cursor,
                at + 1,
                deep + 1,
                brackets + 1,
            )?;
            Ok((
                Placed {
                    at: place,
                    tree: Pattern::List {
                        at: place,
                        items,
                        tail,
                    },
                    height: height + 1,
                },
                next,
            ))
        }
        _ => {
            let ((segments, height), next) = pattern_bits(alloc, cursor, at + 1, deep, brackets)?;
            Ok((
                Placed {
                    at: place,
                    tree: Pattern::Bits {
                        at: place,
                        segments,
                    },
                    height,
                },
                next,
            ))
        }
    }
}

/// Patterns up to a closing bracket.
#[cycle(pattern)]
pub fn patterns(
    alloc: Global,
    cursor: &Cursor,
    at: usize,
    deep: usize,
    brackets: usize,
    close: TokenKind,
) -> Result<((Listed<Pattern>, usize), usize), Fault>
    requires place { at ≤ length cursor.now.words }
    requires tree { deep ≤ cursor.now.limits.trees + 1 }
    requires bracket { brackets ≤ cursor.now.limits.brackets }
    requires closes { ClosesPatterns close }
    ensures reads { Gives closed (patterns_in close (in_size deep brackets)) cursor.now at result }
    ensures further { IfOk result (λ r. at < r.1 × (r.1 ≤ length cursor.now.words)) }
    ensures bounded { IfOk result (λ r. deep + r.0.1 ≤ cursor.now.limits.trees + 1) }
{
    let mut items = Vec::new(alloc);
    if cursor.is(at, close) {
        return Ok(((Listed::of(items), 0), at + 1));
    }
    if deep > cursor.trees() {
        return Err(Fault::Refused(at, pattern_cause(cursor, at)));
    }
    let mut height = 0;
    let mut next = at;
    loop {
        let (item, after) = pattern(alloc, cursor, next, deep, brackets)?;
        items.push(item.tree)?;
        height = higher(height, item.height);
        if cursor.is(after, close) {
            return Ok(((Listed::of(items), height), after + 1));
        }
        if !cursor.is(after, TokenKind::Comma) {
            return Err(Fault::Refused(after, Cause::Syntax));
        }
        next = after + 1;
    }
}

/// The items and the tail of a list, behind `[`.
#[cycle(pattern)]
fn pattern_list(
    alloc: Global,
    cursor: &Cursor,
    at: usize,
    deep: usize,
    brackets: usize,
) -> Result<(((Listed<Pattern>, Listed<Pattern>), usize), usize), Fault>
    requires place { at ≤ length cursor.now.words }
    requires tree { deep ≤ cursor.now.limits.trees + 1 }
    requires bracket { brackets ≤ cursor.now.limits.brackets }
    ensures reads { Gives closed (pattern_list_in (in_size deep brackets)) cursor.now at result }
    ensures further { IfOk result (λ r. at < r.1 × (r.1 ≤ length cursor.now.words)) }
    ensures bounded { IfOk result (λ r. deep + r.0.1 ≤ cursor.now.limits.trees + 1) }
{
    let mut items = Vec::new(alloc);
    if cursor.is(at, TokenKind::RightBracket) {
        let tail = Listed::of(Vec::new(alloc));
        return Ok((((Listed::of(items), tail), 0), at + 1));
    }
    if deep > cursor.trees() {
        return Err(Fault::Refused(at, pattern_cause(cursor, at)));
    }
    let mut height = 0;
    let mut next = at;
    loop {
        let (item, after) = pattern(alloc, cursor, next, deep, brackets)?;
        items.push(item.tree)?;
        height = higher(height, item.height);
        if !cursor.is(after, TokenKind::Comma) {
            let ((tail, tall), end) = pattern_end(alloc, cursor, after, deep, brackets)?;
            return Ok((((Listed::of(items), tail), higher(height, tall)), end));
        }
        next = after + 1;
    }
}

/// The end of a list behind its last item: the tail, if there is one.
#[cycle(pattern)]
fn pattern_end(
    alloc: Global,
    cursor: &Cursor,
    at: usize,
    deep: usize,
    brackets: usize,
) -> Result<((Listed<Pattern>, usize), usize), Fault>
    requires place { at ≤ length cursor.now.words }
    requires tree { deep ≤ cursor.now.limits.trees }
    requires bracket { brackets ≤ cursor.now.limits.brackets }
    ensures reads { Gives closed (pattern_end_in (in_size deep brackets)) cursor.now at result }
    ensures further { IfOk result (λ r. at < r.1 × (r.1 ≤ length cursor.now.words)) }
    ensures bounded { IfOk result (λ r. deep + r.0.1 ≤ cursor.now.limits.trees + 1) }
{
    if cursor.is(at, TokenKind::RightBracket) {
        return Ok(((Listed::of(Vec::new(alloc)), 0), at + 1));
    }
    if !cursor.is(at, TokenKind::Bar) {
        return Err(Fault::Refused(at, Cause::Syntax));
    }
    let (tail, after) = pattern(alloc, cursor, at + 1, deep, brackets)?;
    let (_, next) = mark(cursor, after, TokenKind::RightBracket)?;
    let items = vec![in alloc; tail.tree]?;
    Ok(((Listed::of(items), tail.height), next))
}
