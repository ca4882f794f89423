ghost use Rattle.std.specs.Prelude.{◌≡◌, ◌≤◌, ◌<◌, ◌+◌, ◌^◌, length, drop, IfOk};
ghost use Rattle.pattern_read.specs.Reading.{Gives, closed};
ghost use Rattle.pattern_read.specs.Wanted.{in_size};
ghost use Rattle.pattern_read.specs.WantedPatterns.{goes_sized, pattern_bits_in, pattern_rest_in, pattern_segment_in, pattern_size_in};

use crate::cursor::{Cursor, mark};
use crate::fault::{Cause, Fault};
use crate::pattern_leaves::pattern_value;
use crate::pattern_starts::value_cause;
use crate::placed::{Placed, higher};
use crate::segment_types::segment_type;
use crate::sizes::size_level;
use erl_syntax::{Expr, Listed, Segment, TokenKind};
use std::alloc::Global;

/// The segments of a bit pattern, behind `<<`.
pub fn pattern_bits(
    alloc: Global,
    cursor: &Cursor,
    at: usize,
    deep: usize,
    brackets: usize,
) -> Result<((Listed<Segment>, usize), usize), Fault>
    requires place { at ≤ length cursor.now.words }
    requires tree { deep ≤ cursor.now.limits.trees }
    requires bracket { brackets < cursor.now.limits.brackets }
    ensures reads { Gives closed (pattern_bits_in (in_size deep brackets)) cursor.now at result }
    ensures further { IfOk result (λ r. at < r.1 × (r.1 ≤ length cursor.now.words)) }
    ensures bounded { IfOk result (λ r. (1 ≤ r.0.1) × (deep + r.0.1 ≤ cursor.now.limits.trees + 1)) }
{
    let mut segments = Vec::new(alloc);
    if cursor.is(at, TokenKind::RightBits) {
        return Ok(((Listed::of(segments), 1), at + 1));
    }
    if deep >= cursor.trees() {
        return Err(Fault::Refused(at, value_cause(cursor, at)));
    }
    let mut height = 0;
    let mut next = at;
    loop {
        let ((segment, tall), after) = pattern_segment(
            alloc,
            cursor,
            next,
            deep + 1,
            brackets + 1,
        )?;
        segments.push(segment)?;
        height = higher(height, tall);
        if cursor.is(after, TokenKind::RightBits) {
            return Ok(((Listed::of(segments), height + 1), after + 1));
        }
        if !cursor.is(after, TokenKind::Comma) {
            return Err(Fault::Refused(after, Cause::Syntax));
        }
        next = after + 1;
    }
}

/// A segment of a bit pattern.
fn pattern_segment(
    alloc: Global,
    cursor: &Cursor,
    at: usize,
    deep: usize,
    brackets: usize,
) -> Result<((Segment, usize), usize), Fault>
    requires place { at ≤ length cursor.now.words }
    requires tree { deep ≤ cursor.now.limits.trees }
    requires bracket { brackets ≤ cursor.now.limits.brackets }
    ensures reads { Gives goes_sized (pattern_segment_in (in_size deep brackets)) cursor.now at result }
    ensures further { IfOk result (λ r. at < r.1 × (r.1 ≤ length cursor.now.words)) }
    ensures bounded { IfOk result (λ r. (1 ≤ r.0.1) × (deep + r.0.1 ≤ cursor.now.limits.trees + 1)) }
{
    let (value, after) = pattern_value(alloc, cursor, at, deep)?;
    segment_rest(alloc, cursor, after, deep, brackets, value)
}

/// A segment of a bit pattern, behind its value.
fn segment_rest(
    alloc: Global,
    cursor: &Cursor,
    at: usize,
    deep: usize,
    brackets: usize,
    value: Placed<Expr>,
) -> Result<((Segment, usize), usize), Fault>
    requires place { at ≤ length cursor.now.words }
    requires tree { deep ≤ cursor.now.limits.trees }
    requires bracket { brackets ≤ cursor.now.limits.brackets }
    requires tall { 1 ≤ value.height }
    requires height { deep + value.height ≤ cursor.now.limits.trees + 1 }
    ensures reads { Gives goes_sized (pattern_rest_in (in_size deep brackets) value) cursor.now at result }
    ensures further { IfOk result (λ r. at ≤ r.1 × (r.1 ≤ length cursor.now.words)) }
    ensures bounded { IfOk result (λ r. (1 ≤ r.0.1) × (deep + r.0.1 ≤ cursor.now.limits.trees + 1)) }
{
    let place = value.at;
    if !cursor.is(at, TokenKind::Colon) {
        let (segment, next) = segment_type(alloc, cursor, at, place, value.tree, None)?;
        return Ok(((segment, value.height), next));
    }
    let ((size, tall), after) = pattern_size(alloc, cursor, at + 1, deep, brackets)?;
    let (segment, next) = segment_type(alloc, cursor, after, place, value.tree, Some(size))?;
    Ok(((segment, higher(value.height, tall)), next))
}

/// The size of a segment of a bit pattern: an integer, a variable, or an expression in parentheses.
fn pattern_size(
    alloc: Global,
    cursor: &Cursor,
    at: usize,
    deep: usize,
    brackets: usize,
) -> Result<((Expr, usize), usize), Fault>
    requires place { at ≤ length cursor.now.words }
    requires tree { deep ≤ cursor.now.limits.trees }
    requires bracket { brackets ≤ cursor.now.limits.brackets }
    ensures reads { Gives closed (pattern_size_in (in_size deep brackets)) cursor.now at result }
    ensures further { IfOk result (λ r. at < r.1 × (r.1 ≤ length cursor.now.words)) }
    ensures bounded { IfOk result (λ r. (1 ≤ r.0.1) × (deep + r.0.1 ≤ cursor.now.limits.trees + 1)) }
{
    let Some(numbered) = cursor.token(at) else {
        return Err(Fault::Refused(at, Cause::Syntax));
    };
    let place = numbered.token.span;
    match numbered.token.kind {
        TokenKind::Integer => {
            let value = numbered.integer();
            Ok(((Expr::Int { at: place, value }, 1), at + 1))
        }
        TokenKind::Variable => {
            let name = cursor.name(alloc, at)?;
            Ok(((Expr::Var { at: place, name }, 1), at + 1))
        }
        TokenKind::LeftParen => {
            if brackets >= cursor.brackets() {
                return Err(Fault::Refused(at, Cause::TooDeep));
            }
            let (inner, after) = size_level(alloc, cursor, at + 1, 0, deep, brackets + 1)?;
            let (_, next) = mark(cursor, after, TokenKind::RightParen)?;
            Ok(((inner.tree, inner.height), next))
        }
        _ => Err(Fault::Refused(at, Cause::Syntax)),
    }
}
