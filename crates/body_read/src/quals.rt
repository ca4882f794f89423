ghost use Rattle.std.specs.Prelude.{◌≡◌, ◌≤◌, ◌<◌, ◌+◌, ◌^◌, length, drop, false, IfOk, OnSome, MatchOption};
ghost use Rattle.erl_syntax.specs.declared.token.TokenKind.TheVariants as k;
ghost use Rattle.pattern_read.specs.Reading.{Gives, closed};
ghost use Rattle.pattern_read.specs.Wanted.{Closes, NoMark};
ghost use Rattle.body_read.specs.WantedExprs.{in_body, qual_in, qual_longer, quals_in};
ghost use Rattle.body_read.specs.WantedItems.{OpensBits, generated_in, segments_in};

use crate::choosing::filter;
use crate::exprs::level;
use crate::site::Site;
use erl_syntax::{Listed, Pattern, Qual, Segment, Span, TokenKind};
use pattern_read::cursor::{Cursor, mark};
use pattern_read::fault::{Cause, Fault};
use pattern_read::patterns::{pattern, pattern_bits};
use pattern_read::placed::{Placed, higher};
use std::alloc::Global;

/// Qualifiers up to a closing bracket.
#[cycle(expr)]
pub fn quals(
    alloc: Global,
    cursor: &Cursor,
    at: usize,
    deep: usize,
    brackets: usize,
    close: TokenKind,
) -> Result<((Listed<Qual>, usize), usize), Fault>
    requires place { at ≤ length cursor.now.words }
    requires tree { deep ≤ cursor.now.limits.trees }
    requires bracket { brackets ≤ cursor.now.limits.brackets }
    requires closes { Closes close }
    requires ends { qual_longer close ≡ false }
    ensures reads { Gives closed (quals_in close (in_body deep brackets)) cursor.now at result }
    ensures further { IfOk result (λ r. at < r.1 × (r.1 ≤ length cursor.now.words)) }
    ensures bounded { IfOk result (λ r. (1 ≤ r.0.1) × (deep + r.0.1 ≤ cursor.now.limits.trees + 1)) }
{
    let mut items = Vec::new(alloc);
    let mut height = 0;
    let mut next = at;
    loop {
        let ((item, tall), after) = qual(alloc, cursor, next, deep, brackets)?;
        items.push(item)?;
        height = higher(height, tall);
        if cursor.is(after, close) {
            return Ok(((Listed::of(items), height), after + 1));
        }
        if !cursor.is(after, TokenKind::Comma) {
            return Err(Fault::Refused(after, Cause::Syntax));
        }
        next = after + 1;
    }
}

/// A qualifier: a generator or a filter.
#[cycle(expr)]
pub fn qual(
    alloc: Global,
    cursor: &Cursor,
    at: usize,
    deep: usize,
    brackets: usize,
) -> Result<((Qual, usize), usize), Fault>
    requires place { at ≤ length cursor.now.words }
    requires tree { deep ≤ cursor.now.limits.trees }
    requires bracket { brackets ≤ cursor.now.limits.brackets }
    ensures reads { Gives qual_longer (qual_in (in_body deep brackets)) cursor.now at result }
    ensures further { IfOk result (λ r. at < r.1 × (r.1 ≤ length cursor.now.words)) }
    ensures bounded { IfOk result (λ r. (1 ≤ r.0.1) × (deep + r.0.1 ≤ cursor.now.limits.trees + 1)) }
{
    let fault = match generated(alloc, cursor, at, deep, brackets) {
        Ok((first, after)) => {
            let (list, next) = level(alloc, cursor, after, 0, Site::Body, deep, brackets)?;
            let height = higher(first.height, list.height);
            let qualifier = Qual::Items {
                at: first.at,
                pattern: first.tree,
                source: list.tree,
            };
            return Ok(((qualifier, height), next));
        }
        Err(fault) => fault,
    };
    let Some(place) = opening(cursor, at) else {
        let read = level(alloc, cursor, at, 0, Site::Body, deep, brackets);
        return filter(cursor, at, fault, None, read);
    };
    if brackets >= cursor.brackets() {
        return Err(Fault::Refused(at, Cause::TooDeep));
    }
    match segments(alloc, cursor, at + 1, deep, brackets) {
        Ok((read, after)) => {
            let (bits, next) = level(alloc, cursor, after, 0, Site::Body, deep, brackets)?;
            let (parts, tall) = read;
            let height = higher(tall, bits.height);
            let qualifier = Qual::Bits {
                at: place,
                segments: parts,
                source: bits.tree,
            };
            Ok(((qualifier, height), next))
        }
        Err(other) => {
            let read = level(alloc, cursor, at, 0, Site::Body, deep, brackets);
            filter(cursor, at, fault, Some(other), read)
        }
    }
}

/// A pattern of a generator, with its arrow.
fn generated(
    alloc: Global,
    cursor: &Cursor,
    at: usize,
    deep: usize,
    brackets: usize,
) -> Result<(Placed<Pattern>, usize), Fault>
    requires place { at ≤ length cursor.now.words }
    requires tree { deep ≤ cursor.now.limits.trees }
    requires bracket { brackets ≤ cursor.now.limits.brackets }
    ensures reads { Gives closed (generated_in (in_body deep brackets)) cursor.now at result }
    ensures further { IfOk result (λ r. at < r.1 × (r.1 ≤ length cursor.now.words)) }
    ensures bounded { IfOk result (λ r. (1 ≤ r.0.height) × (deep + r.0.height ≤ cursor.now.limits.trees + 1)) }
{
    let (first, after) = pattern(alloc, cursor, at, deep, brackets)?;
    let (_, next) = mark(cursor, after, TokenKind::LeftArrow)?;
    Ok((first, next))
}

/// The segments of a generator of bits, behind `<<`, with their arrow.
fn segments(
    alloc: Global,
    cursor: &Cursor,
    at: usize,
    deep: usize,
    brackets: usize,
) -> Result<((Listed<Segment>, usize), usize), Fault>
    requires place { at ≤ length cursor.now.words }
    requires tree { deep ≤ cursor.now.limits.trees }
    requires bracket { brackets < cursor.now.limits.brackets }
    ensures reads { Gives closed (segments_in (in_body deep brackets)) cursor.now at result }
    ensures further { IfOk result (λ r. at < r.1 × (r.1 ≤ length cursor.now.words)) }
    ensures bounded { IfOk result (λ r. (1 ≤ r.0.1) × (deep + r.0.1 ≤ cursor.now.limits.trees + 1)) }
{
    let (read, after) = pattern_bits(alloc, cursor, at, deep, brackets)?;
    let (_, next) = mark(cursor, after, TokenKind::DoubleLeftArrow)?;
    Ok((read, next))
}

/// The place in the text of the `<<` that stands there.
fn opening(cursor: &Cursor, at: usize) -> Option<Span>
    requires { at ≤ length cursor.now.words }
    ensures opening { MatchOption result (NoMark k.LeftBits (drop at cursor.now.words)) (λ place. OpensBits cursor.now at place) }
    ensures within { OnSome result (at < length cursor.now.words) }
    ensures short { length cursor.now.words < 2 ^ 64 }
    ensures trees { cursor.now.limits.trees ≤ 2 ^ 32 }
    ensures brackets { cursor.now.limits.brackets ≤ 2 ^ 32 }
{
    let Some(numbered) = cursor.token(at) else {
        return None;
    };
    if numbered.token.kind == TokenKind::LeftBits {
        Some(numbered.token.span)
    } else {
        None
    }
}
