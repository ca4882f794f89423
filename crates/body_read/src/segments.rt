ghost use Rattle.std.specs.Prelude.{◌≡◌, ◌≤◌, ◌<◌, ◌+◌, ◌^◌, ◌∷◌, drop, false, length, max, IfOk, IsTrue, OnSome, MatchOption};
ghost use Rattle.erl_syntax.specs.Grammar.{InBody, inside, under};
ghost use Rattle.erl_syntax.specs.declared.expr.Expr.TheVariants as x;
ghost use Rattle.erl_syntax.specs.declared.token.TokenKind.TheVariants as k;
ghost use Rattle.pattern_read.specs.Reading.{Gives, closed};
ghost use Rattle.pattern_read.specs.Wanted.{IsAt};
ghost use Rattle.body_read.specs.WantedExprs.{bits_in, in_site, mode_of, segment_in, segment_longer, segment_rest_in, simple_in};
ghost use Rattle.pattern_read.specs.WantedPatterns.{FirstToken};
ghost use Rattle.body_read.specs.WantedSegments.{GivesBehind, NoPrefix, NoRow, PrefixAt, after_value_in, begins_simple, more_segments_in, prefixed_in};

use crate::operand::common;
use crate::quals::quals;
use crate::site::Site;
use erl_syntax::{Expr, Listed, Prefix, Segment, Span, TokenKind};
use pattern_read::cursor::Cursor;
use pattern_read::fault::{Cause, Fault};
use pattern_read::operators::prefix;
use pattern_read::placed::{Placed, higher};
use pattern_read::segment_types::segment_type;
use std::alloc::Global;

/// The operator before an expression that stands there, with its place.
fn prefix_at(cursor: &Cursor, at: usize) -> Option<(Span, Prefix)>
    requires { at ≤ length cursor.now.words }
    ensures operator { MatchOption result (NoPrefix (drop at cursor.now.words)) (λ s. PrefixAt cursor.now at s.0 s.1) }
    ensures within { OnSome result (at < length cursor.now.words) }
    ensures short { length cursor.now.words < 2 ^ 64 }
    ensures trees { cursor.now.limits.trees ≤ 2 ^ 32 }
    ensures brackets { cursor.now.limits.brackets ≤ 2 ^ 32 }
{
    let Some(numbered) = cursor.token(at) else {
        return None;
    };
    let Some(op) = prefix(numbered.token.kind) else {
        return None;
    };
    Some((numbered.token.span, op))
}

/// Whether qualifiers follow what stands in front. In a guard they can't.
pub fn is_row(cursor: &Cursor, at: usize, site: Site) -> bool
    requires { at ≤ length cursor.now.words }
    ensures body { IsTrue result → mode_of site ≡ InBody }
    ensures yes { IsTrue result → IsAt cursor.now at k.DoubleBar }
    ensures no { result ≡ false → NoRow (mode_of site) (drop at cursor.now.words) }
    ensures within { IsTrue result → at < length cursor.now.words }
    ensures short { length cursor.now.words < 2 ^ 64 }
    ensures trees { cursor.now.limits.trees ≤ 2 ^ 32 }
    ensures brackets { cursor.now.limits.brackets ≤ 2 ^ 32 }
{
    let stands = cursor.is(at, TokenKind::DoubleBar);
    match site {
        Site::Body => stands,
        Site::Guard => false,
    }
}

/// Whether a segment's value or size may begin so.
fn begins_simple(kind: TokenKind) -> bool
    ensures { result ≡ begins_simple kind }
{
    matches!(
        kind,
        TokenKind::Atom
            | TokenKind::Variable
            | TokenKind::Integer
            | TokenKind::Character
            | TokenKind::Str
            | TokenKind::LeftBits
            | TokenKind::LeftParen
    )
}

/// Why no segment's value stands where it would be too deep.
fn simple_cause(cursor: &Cursor, at: usize) -> Cause
    requires { at ≤ length cursor.now.words }
    ensures { FirstToken begins_simple (drop at cursor.now.words) result }
{
    let Some(numbered) = cursor.token(at) else {
        return Cause::Syntax;
    };
    if begins_simple(numbered.token.kind) {
        Cause::TooDeep
    } else {
        Cause::Syntax
    }
}

/// A bit expression or a bit string comprehension, behind `<<`.
#[cycle(expr)]
pub fn bits(
    alloc: Global,
    cursor: &Cursor,
    at: usize,
    site: Site,
    deep: usize,
    brackets: usize,
    place: Span,
) -> Result<((Expr, usize), usize), Fault>
    requires place { at ≤ length cursor.now.words }
    requires tree { deep ≤ cursor.now.limits.trees }
    requires bracket { brackets < cursor.now.limits.brackets }
    ensures reads { Gives closed (bits_in (in_site site deep brackets) place) cursor.now at result }
    ensures further { IfOk result (λ r. at < r.1 × (r.1 ≤ length cursor.now.words)) }
    ensures bounded { IfOk result (λ r. (1 ≤ r.0.1) × (deep + r.0.1 ≤ cursor.now.limits.trees + 1)) }
{
    if cursor.is(at, TokenKind::RightBits) {
        let segments = Listed::of(Vec::new(alloc));
        return Ok((
            (
                Expr::Bits {
                    at: place,
                    segments,
                },
                1,
            ),
            at + 1,
        ));
    }
    if let Some((sign, op)) = prefix_at(cursor, at) {
        if deep + 1 >= cursor.trees() {
            return Err(Fault::Refused(at, Cause::TooDeep));
        }
        let ((first, height), next) = prefixed(
            alloc,
            cursor,
            at,
            site,
            deep + 1,
            brackets + 1,
            sign,
            op,
        )?;
        return more_segments(
            alloc, cursor, next, site, deep, brackets, place, first, height,
        );
    }
    if deep >= cursor.trees() {
        return Err(Fault::Refused(at, simple_cause(cursor, at)));
    }
    let (value, next) = simple(alloc, cursor, at, site, deep + 1, brackets + 1)?;
    after_value(alloc, cursor, next, site, deep, brackets, place, value)
}

/// A bit expression or a bit string comprehension, behind its first value.
#[cycle(expr)]
fn after_value(
    alloc: Global,
    cursor: &Cursor,
    at: usize,
    site: Site,
    deep: usize,
    brackets: usize,
    place: Span,
    value: Placed<Expr>,
) -> Result<((Expr, usize), usize), Fault>
    requires place { at ≤ length cursor.now.words }
    requires tree { deep < cursor.now.limits.trees }
    requires bracket { brackets < cursor.now.limits.brackets }
    requires tall { 1 ≤ value.height }
    requires height { deep + value.height ≤ cursor.now.limits.trees }
    ensures reads { GivesBehind (bits_in (in_site site deep brackets) place) (after_value_in (in_site site deep brackets) place value) (λ r. r) cursor.now at result }
    ensures further { IfOk result (λ r. at < r.1 × (r.1 ≤ length cursor.now.words)) }
    ensures bounded { IfOk result (λ r. (1 ≤ r.0.1) × (deep + r.0.1 ≤ cursor.now.limits.trees + 1)) }
{
    if !is_row(cursor, at, site) {
        let ((first, height), next) = segment_rest(
            alloc,
            cursor,
            at,
            site,
            deep + 1,
            brackets + 1,
            value,
        )?;
        return more_segments(
            alloc, cursor, next, site, deep, brackets, place, first, height,
        );
    }
    let ((quals, height), next) = quals(
        alloc,
        cursor,
        at + 1,
        deep + 1,
        brackets + 1,
        TokenKind::RightBits,
    )?;
    let highest = higher(value.height, height) + 1;
    let row = Listed::of(vec![in alloc; value.tree]?);
    Ok((
        (
            Expr::BitsFor {
                at: place,
                row,
                quals,
            },
            highest,
        ),
        next,
    ))
}

/// A bit expression, behind its first segment.
#[cycle(expr)]
fn more_segments(
    alloc: Global,
    cursor: &Cursor,
    at: usize,
    site: Site,
    deep: usize,
    brackets: usize,
    place: Span,
    first: Segment,
    height: usize,
) -> Result<((Expr, usize), usize), Fault>
    requires place { at ≤ length cursor.now.words }
    requires tree { deep < cursor.now.limits.trees }
    requires bracket { brackets < cursor.now.limits.brackets }
    requires tall { 1 ≤ height }
    requires height { deep + height ≤ cursor.now.limits.trees }
    ensures reads { GivesBehind (bits_in (in_site site deep brackets) place) (more_segments_in (inside (under (in_site site deep brackets)))) (λ q. (x.Bits place (first ∷ q.0), max height q.1 + 1)) cursor.now at result }
    ensures further { IfOk result (λ r. at < r.1 × (r.1 ≤ length cursor.now.words)) }
    ensures bounded { IfOk result (λ r. (1 ≤ r.0.1) × (deep + r.0.1 ≤ cursor.now.limits.trees + 1)) }
{
    let mut segments = vec![in alloc; first]?;
    let mut highest = height;
    let mut next = at;
    loop {
        if cursor.is(next, TokenKind::RightBits) {
            let segments = Listed::of(segments);
            return Ok((
                (
                    Expr::Bits {
                        at: place,
                        segments,
                    },
                    highest + 1,
                ),
                next + 1,
            ));
        }
        if !cursor.is(next, TokenKind::Comma) {
            return Err(Fault::Refused(next, Cause::Syntax));
        }
        let ((item, tall), after) = segment(alloc, cursor, next + 1, site, deep + 1, brackets + 1)?;
        segments.push(item)?;
        highest = higher(highest, tall);
        next = after;
    }
}

/// A segment of a bit expression.
#[cycle(expr)]
pub fn segment(
    alloc: Global,
    cursor: &Cursor,
    at: usize,
    site: Site,
    deep: usize,
    brackets: usize,
) -> Result<((Segment, usize), usize), Fault>
    requires place { at ≤ length cursor.now.words }
    requires tree { deep ≤ cursor.now.limits.trees }
    requires bracket { brackets ≤ cursor.now.limits.brackets }
    ensures reads { Gives segment_longer (segment_in (in_site site deep brackets)) cursor.now at result }
    ensures further { IfOk result (λ r. at < r.1 × (r.1 ≤ length cursor.now.words)) }
    ensures bounded { IfOk result (λ r. (1 ≤ r.0.1) × (deep + r.0.1 ≤ cursor.now.limits.trees + 1)) }
{
    if let Some((sign, op)) = prefix_at(cursor, at) {
        if deep >= cursor.trees() {
            return Err(Fault::Refused(at, Cause::TooDeep));
        }
        return prefixed(alloc, cursor, at, site, deep, brackets, sign, op);
    }
    let (value, next) = simple(alloc, cursor, at, site, deep, brackets)?;
    segment_rest(alloc, cursor, next, site, deep, brackets, value)
}

/// A segment that begins with an operator.
#[cycle(expr)]
fn prefixed(
    alloc: Global,
    cursor: &Cursor,
    at: usize,
    site: Site,
    deep: usize,
    brackets: usize,
    sign: Span,
    op: Prefix,
) -> Result<((Segment, usize), usize), Fault>
    requires place { at < length cursor.now.words }
    requires tree { deep < cursor.now.limits.trees }
    requires bracket { brackets ≤ cursor.now.limits.brackets }
    requires operator { PrefixAt cursor.now at sign op }
    requires short { length cursor.now.words < 2 ^ 64 }
    requires trees { cursor.now.limits.trees ≤ 2 ^ 32 }
    ensures reads { Gives segment_longer (prefixed_in (in_site site deep brackets)) cursor.now at result }
    ensures further { IfOk result (λ r. at < r.1 × (r.1 ≤ length cursor.now.words)) }
    ensures bounded { IfOk result (λ r. (1 ≤ r.0.1) × (deep + r.0.1 ≤ cursor.now.limits.trees + 1)) }
{
    let (part, next) = simple(alloc, cursor, at + 1, site, deep + 1, brackets)?;
    let height = part.height + 1;
    let part = Listed::of(vec![in alloc; part.tree]?);
    let value = Placed {
        at: sign,
        tree: Expr::Unary { at: sign, op, part },
        height,
    };
    segment_rest(alloc, cursor, next, site, deep, brackets, value)
}

/// A segment's value or size.
#[cycle(expr)]
pub fn simple(
    alloc: Global,
    cursor: &Cursor,
    at: usize,
    site: Site,
    deep: usize,
    brackets: usize,
) -> Result<(Placed<Expr>, usize), Fault>
    requires place { at ≤ length cursor.now.words }
    requires tree { deep ≤ cursor.now.limits.trees }
    requires bracket { brackets ≤ cursor.now.limits.brackets }
    ensures reads { Gives closed (simple_in (in_site site deep brackets)) cursor.now at result }
    ensures further { IfOk result (λ r. at < r.1 × (r.1 ≤ length cursor.now.words)) }
    ensures bounded { IfOk result (λ r. (1 ≤ r.0.height) × (deep + r.0.height ≤ cursor.now.limits.trees + 1)) }
{
    let Some(numbered) = cursor.token(at) else {
        return common(alloc, cursor, at, site, deep, brackets);
    };
    let place = numbered.token.span;
    match numbered.token.kind {
        TokenKind::Atom => Ok((
            Placed {
                at: place,
                tree: Expr::Atom {
                    at: place,
                    atom: numbered.number,
                },
                height: 1,
            },
            at + 1,
        )),
        _ => common(alloc, cursor, at, site, deep, brackets),
    }
}

/// A segment, behind its value.
#[cycle(expr)]
pub fn segment_rest(
    alloc: Global,
    cursor: &Cursor,
    at: usize,
    site: Site,
    deep: usize,
    brackets: usize,
    value: Placed<Expr>,
) -> Result<((Segment, usize), usize), Fault>
    requires place { at ≤ length cursor.now.words }
    requires tree { deep ≤ cursor.now.limits.trees }
    requires bracket { brackets ≤ cursor.now.limits.brackets }
    requires tall { 1 ≤ value.height }
    requires height { deep + value.height ≤ cursor.now.limits.trees + 1 }
    ensures reads { Gives segment_longer (segment_rest_in (in_site site deep brackets) value) cursor.now at result }
    ensures further { IfOk result (λ r. at ≤ r.1 × (r.1 ≤ length cursor.now.words)) }
    ensures bounded { IfOk result (λ r. (1 ≤ r.0.1) × (deep + r.0.1 ≤ cursor.now.limits.trees + 1)) }
{
    let height = value.height;
    if !cursor.is(at, TokenKind::Colon) {
        let (segment, next) = segment_type(alloc, cursor, at, value.at, value.tree, None)?;
        return Ok(((segment, height), next));
    }
    let (size, after) = simple(alloc, cursor, at + 1, site, deep, brackets)?;
    let highest = higher(height, size.height);
    let (segment, next) = segment_type(
        alloc,
        cursor,
        after,
        value.at,
        value.tree,
        Some(size.tree),
    )?;
    Ok(((segment, highest), next))
}
