ghost use Rattle.std.specs.Prelude.{◌≡◌, ◌≤◌, ◌<◌, ◌+◌, ◌^◌, ◌∷◌, ◌↔◌, [], length, drop, IsTrue, IfErr, IfOk, OnSome, MatchOption};
ghost use Rattle.pattern_read.specs.Reading.{Gives, closed};
ghost use Rattle.body_read.specs.Sites.{FirstIn, IsBlock, MayStand, NoneIn, OperatorIn, begins_block, begins_guard, begins_in};
ghost use Rattle.pattern_read.specs.Wanted.{Closes, exprs_in, extends, placed_binary, level_in, tail_in};
ghost use Rattle.body_read.specs.WantedExprs.{in_site};
ghost use Rattle.pattern_read.specs.declared.fault.Fault.TheVariants.{Memory};

use crate::operand::operand;
use crate::site::Site;
use erl_syntax::{Expr, Listed, Op, TokenKind};
use pattern_read::cursor::Cursor;
use pattern_read::fault::{Cause, Fault};
use pattern_read::operators::{level as level_of, operator, right_of};
use pattern_read::placed::{Placed, higher};
use std::alloc::Global;

/// Whether a block begins so: a `case`, a `receive` or an `if`.
fn begins_block(kind: TokenKind) -> bool
    ensures { result ≡ begins_block kind }
{
    matches!(kind, TokenKind::Case | TokenKind::Receive | TokenKind::If)
}

/// Whether a block begins so where blocks may stand.
pub fn is_block(kind: TokenKind, site: Site) -> bool
    ensures { IsTrue result ↔ IsBlock site kind }
{
    match site {
        Site::Body => begins_block(kind),
        Site::Guard => false,
    }
}

/// Whether an expression of a guard begins so.
fn begins_guard(kind: TokenKind) -> bool
    ensures { result ≡ begins_guard kind }
{
    matches!(
        kind,
        TokenKind::Plus
            | TokenKind::Minus
            | TokenKind::Bnot
            | TokenKind::Not
            | TokenKind::Atom
            | TokenKind::Question
            | TokenKind::LeftBrace
            | TokenKind::LeftBracket
            | TokenKind::Variable
            | TokenKind::Integer
            | TokenKind::Character
            | TokenKind::Str
            | TokenKind::LeftBits
            | TokenKind::LeftParen
    )
}

/// Whether an expression begins so.
fn begins(kind: TokenKind, site: Site) -> bool
    ensures { result ≡ begins_in site kind }
{
    match site {
        Site::Body => begins_block(kind) || begins_guard(kind),
        Site::Guard => begins_guard(kind),
    }
}

/// Why no expression stands where it would be too deep.
pub fn cause_of_first(cursor: &Cursor, at: usize, site: Site) -> Cause
    requires { at ≤ length cursor.now.words }
    ensures { FirstIn site (drop at cursor.now.words) result }
{
    let Some(numbered) = cursor.token(at) else {
        return Cause::Syntax;
    };
    if begins(numbered.token.kind, site) {
        Cause::TooDeep
    } else {
        Cause::Syntax
    }
}

/// Whether an operator may stand there: in a guard any but `!`.
fn may_stand(op: Op, site: Site) -> bool
    ensures { IsTrue result ↔ MayStand site op }
{
    match site {
        Site::Body => true,
        Site::Guard => op != Op::Send,
    }
}

/// The operator of that level at that place, where one may stand.
fn operator_at(cursor: &Cursor, at: usize, wanted: usize, site: Site) -> Option<Op>
    requires { at ≤ length cursor.now.words }
    ensures operator { MatchOption result (NoneIn site wanted (drop at cursor.now.words)) (λ op. OperatorIn site cursor.now at wanted op) }
    ensures within { OnSome result (at < length cursor.now.words) }
    ensures short { length cursor.now.words < 2 ^ 64 }
    ensures trees { cursor.now.limits.trees ≤ 2 ^ 32 }
    ensures brackets { cursor.now.limits.brackets ≤ 2 ^ 32 }
{
    let Some(numbered) = cursor.token(at) else {
        return None;
    };
    let Some(op) = operator(numbered.token.kind) else {
        return None;
    };
    if level_of(op) == wanted && may_stand(op, site) {
        Some(op)
    } else {
        None
    }
}

/// An operator between two parts.
fn binary(
    alloc: Global,
    op: Op,
    left: Placed<Expr>,
    right: Placed<Expr>,
) -> Result<Placed<Expr>, Fault>
    requires left { left.height ≤ 2 ^ 32 }
    requires right { right.height ≤ 2 ^ 32 }
    ensures placed_binary { IfOk result (λ r. r ≡ placed_binary left op right) }
    ensures memory { IfErr result (λ e. e ≡ Memory) }
{
    let height = higher(left.height, right.height) + 1;
    let parts = vec![in alloc; left.tree, right.tree]?;
    let tree = Expr::Binary {
        at: left.at,
        op,
        parts: Listed::of(parts),
    };
    Ok(Placed {
        at: left.at,
        tree,
        height,
    })
}

/// A list of one expression.
pub fn one(alloc: Global, part: Expr) -> Result<Listed<Expr>, Fault>
    ensures list { IfOk result (λ r. r ≡ part ∷ []) }
    ensures memory { IfErr result (λ e. e ≡ Memory) }
{
    Ok(Listed::of(vec![in alloc; part]?))
}

/// An expression of a level: 0 to 5 are the binary operators from the one that binds least, 6 an operand.
#[cycle(expr)]
pub fn level(
    alloc: Global,
    cursor: &Cursor,
    at: usize,
    wanted: usize,
    site: Site,
    deep: usize,
    brackets: usize,
) -> Result<(Placed<Expr>, usize), Fault>
    requires place { at ≤ length cursor.now.words }
    requires tree { deep ≤ cursor.now.limits.trees }
    requires bracket { brackets ≤ cursor.now.limits.brackets }
    requires low { wanted ≤ 6 }
    ensures reads { Gives (extends wanted) (level_in wanted (in_site site deep brackets)) cursor.now at result }
    ensures further { IfOk result (λ r. at < r.1 × (r.1 ≤ length cursor.now.words)) }
    ensures bounded { IfOk result (λ r. (1 ≤ r.0.height) × (deep + r.0.height ≤ cursor.now.limits.trees + 1)) }
{
    if wanted == 6 {
        return operand(alloc, cursor, at, site, deep, brackets);
    }
    let (first, after) = level(alloc, cursor, at, wanted + 1, site, deep, brackets)?;
    let place = first.at;
    let ((tree, height), next) = tail(alloc, cursor, after, wanted, site, deep, brackets, first)?;
    Ok((
        Placed {
            at: place,
            tree,
            height,
        },
        next,
    ))
}

/// What stands at a level behind its first operand.
#[cycle(expr)]
pub fn tail(
    alloc: Global,
    cursor: &Cursor,
    at: usize,
    wanted: usize,
    site: Site,
    deep: usize,
    brackets: usize,
    left: Placed<Expr>,
) -> Result<((Expr, usize), usize), Fault>
    requires place { at ≤ length cursor.now.words }
    requires tree { deep ≤ cursor.now.limits.trees }
    requires bracket { brackets ≤ cursor.now.limits.brackets }
    requires low { wanted < 6 }
    requires tall { 1 ≤ left.height }
    requires height { deep + left.height ≤ cursor.now.limits.trees + 1 }
    ensures reads { Gives (extends wanted) (tail_in wanted (in_site site deep brackets) left) cursor.now at result }
    ensures further { IfOk result (λ r. at ≤ r.1 × (r.1 ≤ length cursor.now.words)) }
    ensures bounded { IfOk result (λ r. (1 ≤ r.0.1) × (deep + r.0.1 ≤ cursor.now.limits.trees + 1)) }
{
    let Some(op) = operator_at(cursor, at, wanted, site) else {
        return Ok(((left.tree, left.height), at));
    };
    if deep + left.height > cursor.trees() {
        return Err(Fault::Refused(at, Cause::TooDeep));
    }
    let (right, next) = level(
        alloc,
        cursor,
        at + 1,
        right_of(wanted),
        site,
        deep + 1,
        brackets,
    )?;
    let placed_binary = binary(alloc, op, left, right)?;
    if wanted < 4 {
        return Ok(((placed_binary.tree, placed_binary.height), next));
    }
    tail(
        alloc,
        cursor,
        next,
        wanted,
        site,
        deep,
        brackets,
        placed_binary,
    )
}

/// Expressions up to a closing bracket.
#[cycle(expr)]
pub fn exprs(
    alloc: Global,
    cursor: &Cursor,
    at: usize,
    site: Site,
    deep: usize,
    brackets: usize,
    close: TokenKind,
) -> Result<((Listed<Expr>, usize), usize), Fault>
    requires place { at ≤ length cursor.now.words }
    requires tree { deep ≤ cursor.now.limits.trees + 1 }
    requires bracket { brackets ≤ cursor.now.limits.brackets }
    requires closes { Closes close }
    ensures reads { Gives closed (exprs_in close (in_site site deep brackets)) cursor.now at result }
    ensures further { IfOk result (λ r. at < r.1 × (r.1 ≤ length cursor.now.words)) }
    ensures bounded { IfOk result (λ r. deep + r.0.1 ≤ cursor.now.limits.trees + 1) }
{
    let mut items = Vec::new(alloc);
    if cursor.is(at, close) {
        return Ok(((Listed::of(items), 0), at + 1));
    }
    if deep > cursor.trees() {
        return Err(Fault::Refused(at, cause_of_first(cursor, at, site)));
    }
    let mut height = 0;
    let mut next = at;
    loop {
        let (item, after) = level(alloc, cursor, next, 0, site, deep, brackets)?;
        items.push(item.tree)?;
        height = higher(height, item.height);
        if cursor.is(after, close) {
            return Ok(((Listed::of(items), height), after + 1));
        }
        if !cursor.is(after, TokenKind::Comma) {
            return Err(Fault::Refused(after, Cause::Syntax));
        }
        next = after + 1;
    }
}
