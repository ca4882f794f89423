ghost use Rattle.std.specs.Prelude.{◌≡◌, ◌≤◌, ◌<◌, ◌+◌, ◌^◌, ◌∷◌, [], length, drop, IfErr, IfOk, IfSome, OnSome, MatchOption};
ghost use Rattle.erl_syntax.specs.Grammar.{Context, InSize, inside, under};
ghost use Rattle.erl_syntax.specs.declared.token.TokenKind.TheVariants as k;
ghost use Rattle.erl_syntax.specs.declared.expr.Expr.TheVariants as x;
ghost use Rattle.pattern_read.specs.Reading.{Gives, closed};
ghost use Rattle.pattern_read.specs.Wanted.{placed_binary};
ghost use Rattle.pattern_read.specs.declared.fault.Fault.TheVariants.{Memory};
ghost use Rattle.pattern_read.specs.Wanted.{in_size, calls, extends, level_in, tail_in, operand_in, after_atom_in, qualified_in, exprs_in, NoneInSize, OperatorAt, Closes};

use crate::cursor::{Cursor, first_cause, mark};
use crate::fault::{Cause, Fault};
use crate::operators::{level, operator, prefix, right_of};
use crate::placed::{Placed, higher};
use erl_syntax::{Expr, Listed, Op, Span, TokenKind};
use std::alloc::Global;

/// The operator of that level at that place, where one may stand in a size: any but `!`.
fn size_operator(cursor: &Cursor, at: usize, wanted: usize) -> Option<Op>
    requires { at ≤ length cursor.now.words }
    ensures operator { MatchOption result (NoneInSize wanted (drop at cursor.now.words)) (λ op. OperatorAt cursor.now at wanted op) }
    ensures within { OnSome result (at < length cursor.now.words) }
    ensures short { length cursor.now.words < 2 ^ 64 }
    ensures trees { cursor.now.limits.trees ≤ 2 ^ 32 }
{
    let Some(numbered) = cursor.token(at) else {
        return None;
    };
    let Some(op) = operator(numbered.token.kind) else {
        return None;
    };
    if level(op) == wanted && op != Op::Send {
        Some(op)
    } else {
        None
    }
}

/// An expression of a level, in a size of a pattern.
#[cycle(size)]
pub fn size_level(
    alloc: Global,
    cursor: &Cursor,
    at: usize,
    wanted: usize,
    deep: usize,
    brackets: usize,
) -> Result<(Placed<Expr>, usize), Fault>
    requires place { at ≤ length cursor.now.words }
    requires tree { deep ≤ cursor.now.limits.trees }
    requires bracket { brackets ≤ cursor.now.limits.brackets }
    requires low { wanted ≤ 6 }
    ensures reads { Gives (extends wanted) (level_in wanted (in_size deep brackets)) cursor.now at result }
    ensures further { IfOk result (λ r. at < r.1 × (r.1 ≤ length cursor.now.words)) }
    ensures bounded { IfOk result (λ r. (1 ≤ r.0.height) × (deep + r.0.height ≤ cursor.now.limits.trees + 1)) }
{
    if wanted == 6 {
        return size_operand(alloc, cursor, at, deep, brackets);
    }
    let (first, after) = size_level(alloc, cursor, at, wanted + 1, deep, brackets)?;
    let place = first.at;
    let ((tree, height), next) = size_tail(alloc, cursor, after, wanted, deep, brackets, first)?;
    Ok((
        Placed {
            at: place,
            tree,
            height,
        },
        next,
    ))
}

/// What stands at a level behind its first operand.
#[cycle(size)]
fn size_tail(
    alloc: Global,
    cursor: &Cursor,
    at: usize,
    wanted: usize,
    deep: usize,
    brackets: usize,
    left: Placed<Expr>,
) -> Result<((Expr, usize), usize), Fault>
    requires place { at ≤ length cursor.now.words }
    requires tree { deep ≤ cursor.now.limits.trees }
    requires bracket { brackets ≤ cursor.now.limits.brackets }
    requires low { wanted < 6 }
    requires tall { 1 ≤ left.height }
    requires height { deep + left.height ≤ cursor.now.limits.trees + 1 }
    ensures reads { Gives (extends wanted) (tail_in wanted (in_size deep brackets) left) cursor.now at result }
    ensures further { IfOk result (λ r. at ≤ r.1 × (r.1 ≤ length cursor.now.words)) }
    ensures bounded { IfOk result (λ r. (1 ≤ r.0.1) × (deep + r.0.1 ≤ cursor.now.limits.trees + 1)) }
{
    let Some(op) = size_operator(cursor, at, wanted) else {
        return Ok(((left.tree, left.height), at));
    };
    if deep + left.height > cursor.trees() {
        return Err(Fault::Refused(at, Cause::TooDeep));
    }
    let (right, next) = size_level(alloc, cursor, at + 1, right_of(wanted), deep + 1, brackets)?;
    let placed_binary = binary(alloc, op, left, right)?;
    if wanted < 4 {
        return Ok(((placed_binary.tree, placed_binary.height), next));
    }
    size_tail(alloc, cursor, next, wanted, deep, brackets, placed_binary)
}

/// An operator between two parts.
fn binary(
    alloc: Global,
    op: Op,
    left: Placed<Expr>,
    right: Placed<Expr>,
) -> Result<Placed<Expr>, Fault>
    requires left { left.height ≤ 2 ^ 32 }
    requires right { right.height ≤ 2 ^ 32 }
    ensures placed_binary { IfOk result (λ r. r ≡ placed_binary left op right) }
    ensures memory { IfErr result (λ e. e ≡ Memory) }
{
    let height = higher(left.height, right.height) + 1;
    let parts = vec![in alloc; left.tree, right.tree]?;
    let tree = Expr::Binary {
        at: left.at,
        op,
        parts: Listed::of(parts),
    };
    Ok(Placed {
        at: left.at,
        tree,
        height,
    })
}

/// A list of one expression.
fn one(alloc: Global, part: Expr) -> Result<Listed<Expr>, Fault>
    ensures list { IfOk result (λ r. r ≡ part ∷ []) }
    ensures memory { IfErr result (λ e. e ≡ Memory) }
{
    Ok(Listed::of(vec![in alloc; part]?))
}

/// An operand, in a size of a pattern.
#[cycle(size)]
fn size_operand(
    alloc: Global,
    cursor: &Cursor,
    at: usize,
    deep: usize,
    brackets: usize,
) -> Result<(Placed<Expr>, usize), Fault>
    requires place { at ≤ length cursor.now.words }
    requires tree { deep ≤ cursor.now.limits.trees }
    requires bracket { brackets ≤ cursor.now.limits.brackets }
    ensures reads { Gives calls (operand_in (in_size deep brackets)) cursor.now at result }
    ensures further { IfOk result (λ r. at < r.1 × (r.1 ≤ length cursor.now.words)) }
    ensures bounded { IfOk result (λ r. (1 ≤ r.0.height) × (deep + r.0.height ≤ cursor.now.limits.trees + 1)) }
{
    let Some(numbered) = cursor.token(at) else {
        return Err(Fault::Refused(at, Cause::Syntax));
    };
    let place = numbered.token.span;
    if let Some(op) = prefix(numbered.token.kind) {
        if deep >= cursor.trees() {
            return Err(Fault::Refused(at, Cause::TooDeep));
        }
        let (part, next) = size_operand(alloc, cursor, at + 1, deep + 1, brackets)?;
        let height = part.height + 1;
        let tree = Expr::Unary {
            at: place,
            op,
            part: one(alloc, part.tree)?,
        };
        return Ok((
            Placed {
                at: place,
                tree,
                height,
            },
            next,
        ));
    }
    match numbered.token.kind {
        TokenKind::Variable => {
            let name = cursor.name(alloc, at)?;
            Ok((
                Placed {
                    at: place,
                    tree: Expr::Var { at: place, name },
                    height: 1,
                },
                at + 1,
            ))
        }
        TokenKind::Integer => {
            let value = numbered.integer();
            Ok((
                Placed {
                    at: place,
                    tree: Expr::Int { at: place, value },
                    height: 1,
                },
                at + 1,
            ))
        }
        TokenKind::Character => {
            let value = numbered.number;
            Ok((
                Placed {
                    at: place,
                    tree: Expr::Char { at: place, value },
                    height: 1,
                },
                at + 1,
            ))
        }
        TokenKind::Atom => {
            let ((tree, height), next) = size_after_atom(
                alloc,
                cursor,
                at + 1,
                deep,
                brackets,
                place,
                numbered.number,
            )?;
            Ok((
                Placed {
                    at: place,
                    tree,
                    height,
                },
                next,
            ))
        }
        TokenKind::Question => {
            if !cursor.is_module(at + 1) {
                return Err(Fault::Refused(at + 1, Cause::Syntax));
            }
            let module = Expr::ModuleName { at: place };
            let ((tree, height), next) = size_qualified(
                alloc,
                cursor,
                at + 2,
                deep,
                brackets,
                place,
                module,
            )?;
            Ok((
                Placed {
                    at: place,
                    tree,
                    height,
                },
                next,
            ))
        }
        TokenKind::LeftParen => {
            if brackets >= cursor.brackets() {
                return Err(Fault::Refused(at, Cause::TooDeep));
            }
            let (inner, after) = size_level(alloc, cursor, at + 1, 0, deep, brackets + 1)?;
            let (_, next) = mark(cursor, after, TokenKind::RightParen)?;
            Ok((
                Placed {
                    at: place,
                    tree: inner.tree,
                    height: inner.height,
                },
                next,
            ))
        }
        _ => Err(Fault::Refused(at, Cause::Syntax)),
    }
}

/// What begins with an atom, behind it: a call or the atom.
#[cycle(size)]
fn size_after_atom(
    alloc: Global,
    cursor: &Cursor,
    at: usize,
    deep: usize,
    brackets: usize,
    place: Span,
    name: u32,
) -> Result<((Expr, usize), usize), Fault>
    requires place { at ≤ length cursor.now.words }
    requires tree { deep ≤ cursor.now.limits.trees }
    requires bracket { brackets ≤ cursor.now.limits.brackets }
    ensures reads { Gives calls (after_atom_in (in_size deep brackets) place name) cursor.now at result }
    ensures further { IfOk result (λ r. at ≤ r.1 × (r.1 ≤ length cursor.now.words)) }
    ensures bounded { IfOk result (λ r. (1 ≤ r.0.1) × (deep + r.0.1 ≤ cursor.now.limits.trees + 1)) }
{
    if !cursor.is(at, TokenKind::LeftParen) {
        return size_qualified(
            alloc,
            cursor,
            at,
            deep,
            brackets,
            place,
            Expr::Atom {
                at: place,
                atom: name,
            },
        );
    }
    if brackets >= cursor.brackets() {
        return Err(Fault::Refused(at, Cause::TooDeep));
    }
    let ((args, height), next) = size_exprs(
        alloc,
        cursor,
        at + 1,
        deep + 1,
        brackets + 1,
        TokenKind::RightParen,
    )?;
    let module = Listed::of(Vec::new(alloc));
    Ok((
        (
            Expr::Call {
                at: place,
                module,
                name,
                args,
            },
            height + 1,
        ),
        next,
    ))
}

/// What begins with a module's name, behind it: a call or the name.
#[cycle(size)]
fn size_qualified(
    alloc: Global,
    cursor: &Cursor,
    at: usize,
    deep: usize,
    brackets: usize,
    place: Span,
    qualifier: Expr,
) -> Result<((Expr, usize), usize), Fault>
    requires place { at ≤ length cursor.now.words }
    requires tree { deep ≤ cursor.now.limits.trees }
    requires bracket { brackets ≤ cursor.now.limits.brackets }
    ensures reads { Gives calls (qualified_in (in_size deep brackets) place qualifier) cursor.now at result }
    ensures further { IfOk result (λ r. at ≤ r.1 × (r.1 ≤ length cursor.now.words)) }
    ensures bounded { IfOk result (λ r. (1 ≤ r.0.1) × (deep + r.0.1 ≤ cursor.now.limits.trees + 1)) }
{
    if !cursor.is(at, TokenKind::Colon) {
        return Ok(((qualifier, 1), at));
    }
    if deep >= cursor.trees() {
        return Err(Fault::Refused(at, Cause::TooDeep));
    }
    if brackets >= cursor.brackets() {
        return Err(Fault::Refused(at, Cause::TooDeep));
    }
    let Some(name) = cursor.atom(at + 1) else {
        return Err(Fault::Refused(at + 1, Cause::Syntax));
    };
    if !cursor.is(at + 2, TokenKind::LeftParen) {
        return Err(Fault::Refused(at + 2, Cause::Syntax));
    }
    let ((args, height), next) = size_exprs(
        alloc,
        cursor,
        at + 3,
        deep + 1,
        brackets + 1,
        TokenKind::RightParen,
    )?;
    let module = one(alloc, qualifier)?;
    Ok((
        (
            Expr::Call {
                at: place,
                module,
                name,
                args,
            },
            higher(1, height) + 1,
        ),
        next,
    ))
}

/// Expressions up to a closing bracket.
#[cycle(size)]
fn size_exprs(
    alloc: Global,
    cursor: &Cursor,
    at: usize,
    deep: usize,
    brackets: usize,
    close: TokenKind,
) -> Result<((Listed<Expr>, usize), usize), Fault>
    requires place { at ≤ length cursor.now.words }
    requires tree { deep ≤ cursor.now.limits.trees + 1 }
    requires bracket { brackets ≤ cursor.now.limits.brackets }
    requires closes { Closes close }
    ensures reads { Gives closed (exprs_in close (in_size deep brackets)) cursor.now at result }
    ensures further { IfOk result (λ r. at < r.1 × (r.1 ≤ length cursor.now.words)) }
    ensures bounded { IfOk result (λ r. deep + r.0.1 ≤ cursor.now.limits.trees + 1) }
{
    let mut items = Vec::new(alloc);
    if cursor.is(at, close) {
        return Ok(((Listed::of(items), 0), at + 1));
    }
    if deep > cursor.trees() {
        return Err(Fault::Refused(at, first_cause(cursor, at)));
    }
    let mut height = 0;
    let mut next = at;
    loop {
        let (item, after) = size_level(alloc, cursor, next, 0, deep, brackets)?;
        items.push(item.tree)?;
        height = higher(height, item.height);
        if cursor.is(after, close) {
            return Ok(((Listed::of(items), height), after + 1));
        }
        if !cursor.is(after, TokenKind::Comma) {
            return Err(Fault::Refused(after, Cause::Syntax));
        }
        next = after + 1;
    }
}
