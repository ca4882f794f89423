ghost use Rattle.std.specs.Prelude.{◌≡◌, ◌≤◌, ◌<◌, ◌+◌, ◌^◌, ◌⊎◌, Some, false, IsTrue, length, drop, IfOk};
ghost use Rattle.erl_syntax.specs.declared.token.TokenKind.TheVariants as k;
ghost use Rattle.erl_syntax.specs.Grammar.{Context};
ghost use Rattle.erl_syntax.specs.Names.{Signed};
ghost use Rattle.erl_syntax.specs.Operators.{prefix_of};
ghost use Rattle.pattern_read.specs.Reading.{Gives, closed};
ghost use Rattle.pattern_read.specs.Cursor.{StandsAt};
ghost use Rattle.pattern_read.specs.WantedPatterns.{opens_pattern, pat_in, pattern_value_in};

use crate::cursor::{Cursor, Numbered};
use crate::fault::{Cause, Fault};
use crate::placed::Placed;
use erl_syntax::{Expr, Listed, Pattern, Prefix, TokenKind};
use std::alloc::Global;

/// The value of an integer with a sign before it.
fn signed(sign: TokenKind, digits: &Numbered) -> i128
    requires sign { sign ≡ k.Plus ⊎ sign ≡ k.Minus }
    requires narrow { digits.now.value < 2 ^ 127 }
    ensures { Signed sign digits.now.value result }
{
    let value = digits.integer();
    if sign == TokenKind::Minus {
        -value
    } else {
        value
    }
}

/// A sign and an integer, as a pattern.
fn signed_pattern(
    cursor: &Cursor,
    at: usize,
    numbered: Numbered,
) -> Result<(Placed<Pattern>, usize), Fault>
    requires stands { StandsAt cursor.now at numbered }
    requires within { at < length cursor.now.words }
    requires short { length cursor.now.words < 2 ^ 64 }
    requires sign { numbered.token.kind ≡ k.Plus ⊎ numbered.token.kind ≡ k.Minus }
    ensures reads { (c : Context) → Gives closed (pat_in c) cursor.now at result }
    ensures further { IfOk result (λ r. at < r.1 × (r.1 ≤ length cursor.now.words)) }
    ensures flat { IfOk result (λ r. r.0.height ≡ 1) }
{
    let Some(digits) = cursor.token(at + 1) else {
        return Err(Fault::Refused(at + 1, Cause::Syntax));
    };
    if digits.token.kind == TokenKind::Integer {
        let place = numbered.token.span;
        let value = signed(numbered.token.kind, &digits);
        let pattern = Placed {
            at: place,
            tree: Pattern::Int { at: place, value },
            height: 1,
        };
        Ok((pattern, at + 2))
    } else {
        Err(Fault::Refused(at + 1, Cause::Syntax))
    }
}

/// A pattern that begins with no bracket, at that token.
pub(crate) fn leaf(
    alloc: Global,
    cursor: &Cursor,
    at: usize,
    numbered: Numbered,
) -> Result<(Placed<Pattern>, usize), Fault>
    requires stands { StandsAt cursor.now at numbered }
    requires within { at < length cursor.now.words }
    requires short { length cursor.now.words < 2 ^ 64 }
    requires narrow { numbered.value < 2 ^ 127 }
    requires bare { opens_pattern numbered.token.kind ≡ false }
    ensures reads { (c : Context) → Gives closed (pat_in c) cursor.now at result }
    ensures further { IfOk result (λ r. at < r.1 × (r.1 ≤ length cursor.now.words)) }
    ensures flat { IfOk result (λ r. r.0.height ≡ 1) }
{
    let place = numbered.token.span;
    let height = 1;
    match numbered.token.kind {
        TokenKind::Variable => {
            let name = cursor.name(alloc, at)?;
            let tree = Pattern::Var { at: place, name };
            Ok((
                Placed {
                    at: place,
                    tree,
                    height,
                },
                at + 1,
            ))
        }
        TokenKind::Underscore => {
            let tree = Pattern::Wild { at: place };
            Ok((
                Placed {
                    at: place,
                    tree,
                    height,
                },
                at + 1,
            ))
        }
        TokenKind::Integer => {
            let value = numbered.integer();
            let tree = Pattern::Int { at: place, value };
            Ok((
                Placed {
                    at: place,
                    tree,
                    height,
                },
                at + 1,
            ))
        }
        TokenKind::Plus | TokenKind::Minus => signed_pattern(cursor, at, numbered),
        TokenKind::Character => {
            let value = numbered.number;
            let tree = Pattern::Char { at: place, value };
            Ok((
                Placed {
                    at: place,
                    tree,
                    height,
                },
                at + 1,
            ))
        }
        TokenKind::Atom => {
            let atom = numbered.number;
            let tree = Pattern::Atom { at: place, atom };
            Ok((
                Placed {
                    at: place,
                    tree,
                    height,
                },
                at + 1,
            ))
        }
        TokenKind::Str => {
            let chars = cursor.string(alloc, at)?;
            let tree = Pattern::Str { at: place, chars };
            Ok((
                Placed {
                    at: place,
                    tree,
                    height,
                },
                at + 1,
            ))
        }
        _ => Err(Fault::Refused(at, Cause::Syntax)),
    }
}

/// A sign and an integer, as the value of a segment of a pattern.
fn signed_value(
    alloc: Global,
    cursor: &Cursor,
    at: usize,
    deep: usize,
    numbered: Numbered,
    op: Prefix,
) -> Result<(Placed<Expr>, usize), Fault>
    requires stands { StandsAt cursor.now at numbered }
    requires within { at < length cursor.now.words }
    requires short { length cursor.now.words < 2 ^ 64 }
    requires sign { numbered.token.kind ≡ k.Plus ⊎ numbered.token.kind ≡ k.Minus }
    requires prefix { prefix_of numbered.token.kind ≡ Some op }
    ensures reads { (c : Context) → c.deep ≡ deep → Gives closed (pattern_value_in c) cursor.now at result }
    ensures further { IfOk result (λ r. at < r.1 × (r.1 ≤ length cursor.now.words)) }
    ensures bounded { IfOk result (λ r. (1 ≤ r.0.height) × (deep + r.0.height ≤ cursor.now.limits.trees + 1)) }
{
    if deep >= cursor.trees() {
        return Err(Fault::Refused(at, Cause::TooDeep));
    }
    let Some(digits) = cursor.token(at + 1) else {
        return Err(Fault::Refused(at + 1, Cause::Syntax));
    };
    if digits.token.kind == TokenKind::Integer {
        let place = numbered.token.span;
        let value = digits.integer();
        let number = Expr::Int {
            at: digits.token.span,
            value,
        };
        let part = Listed::of(vec![in alloc; number]?);
        let value = Placed {
            at: place,
            tree: Expr::Unary {
                at: place,
                op,
                part,
            },
            height: 2,
        };
        Ok((value, at + 2))
    } else {
        Err(Fault::Refused(at + 1, Cause::Syntax))
    }
}

/// The value of a segment of a pattern.
pub(crate) fn pattern_value(
    alloc: Global,
    cursor: &Cursor,
    at: usize,
    deep: usize,
) -> Result<(Placed<Expr>, usize), Fault>
    requires place { at ≤ length cursor.now.words }
    requires tree { deep ≤ cursor.now.limits.trees }
    ensures reads { (c : Context) → c.deep ≡ deep → Gives closed (pattern_value_in c) cursor.now at result }
    ensures further { IfOk result (λ r. at < r.1 × (r.1 ≤ length cursor.now.words)) }
    ensures bounded { IfOk result (λ r. (1 ≤ r.0.height) × (deep + r.0.height ≤ cursor.now.limits.trees + 1)) }
{
    let Some(numbered) = cursor.token(at) else {
        return Err(Fault::Refused(at, Cause::Syntax));
    };
    let place = numbered.token.span;
    let height = 1;
    match numbered.token.kind {
        TokenKind::Variable => {
            let name = cursor.name(alloc, at)?;
            let tree = Expr::Var { at: place, name };
            Ok((
                Placed {
                    at: place,
                    tree,
                    height,
                },
                at + 1,
            ))
        }
        TokenKind::Underscore => {
            let tree = Expr::Wild { at: place };
            Ok((
                Placed {
                    at: place,
                    tree,
                    height,
                },
                at + 1,
            ))
        }
        TokenKind::Integer => {
            let value = numbered.integer();
            let tree = Expr::Int { at: place, value };
            Ok((
                Placed {
                    at: place,
                    tree,
                    height,
                },
                at + 1,
            ))
        }
        TokenKind::Plus => signed_value(alloc, cursor, at, deep, numbered, Prefix::Plus),
        TokenKind::Minus => signed_value(alloc, cursor, at, deep, numbered, Prefix::Minus),
        TokenKind::Character => {
            let value = numbered.number;
            let tree = Expr::Char { at: place, value };
            Ok((
                Placed {
                    at: place,
                    tree,
                    height,
                },
                at + 1,
            ))
        }
        TokenKind::Str => {
            let chars = cursor.string(alloc, at)?;
            let tree = Expr::Str { at: place, chars };
            Ok((
                Placed {
                    at: place,
                    tree,
                    height,
                },
                at + 1,
            ))
        }
        _ => Err(Fault::Refused(at, Cause::Syntax)),
    }
}
