ghost use Rattle.std.specs.Prelude.{◌≡◌, ◌≢◌, ◌≤◌, ◌<◌, ◌+◌, ◌^◌, length, IfOk, IsTrue};
ghost use Rattle.erl_syntax.specs.Grammar.{Context, InSize};
ghost use Rattle.erl_syntax.specs.Operators.{prefix_of};
ghost use Rattle.erl_syntax.specs.declared.token.TokenKind.TheVariants as k;
ghost use Rattle.pattern_read.specs.Reading.{Gives, closed};
ghost use Rattle.body_read.specs.Sites.{begins_block, case_in};
ghost use Rattle.pattern_read.specs.Cursor.{StandsAt};
ghost use Rattle.pattern_read.specs.Wanted.{after_atom_in, calls, operand_in, qualified_in};
ghost use Rattle.body_read.specs.WantedExprs.{common_in, in_body, in_site};
ghost use Rattle.std.specs.Prelude.{Some};

use crate::alternatives::{alts, branches};
use crate::exprs::{exprs, is_block, level, one};
use crate::lists::list;
use crate::segments::bits;
use crate::site::Site;
use erl_syntax::{Alt, Expr, Listed, Prefix, Span, TokenKind};
use pattern_read::cursor::{Cursor, Numbered, mark};
use pattern_read::fault::{Cause, Fault};
use pattern_read::operators::prefix;
use pattern_read::placed::{Placed, higher};
use std::alloc::Global;

/// An operand.
#[cycle(expr)]
pub fn operand(
    alloc: Global,
    cursor: &Cursor,
    at: usize,
    site: Site,
    deep: usize,
    brackets: usize,
) -> Result<(Placed<Expr>, usize), Fault>
    requires place { at ≤ length cursor.now.words }
    requires tree { deep ≤ cursor.now.limits.trees }
    requires bracket { brackets ≤ cursor.now.limits.brackets }
    ensures reads { Gives calls (operand_in (in_site site deep brackets)) cursor.now at result }
    ensures further { IfOk result (λ r. at < r.1 × (r.1 ≤ length cursor.now.words)) }
    ensures bounded { IfOk result (λ r. (1 ≤ r.0.height) × (deep + r.0.height ≤ cursor.now.limits.trees + 1)) }
{
    let Some(numbered) = cursor.token(at) else {
        return Err(Fault::Refused(at, Cause::Syntax));
    };
    let kind = numbered.token.kind;
    if let Some(op) = prefix(kind) {
        return prefixed(alloc, cursor, at, site, deep, brackets, numbered, op);
    }
    if is_block(kind, site) {
        return block(alloc, cursor, at, deep, brackets, numbered);
    }
    let place = numbered.token.span;
    match kind {
        TokenKind::Atom => {
            let ((tree, height), next) = after_atom(
                alloc,
                cursor,
                at + 1,
                site,
                deep,
                brackets,
                place,
                numbered.number,
            )?;
            Ok((
                Placed {
                    at: place,
                    tree,
                    height,
                },
                next,
            ))
        }
        TokenKind::Question => {
            if !cursor.is_module(at + 1) {
                return Err(Fault::Refused(at + 1, Cause::Syntax));
            }
            let qualifier = Expr::ModuleName { at: place };
            let ((tree, height), next) = qualified(
                alloc,
                cursor,
                at + 2,
                site,
                deep,
                brackets,
                place,
                qualifier,
            )?;
            Ok((
                Placed {
                    at: place,
                    tree,
                    height,
                },
                next,
            ))
        }
        TokenKind::LeftBrace => tuple(alloc, cursor, at, site, deep, brackets, numbered),
        TokenKind::LeftBracket => {
            if brackets >= cursor.brackets() {
                return Err(Fault::Refused(at, Cause::TooDeep));
            }
            let ((tree, height), next) = list(alloc, cursor, at + 1, site, deep, brackets, place)?;
            Ok((
                Placed {
                    at: place,
                    tree,
                    height,
                },
                next,
            ))
        }
        _ => common(alloc, cursor, at, site, deep, brackets),
    }
}

/// An operand that begins with an operator.
#[cycle(expr)]
fn prefixed(
    alloc: Global,
    cursor: &Cursor,
    at: usize,
    site: Site,
    deep: usize,
    brackets: usize,
    numbered: Numbered,
    op: Prefix,
) -> Result<(Placed<Expr>, usize), Fault>
    requires place { at ≤ length cursor.now.words }
    requires tree { deep ≤ cursor.now.limits.trees }
    requires bracket { brackets ≤ cursor.now.limits.brackets }
    requires token { StandsAt cursor.now at numbered }
    requires operator { prefix_of numbered.token.kind ≡ Some op }
    requires within { at < length cursor.now.words }
    requires short { length cursor.now.words < 2 ^ 64 }
    ensures reads { Gives calls (operand_in (in_site site deep brackets)) cursor.now at result }
    ensures further { IfOk result (λ r. at < r.1 × (r.1 ≤ length cursor.now.words)) }
    ensures bounded { IfOk result (λ r. (1 ≤ r.0.height) × (deep + r.0.height ≤ cursor.now.limits.trees + 1)) }
{
    if deep >= cursor.trees() {
        return Err(Fault::Refused(at, Cause::TooDeep));
    }
    let (part, next) = operand(alloc, cursor, at + 1, site, deep + 1, brackets)?;
    let place = numbered.token.span;
    let height = part.height + 1;
    let tree = Expr::Unary {
        at: place,
        op,
        part: one(alloc, part.tree)?,
    };
    Ok((
        Placed {
            at: place,
            tree,
            height,
        },
        next,
    ))
}

/// A tuple.
#[cycle(expr)]
fn tuple(
    alloc: Global,
    cursor: &Cursor,
    at: usize,
    site: Site,
    deep: usize,
    brackets: usize,
    numbered: Numbered,
) -> Result<(Placed<Expr>, usize), Fault>
    requires place { at ≤ length cursor.now.words }
    requires tree { deep ≤ cursor.now.limits.trees }
    requires bracket { brackets ≤ cursor.now.limits.brackets }
    requires token { StandsAt cursor.now at numbered }
    requires brace { numbered.token.kind ≡ k.LeftBrace }
    requires within { at < length cursor.now.words }
    requires short { length cursor.now.words < 2 ^ 64 }
    requires trees { cursor.now.limits.trees ≤ 2 ^ 32 }
    ensures reads { Gives calls (operand_in (in_site site deep brackets)) cursor.now at result }
    ensures further { IfOk result (λ r. at < r.1 × (r.1 ≤ length cursor.now.words)) }
    ensures bounded { IfOk result (λ r. (1 ≤ r.0.height) × (deep + r.0.height ≤ cursor.now.limits.trees + 1)) }
{
    if brackets >= cursor.brackets() {
        return Err(Fault::Refused(at, Cause::TooDeep));
    }
    let ((items, height), next) = exprs(
        alloc,
        cursor,
        at + 1,
        site,
        deep + 1,
        brackets + 1,
        TokenKind::RightBrace,
    )?;
    let place = numbered.token.span;
    Ok((
        Placed {
            at: place,
            tree: Expr::Tuple { at: place, items },
            height: height + 1,
        },
        next,
    ))
}

/// A `case`, a `receive` or an `if`.
#[cycle(expr)]
fn block(
    alloc: Global,
    cursor: &Cursor,
    at: usize,
    deep: usize,
    brackets: usize,
    numbered: Numbered,
) -> Result<(Placed<Expr>, usize), Fault>
    requires place { at ≤ length cursor.now.words }
    requires tree { deep ≤ cursor.now.limits.trees }
    requires bracket { brackets ≤ cursor.now.limits.brackets }
    requires token { StandsAt cursor.now at numbered }
    requires begins { IsTrue (begins_block numbered.token.kind) }
    requires within { at < length cursor.now.words }
    requires short { length cursor.now.words < 2 ^ 64 }
    ensures reads { Gives calls (operand_in (in_body deep brackets)) cursor.now at result }
    ensures further { IfOk result (λ r. at < r.1 × (r.1 ≤ length cursor.now.words)) }
    ensures bounded { IfOk result (λ r. (1 ≤ r.0.height) × (deep + r.0.height ≤ cursor.now.limits.trees + 1)) }
{
    if deep >= cursor.trees() {
        return Err(Fault::Refused(at, Cause::TooDeep));
    }
    if brackets >= cursor.brackets() {
        return Err(Fault::Refused(at, Cause::TooDeep));
    }
    let place = numbered.token.span;
    match numbered.token.kind {
        TokenKind::Case => {
            let ((value, (alts, height)), next) = case_parts(
                alloc,
                cursor,
                at + 1,
                deep + 1,
                brackets + 1,
            )?;
            let height = higher(value.height, height) + 1;
            let tree = Expr::Case {
                at: place,
                value: one(alloc, value.tree)?,
                alts,
            };
            Ok((
                Placed {
                    at: place,
                    tree,
                    height,
                },
                next,
            ))
        }
        TokenKind::Receive => {
            let ((alts, height), next) = alts(alloc, cursor, at + 1, deep + 1, brackets + 1)?;
            Ok((
                Placed {
                    at: place,
                    tree: Expr::Receive { at: place, alts },
                    height: height + 1,
                },
                next,
            ))
        }
        _ => {
            let ((branches, height), next) = branches(
                alloc,
                cursor,
                at + 1,
                deep + 1,
                brackets + 1,
            )?;
            Ok((
                Placed {
                    at: place,
                    tree: Expr::If {
                        at: place,
                        branches,
                    },
                    height: height + 1,
                },
                next,
            ))
        }
    }
}

/// The value and the clauses of a `case`, behind the word.
#[cycle(expr)]
fn case_parts(
    alloc: Global,
    cursor: &Cursor,
    at: usize,
    deep: usize,
    brackets: usize,
) -> Result<((Placed<Expr>, (Listed<Alt>, usize)), usize), Fault>
    requires place { at ≤ length cursor.now.words }
    requires tree { deep ≤ cursor.now.limits.trees }
    requires bracket { brackets ≤ cursor.now.limits.brackets }
    ensures reads { Gives closed (case_in (in_body deep brackets)) cursor.now at result }
    ensures further { IfOk result (λ r. at < r.1 × (r.1 ≤ length cursor.now.words)) }
    ensures value { IfOk result (λ r. (1 ≤ r.0.0.height) × (deep + r.0.0.height ≤ cursor.now.limits.trees + 1)) }
    ensures alts { IfOk result (λ r. deep + r.0.1.1 ≤ cursor.now.limits.trees + 1) }
{
    let (value, after) = level(alloc, cursor, at, 0, Site::Body, deep, brackets)?;
    let ((), first) = mark(cursor, after, TokenKind::Of)?;
    let ((alts, height), next) = alts(alloc, cursor, first, deep, brackets)?;
    Ok(((value, (alts, height)), next))
}

/// What may stand as an operand and as a segment's value.
#[cycle(expr)]
pub fn common(
    alloc: Global,
    cursor: &Cursor,
    at: usize,
    site: Site,
    deep: usize,
    brackets: usize,
) -> Result<(Placed<Expr>, usize), Fault>
    requires place { at ≤ length cursor.now.words }
    requires tree { deep ≤ cursor.now.limits.trees }
    requires bracket { brackets ≤ cursor.now.limits.brackets }
    ensures reads { Gives closed (common_in (in_site site deep brackets)) cursor.now at result }
    ensures further { IfOk result (λ r. at < r.1 × (r.1 ≤ length cursor.now.words)) }
    ensures bounded { IfOk result (λ r. (1 ≤ r.0.height) × (deep + r.0.height ≤ cursor.now.limits.trees + 1)) }
{
    let Some(numbered) = cursor.token(at) else {
        return Err(Fault::Refused(at, Cause::Syntax));
    };
    let place = numbered.token.span;
    match numbered.token.kind {
        TokenKind::LeftBits => {
            if brackets >= cursor.brackets() {
                return Err(Fault::Refused(at, Cause::TooDeep));
            }
            let ((tree, height), next) = bits(alloc, cursor, at + 1, site, deep, brackets, place)?;
            Ok((
                Placed {
                    at: place,
                    tree,
                    height,
                },
                next,
            ))
        }
        TokenKind::LeftParen => {
            if brackets >= cursor.brackets() {
                return Err(Fault::Refused(at, Cause::TooDeep));
            }
            let (inner, after) = level(alloc, cursor, at + 1, 0, site, deep, brackets + 1)?;
            let ((), next) = mark(cursor, after, TokenKind::RightParen)?;
            Ok((
                Placed {
                    at: place,
                    tree: inner.tree,
                    height: inner.height,
                },
                next,
            ))
        }
        _ => literal(alloc, cursor, at, numbered),
    }
}

/// A variable, a number, a character or a string, of a body or a guard.
fn literal(
    alloc: Global,
    cursor: &Cursor,
    at: usize,
    numbered: Numbered,
) -> Result<(Placed<Expr>, usize), Fault>
    requires token { StandsAt cursor.now at numbered }
    requires within { at < length cursor.now.words }
    requires short { length cursor.now.words < 2 ^ 64 }
    requires narrow { numbered.value < 2 ^ 127 }
    requires bits { numbered.token.kind ≢ k.LeftBits }
    requires paren { numbered.token.kind ≢ k.LeftParen }
    ensures reads { (c : Context) → c.mode ≢ InSize → Gives closed (common_in c) cursor.now at result }
    ensures further { IfOk result (λ r. at < r.1 × (r.1 ≤ length cursor.now.words)) }
    ensures height { IfOk result (λ r. r.0.height ≡ 1) }
{
    let place = numbered.token.span;
    match numbered.token.kind {
        TokenKind::Variable => {
            let name = cursor.name(alloc, at)?;
            Ok((
                Placed {
                    at: place,
                    tree: Expr::Var { at: place, name },
                    height: 1,
                },
                at + 1,
            ))
        }
        TokenKind::Integer => {
            let value = numbered.integer();
            Ok((
                Placed {
                    at: place,
                    tree: Expr::Int { at: place, value },
                    height: 1,
                },
                at + 1,
            ))
        }
        TokenKind::Character => {
            let value = numbered.number;
            Ok((
                Placed {
                    at: place,
                    tree: Expr::Char { at: place, value },
                    height: 1,
                },
                at + 1,
            ))
        }
        TokenKind::Str => {
            let chars = cursor.string(alloc, at)?;
            Ok((
                Placed {
                    at: place,
                    tree: Expr::Str { at: place, chars },
                    height: 1,
                },
                at + 1,
            ))
        }
        _ => Err(Fault::Refused(at, Cause::Syntax)),
    }
}

/// What begins with an atom, behind it: a call or the atom.
#[cycle(expr)]
pub fn after_atom(
    alloc: Global,
    cursor: &Cursor,
    at: usize,
    site: Site,
    deep: usize,
    brackets: usize,
    place: Span,
    name: u32,
) -> Result<((Expr, usize), usize), Fault>
    requires place { at ≤ length cursor.now.words }
    requires tree { deep ≤ cursor.now.limits.trees }
    requires bracket { brackets ≤ cursor.now.limits.brackets }
    ensures reads { Gives calls (after_atom_in (in_site site deep brackets) place name) cursor.now at result }
    ensures further { IfOk result (λ r. at ≤ r.1 × (r.1 ≤ length cursor.now.words)) }
    ensures bounded { IfOk result (λ r. (1 ≤ r.0.1) × (deep + r.0.1 ≤ cursor.now.limits.trees + 1)) }
{
    if !cursor.is(at, TokenKind::LeftParen) {
        let qualifier = Expr::Atom {
            at: place,
            atom: name,
        };
        return qualified(alloc, cursor, at, site, deep, brackets, place, qualifier);
    }
    if brackets >= cursor.brackets() {
        return Err(Fault::Refused(at, Cause::TooDeep));
    }
    let ((args, height), next) = exprs(
        alloc,
        cursor,
        at + 1,
        site,
        deep + 1,
        brackets + 1,
        TokenKind::RightParen,
    )?;
    let module = Listed::of(Vec::new(alloc));
    Ok((
        (
            Expr::Call {
                at: place,
                module,
                name,
                args,
            },
            height + 1,
        ),
        next,
    ))
}

/// What begins with a module's name, behind it: a call or the name.
#[cycle(expr)]
pub fn qualified(
    alloc: Global,
    cursor: &Cursor,
    at: usize,
    site: Site,
    deep: usize,
    brackets: usize,
    place: Span,
    qualifier: Expr,
) -> Result<((Expr, usize), usize), Fault>
    requires place { at ≤ length cursor.now.words }
    requires tree { deep ≤ cursor.now.limits.trees }
    requires bracket { brackets ≤ cursor.now.limits.brackets }
    ensures reads { Gives calls (qualified_in (in_site site deep brackets) place qualifier) cursor.now at result }
    ensures further { IfOk result (λ r. at ≤ r.1 × (r.1 ≤ length cursor.now.words)) }
    ensures bounded { IfOk result (λ r. (1 ≤ r.0.1) × (deep + r.0.1 ≤ cursor.now.limits.trees + 1)) }
{
    if !cursor.is(at, TokenKind::Colon) {
        return Ok(((qualifier, 1), at));
    }
    if deep >= cursor.trees() {
        return Err(Fault::Refused(at, Cause::TooDeep));
    }
    if brackets >= cursor.brackets() {
        return Err(Fault::Refused(at, Cause::TooDeep));
    }
    let Some(name) = cursor.atom(at + 1) else {
        return Err(Fault::Refused(at + 1, Cause::Syntax));
    };
    if !cursor.is(at + 2, TokenKind::LeftParen) {
        return Err(Fault::Refused(at + 2, Cause::Syntax));
    }
    let ((args, height), next) = exprs(
        alloc,
        cursor,
        at + 3,
        site,
        deep + 1,
        brackets + 1,
        TokenKind::RightParen,
    )?;
    let module = one(alloc, qualifier)?;
    Ok((
        (
            Expr::Call {
                at: place,
                module,
                name,
                args,
            },
            higher(1, height) + 1,
        ),
        next,
    ))
}
