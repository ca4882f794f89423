ghost use Rattle.std.specs.Prelude.{◌≡◌, ◌≤◌, ◌<◌};
ghost use Rattle.erl_syntax.specs.Grammar.{right_of};
ghost use Rattle.erl_syntax.specs.Operators.{operator_of, level_of, prefix_of};
ghost use Rattle.pattern_read.specs.Wanted.{begins_size};

use erl_syntax::{Op, Prefix, TokenKind};

/// The operator that a token is between two expressions.
pub fn operator(kind: TokenKind) -> Option<Op>
    ensures { result ≡ operator_of kind }
{
    match kind {
        TokenKind::Star => Some(Op::Mul),
        TokenKind::Div => Some(Op::Div),
        TokenKind::Rem => Some(Op::Rem),
        TokenKind::Band => Some(Op::Band),
        TokenKind::Plus => Some(Op::Add),
        TokenKind::Minus => Some(Op::Sub),
        TokenKind::Bor => Some(Op::Bor),
        TokenKind::Bxor => Some(Op::Bxor),
        TokenKind::Bsl => Some(Op::Bsl),
        TokenKind::Bsr => Some(Op::Bsr),
        TokenKind::Equal => Some(Op::Eq),
        TokenKind::NotEqual => Some(Op::Ne),
        TokenKind::AtMost => Some(Op::Le),
        TokenKind::Less => Some(Op::Lt),
        TokenKind::AtLeast => Some(Op::Ge),
        TokenKind::Greater => Some(Op::Gt),
        TokenKind::ExactlyEqual => Some(Op::Same),
        TokenKind::ExactlyNotEqual => Some(Op::NotSame),
        TokenKind::AndAlso => Some(Op::AndAlso),
        TokenKind::OrElse => Some(Op::OrElse),
        TokenKind::Bang => Some(Op::Send),
        _ => None,
    }
}

/// How tightly an operator binds, from 0 for `!` to 5.
pub fn level(op: Op) -> usize
    ensures { result ≡ level_of op }
{
    match op {
        Op::Send => 0,
        Op::OrElse => 1,
        Op::AndAlso => 2,
        Op::Eq | Op::Ne | Op::Le | Op::Lt | Op::Ge | Op::Gt | Op::Same | Op::NotSame => 3,
        Op::Add | Op::Sub | Op::Bor | Op::Bxor | Op::Bsl | Op::Bsr => 4,
        Op::Mul | Op::Div | Op::Rem | Op::Band => 5,
    }
}

/// The operator that a token is before an expression.
pub fn prefix(kind: TokenKind) -> Option<Prefix>
    ensures { result ≡ prefix_of kind }
{
    match kind {
        TokenKind::Plus => Some(Prefix::Plus),
        TokenKind::Minus => Some(Prefix::Minus),
        TokenKind::Bnot => Some(Prefix::Bnot),
        TokenKind::Not => Some(Prefix::Not),
        _ => None,
    }
}

/// The level of what stands right of an operator of a level: `!`, `orelse` and `andalso` group to the right.
pub fn right_of(level: usize) -> usize
    requires { level < 6 }
    ensures level { result ≡ right_of level }
    ensures low { result ≤ 6 }
{
    if level < 3 { level } else { level + 1 }
}

/// Whether an expression in a size of a pattern may begin so.
pub fn begins_size(kind: TokenKind) -> bool
    ensures { result ≡ begins_size kind }
{
    matches!(
        kind,
        TokenKind::Plus
            | TokenKind::Minus
            | TokenKind::Bnot
            | TokenKind::Not
            | TokenKind::Atom
            | TokenKind::Question
            | TokenKind::Variable
            | TokenKind::Integer
            | TokenKind::Character
            | TokenKind::LeftParen
    )
}
