ghost use Rattle.std.specs.Prelude.{◌≡◌, ◌≤◌, length, drop};
ghost use Rattle.pattern_read.specs.WantedPatterns.{begins_pattern, begins_value, opens_pattern, FirstToken};

use crate::cursor::Cursor;
use crate::fault::Cause;
use erl_syntax::TokenKind;

/// Whether a pattern that begins so begins with a bracket.
pub(crate) fn opens_pattern(kind: TokenKind) -> bool
    ensures { result ≡ opens_pattern kind }
{
    matches!(
        kind,
        TokenKind::LeftParen | TokenKind::LeftBrace | TokenKind::LeftBracket | TokenKind::LeftBits
    )
}

/// Whether the value of a segment of a pattern may begin so.
fn begins_value(kind: TokenKind) -> bool
    ensures { result ≡ begins_value kind }
{
    matches!(
        kind,
        TokenKind::Variable
            | TokenKind::Underscore
            | TokenKind::Integer
            | TokenKind::Plus
            | TokenKind::Minus
            | TokenKind::Character
            | TokenKind::Str
    )
}

/// Whether a pattern may begin so.
fn begins_pattern(kind: TokenKind) -> bool
    ensures { result ≡ begins_pattern kind }
{
    matches!(
        kind,
        TokenKind::Variable
            | TokenKind::Underscore
            | TokenKind::Integer
            | TokenKind::Plus
            | TokenKind::Minus
            | TokenKind::Character
            | TokenKind::Atom
            | TokenKind::Str
            | TokenKind::LeftParen
            | TokenKind::LeftBrace
            | TokenKind::LeftBracket
            | TokenKind::LeftBits
    )
}

/// Why no pattern stands where it would be too deep.
pub(crate) fn pattern_cause(cursor: &Cursor, at: usize) -> Cause
    requires { at ≤ length cursor.now.words }
    ensures { FirstToken begins_pattern (drop at cursor.now.words) result }
{
    let Some(numbered) = cursor.token(at) else {
        return Cause::Syntax;
    };
    if begins_pattern(numbered.token.kind) {
        Cause::TooDeep
    } else {
        Cause::Syntax
    }
}

/// Why no segment of a pattern stands where it would be too deep.
pub(crate) fn value_cause(cursor: &Cursor, at: usize) -> Cause
    requires { at ≤ length cursor.now.words }
    ensures { FirstToken begins_value (drop at cursor.now.words) result }
{
    let Some(numbered) = cursor.token(at) else {
        return Cause::Syntax;
    };
    if begins_value(numbered.token.kind) {
        Cause::TooDeep
    } else {
        Cause::Syntax
    }
}
