ghost use Rattle.std.specs.Prelude.{◌≡◌, ◌≤◌, length, drop, false, IsTrue, IfOk, Ok, Err};
ghost use Rattle.erl_syntax.specs.Grammar.{Context};
ghost use Rattle.pattern_read.specs.Reading.{Gives, closed};
ghost use Rattle.pattern_read.specs.Wanted.{extends, level_in};
ghost use Rattle.body_read.specs.WantedExprs.{qual_longer, qual_in};
ghost use Rattle.body_read.specs.WantedItems.{matched_in, generated_in, Joins, IsFarther, Joined, Joined3, GivesValue, bars, NoneOf, BarStands, BitsTried, IsFilterOf};

use erl_syntax::{Expr, Qual, TokenKind};
use pattern_read::cursor::Cursor;
use pattern_read::fault::{Cause, Fault};
use pattern_read::placed::Placed;

/// The cause at a token at which one reading is refused, where another is refused further left, or there.
fn either_cause(later: Cause, earlier: Cause) -> Cause
    ensures { Joins later earlier result }
{
    match (later, earlier) {
        (_, Cause::Syntax) => later,
        (Cause::TooDeep, _) => Cause::TooDeep,
        (Cause::UnknownSegmentType, Cause::UnknownSegmentType) => Cause::UnknownSegmentType,
        _ => Cause::Undecided,
    }
}

/// Of two refused tokens the one further right, which is refused in both readings.
fn farther(first: (usize, Cause), second: (usize, Cause)) -> (usize, Cause)
    ensures { IsFarther first.0 first.1 second.0 second.1 result.0 result.1 }
{
    if first.0 > second.0 {
        (first.0, either_cause(first.1, second.1))
    } else if first.0 < second.0 || first.1 == Cause::Syntax || second.1 == Cause::TooDeep {
        (second.0, either_cause(second.1, first.1))
    } else {
        (second.0, either_cause(first.1, second.1))
    }
}

/// Of two refusals at a place the one further right. The memory is out if it was in a reading.
fn refusal(first: Fault, second: Fault) -> Fault
    ensures { Joined first second result }
{
    match (first, second) {
        (Fault::Refused(place, cause), Fault::Refused(stop, why)) => {
            let (further, joint) = farther((place, cause), (stop, why));
            Fault::Refused(further, joint)
        }
        _ => Fault::Memory,
    }
}

/// The expression of an item, where a pattern with its `=` was refused and an expression was tried.
pub fn item_value(
    cursor: &Cursor,
    at: usize,
    tried: Fault,
    read: Result<(Placed<Expr>, usize), Fault>,
) -> Result<(Placed<Expr>, usize), Fault>
    requires { IfOk read (λ r. r.1 ≤ length cursor.now.words) }
    ensures reads { (c : Context) → Gives closed (matched_in c) cursor.now at (Err tried) → Gives (extends 0) (level_in 0 c) cursor.now at read → GivesValue c cursor.now at result }
    ensures kept { IfOk result (λ r. read ≡ Ok r) }
{
    match read {
        Ok((value, after)) => {
            if cursor.is(after, TokenKind::Match) {
                return Err(refusal(tried, Fault::Refused(after, Cause::Syntax)));
            }
            Ok((value, after))
        }
        Err(fault) => Err(refusal(tried, fault)),
    }
}

/// Of the faults of two readings, or of three, the refusal furthest right. The memory is out if it was in a reading.
fn furthest(first: Fault, second: Option<Fault>, third: Fault) -> Fault
    ensures { Joined3 first second third result }
{
    match second {
        None => refusal(first, third),
        Some(second) => refusal(first, refusal(second, third)),
    }
}

/// Whether the mark of a match or of a generator is of that kind.
fn is_bar(kind: TokenKind) -> bool
    ensures { result ≡ bars kind }
{
    matches!(
        kind,
        TokenKind::Match | TokenKind::LeftArrow | TokenKind::DoubleLeftArrow
    )
}

/// Whether the mark of a match or of a generator stands there.
fn bar_stands(cursor: &Cursor, at: usize) -> bool
    requires { at ≤ length cursor.now.words }
    ensures yes { IsTrue result → BarStands cursor.now at }
    ensures no { result ≡ false → NoneOf bars (drop at cursor.now.words) }
{
    let Some(numbered) = cursor.token(at) else {
        return false;
    };
    is_bar(numbered.token.kind)
}

/// A filter, where generators were refused and an expression was tried.
pub fn filter(
    cursor: &Cursor,
    at: usize,
    pattern: Fault,
    bits: Option<Fault>,
    read: Result<(Placed<Expr>, usize), Fault>,
) -> Result<((Qual, usize), usize), Fault>
    requires { IfOk read (λ r. r.1 ≤ length cursor.now.words) }
    ensures reads { (c : Context) → Gives closed (generated_in c) cursor.now at (Err pattern) → BitsTried c cursor.now at bits → Gives (extends 0) (level_in 0 c) cursor.now at read → Gives qual_longer (qual_in c) cursor.now at result }
    ensures kept { IfOk result (λ r. IsFilterOf read r) }
{
    match read {
        Ok((test, after)) => {
            if bar_stands(cursor, after) {
                return Err(furthest(pattern, bits, Fault::Refused(after, Cause::Syntax)));
            }
            let height = test.height;
            Ok((
                (
                    Qual::Filter {
                        at: test.at,
                        test: test.tree,
                    },
                    height,
                ),
                after,
            ))
        }
        Err(fault) => Err(furthest(pattern, bits, fault)),
    }
}
