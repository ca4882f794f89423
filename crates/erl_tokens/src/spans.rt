ghost use Rattle.std.specs.Prelude.{◌≡◌, ◌<◌, ◌≤◌, ◌+◌, ◌^◌, length};
ghost use Rattle.erl_syntax.specs.Tokens.{after, place_from};

use crate::characters::is_continuation;
use erl_syntax::Span;

/// The place after a byte.
fn after(b: u8, at: Span) -> Span
    requires { (at.line < 2 ^ 31) × (at.column < 2 ^ 31) }
    ensures value { result ≡ after b at }
    ensures near { (result.line ≤ at.line + 1) × (result.column ≤ at.column + 1) }
{
    if b == b'\n' {
        Span {
            line: at.line + 1,
            column: 1,
        }
    } else if is_continuation(b) {
        at
    } else {
        Span {
            line: at.line,
            column: at.column + 1,
        }
    }
}

/// The place after these bytes.
pub fn place_after(bs: &[u8], at: Span) -> Span
    requires { (at.line + length bs.now < 2 ^ 31) × (at.column + length bs.now < 2 ^ 31) }
    ensures value { result ≡ place_from at (length bs.now) bs.now }
    ensures near { (result.line ≤ at.line + length bs.now) × (result.column ≤ at.column + length bs.now) }
{
    let mut place = at;
    for b in bs {
        place = after(*b, place);
    }
    place
}
