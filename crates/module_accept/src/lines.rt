ghost use Rattle.std.specs.Prelude.{◌≡◌, IfOk};
ghost use Rattle.module_accept.specs.Causes.{line_of};

use erl_syntax::Span;
use std::alloc::{AllocError, Global};

/// The line `LINE:COLUMN: CAUSE` of a refusal, with its line feed.
pub fn line(alloc: Global, at: Span, why: &str) -> Result<Vec<u8>, AllocError>
    ensures { IfOk result (λ line. line.items ≡ line_of at why.now) }
{
    let row = at.line;
    let column = at.column;
    let text = format!(in alloc; "{row}:{column}: {why}\n")?;
    Ok(text.into_bytes())
}
