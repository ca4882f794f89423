ghost use Rattle.std.specs.Prelude.{◌≡◌, max};

use erl_syntax::Span;

/// A tree with the place of its first token and its height, which is 1 for one with no tree inside it.
#[derive(Debug, Drop)]
pub struct Placed<T> {
    pub at: Span,
    pub tree: T,
    pub height: usize,
}

/// The greater of two heights.
pub fn higher(left: usize, right: usize) -> usize
    ensures { result ≡ max left right }
{
    left.max(right)
}
