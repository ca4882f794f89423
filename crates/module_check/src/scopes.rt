//! Scopes, which are the roots of trees of names.

ghost use Rattle.std.specs.Prelude.{◌≡◌, ◌≤◌, ◌+◌, ◌++◌, ◌∷◌, [], ℕ, List, length, IfOk, MatchBool, MatchOption};
ghost use Rattle.erl_syntax.specs.Bindings.{Bound, names};
ghost use Rattle.erl_syntax.specs.Scopes.{Scope, Danger, Found, IsKnown};
ghost use Rattle.module_check.specs.Nodes.{TreeOf, Sees, Grown, bounds_of, bound_of, SeesUnsafe};

use crate::trees::{Node, find, put};
use erl_syntax::Span;
use std::alloc::AllocError;

/// A variable in a pattern.
#[derive(Clone, Copy)]
pub(crate) struct Target<'a> {
    pub name: &'a [u8],
    pub at: Span,
}

/// Puts the variables in front, the first of them foremost.
pub(crate) fn put_all<'a>(
    nodes: &mut Vec<Node<'a>>,
    before: usize,
    targets: &[Target<'a>],
) -> Result<usize, AllocError>
    ensures grown { IfOk result (λ last. Grown nodes.old.items nodes.new.items) }
    ensures put { IfOk result (λ last. (bs : List Bound) → Sees nodes.old.items before bs → Sees nodes.new.items last (bounds_of targets.now ++ bs)) }
{
    let mut last = before;
    let mut left = targets.len();
    while left > 0 {
        left -= 1;
        let target = targets[left];
        last = put(nodes, last, target.name, target.at)?;
    }
    Ok(last)
}

/// Puts the variable behind those that are known: it counts only where its name is not known.
pub(crate) fn append<'a>(
    nodes: &mut Vec<Node<'a>>,
    before: usize,
    target: Target<'a>,
) -> Result<usize, AllocError>
    ensures grown { IfOk result (λ last. Grown nodes.old.items nodes.new.items) }
    ensures put { IfOk result (λ last. (bs : List Bound) → Sees nodes.old.items before bs → Sees nodes.new.items last (bs ++ bound_of target.entry ∷ [])) }
{
    match find(nodes, before, target.name) {
        Some(_) => Ok(before),
        None => put(nodes, before, target.name, target.at),
    }
}

/// Puts the variables behind those that are known.
pub(crate) fn append_all<'a>(
    nodes: &mut Vec<Node<'a>>,
    before: usize,
    targets: &[Target<'a>],
) -> Result<usize, AllocError>
    ensures grown { IfOk result (λ last. Grown nodes.old.items nodes.new.items) }
    ensures put { IfOk result (λ last. (bs : List Bound) → Sees nodes.old.items before bs → Sees nodes.new.items last (bs ++ bounds_of targets.now)) }
{
    let mut last = before;
    for target in targets {
        last = append(nodes, last, *target)?;
    }
    Ok(last)
}

/// Puts the variable in front of what is unsafe, where it is not known.
fn endanger_one<'a>(
    nodes: &mut Vec<Node<'a>>,
    dangers: usize,
    known: usize,
    target: Target<'a>,
) -> Result<usize, AllocError>
    ensures grown { IfOk result (λ last. Grown nodes.old.items nodes.new.items) }
    ensures put { IfOk result (λ last. (ds : List Danger) (bs : List Bound) → SeesUnsafe nodes.old.items dangers ds → Sees nodes.old.items known bs → SeesUnsafe nodes.new.items last (ds ++ record { left_unsafe = (bound_of target.entry).name ∷ []; known = bs } ∷ [])) }
{
    match find(nodes, known, target.name) {
        Some(_) => Ok(dangers),
        None => put(nodes, dangers, target.name, target.at),
    }
}

/// What is unsafe behind a part that leaves these variables so, by what is known where the part begins.
pub(crate) fn endanger<'a>(
    nodes: &mut Vec<Node<'a>>,
    dangers: usize,
    known: usize,
    targets: &[Target<'a>],
) -> Result<usize, AllocError>
    ensures grown { IfOk result (λ last. Grown nodes.old.items nodes.new.items) }
    ensures put { IfOk result (λ last. (ds : List Danger) (bs : List Bound) → SeesUnsafe nodes.old.items dangers ds → Sees nodes.old.items known bs → SeesUnsafe nodes.new.items last (ds ++ record { left_unsafe = names (bounds_of targets.now); known = bs } ∷ [])) }
{
    let mut last = dangers;
    for target in targets {
        last = endanger_one(nodes, last, known, *target)?;
    }
    Ok(last)
}
