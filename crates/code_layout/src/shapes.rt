//! The shapes of bit patterns.

ghost use Rattle.std.specs.Prelude.{◌≡◌, map, option_map, reverse, IfOk};
ghost use Rattle.term_value.specs.Tree as t;
ghost use Rattle.term_value.specs.Rows.{shape, shape_of_target, one_mentions, mentions, uses, and_variable};
ghost use Rattle.code_tree.specs.Reading.{tree_of, trees_of, segments_of, target_of, size as size_of};

use crate::segments::again;
use code_tree::{Segment, Target, Tree};
use shares::Held;
use std::alloc::{AllocError, Global};

/// Whether a guard expression mentions a variable.
#[cycle(mentions)]
fn mentions(variable: u32, tree: &Tree) -> bool
    ensures { result ≡ mentions variable (tree_of tree.now) }
{
    match tree {
        Tree::Variable(other) => variable == *other,
        Tree::All(_, parts) => one_mentions(variable, parts.items()),
        Tree::AndAlso(first, second) => {
            mentions(variable, first.get()) || mentions(variable, second.get())
        }
        Tree::OrElse(first, second) => {
            mentions(variable, first.get()) || mentions(variable, second.get())
        }
        Tree::Value(_)
        | Tree::Case(_, _)
        | Tree::If(_)
        | Tree::Receive(_)
        | Tree::Comprehension(_, _, _) => false,
    }
}

#[cycle(mentions)]
fn one_mentions(variable: u32, parts: &[Tree]) -> bool
    ensures { result ≡ one_mentions variable (trees_of parts.now) }
{
    for part in parts {
        if mentions(variable, part) {
            return true;
        }
    }
    false
}

/// Whether a size uses a variable.
fn size_mentions(variable: u32, size: &Option<Held<Tree>>) -> bool
    ensures { result ≡ one_mentions variable (size_of (option_map tree_of size.now)) }
{
    match size {
        Some(size) => mentions(variable, size.get()),
        None => false,
    }
}

/// Whether the size of a segment uses a variable.
fn is_used(variable: u32, segments: &[Segment]) -> bool
    ensures { result ≡ uses variable (segments_of segments.now) }
{
    for segment in segments {
        if size_mentions(variable, &segment.size) {
            return true;
        }
    }
    false
}

/// A variable of the shape, where none of the earlier ones is the same and a later size uses it.
fn shape_variable(earlier: &[u32], later: &[Segment], variable: u32) -> Target
    ensures { target_of result ≡ shape_of_target earlier.now (segments_of later.now) (t.Variable variable) }
{
    if earlier.contains(&variable) {
        return Target::Anything;
    }
    if is_used(variable, later) {
        Target::Variable(variable)
    } else {
        Target::Anything
    }
}

/// What a segment of the shape wants, behind these variables and before these segments.
fn shape_target(earlier: &[u32], later: &[Segment], target: &Target) -> Target
    ensures { target_of result ≡ shape_of_target earlier.now (segments_of later.now) (target_of target.now) }
{
    match target {
        Target::Variable(variable) => shape_variable(earlier, later, *variable),
        Target::Anything | Target::Equal(_) => Target::Anything,
    }
}

/// Notes the variable of a segment, where it has one.
fn note(earlier: &mut Vec<u32>, target: &Target) -> Result<(), AllocError>
    ensures { IfOk result (λ u. reverse earlier.new.items ≡ and_variable (reverse earlier.old.items) (target_of target.now)) }
{
    match target {
        Target::Variable(variable) => Ok(earlier.push(*variable)?),
        Target::Anything | Target::Equal(_) => Ok(()),
    }
}

/// The segments with the same sizes and kinds, and with `_` for each literal, for each repeated variable, and for each variable that no
/// size further right uses.
pub(crate) fn shape(alloc: Global, segments: &[Segment]) -> Result<Vec<Segment>, AllocError>
    ensures { IfOk result (λ found. segments_of found.items ≡ shape (segments_of segments.now)) }
{
    let mut earlier = Vec::new(alloc);
    let mut found = Vec::new(alloc);
    let mut left = segments;
    while let Some((segment, later)) = left.split_first() {
        found.push(Segment {
            typed: segment.typed,
            target: shape_target(&earlier, later, &segment.target),
            size: again(&segment.size)?,
        })?;
        note(&mut earlier, &segment.target)?;
        left = later;
    }
    Ok(found)
}
