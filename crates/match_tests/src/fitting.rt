//! Tests of what `compile` and `run` require, so that a row that is no pattern fails.

ghost use Rattle.std.specs.Prelude.{◌≡◌, ◌<◌, ℕ, true, All, IfOk, map, length};
ghost use Rattle.pattern_compile.specs.Meaning.{wants, size_form};
ghost use Rattle.pattern_compile.specs.Patterns.{IsTyped, TargetFits, TargetsFit, SizeFits, given, also};
ghost use Rattle.match_context.specs.Envs.{known};
ghost use Rattle.match_tests.specs.Held.{held_in, has_mark, all_marks};

use crate::slots::Slots;
use erl_syntax::{Kind, SizeUse};
use pattern_compile::{Operation, PatSegment, SizeForm, Target, Want};
use std::alloc::{AllocError, Global};

/// Whether each segment has a size exactly where its type says so.
pub(crate) fn are_typed(segments: &[PatSegment]) -> bool
    ensures { result ≡ true → All IsTyped segments.now }
{
    for segment in segments {
        if !is_typed(segment) {
            return false;
        }
    }
    true
}

fn is_typed(segment: &PatSegment) -> bool
    ensures { result ≡ true → IsTyped segment.now }
{
    match (segment.typed.kind, segment.typed.size) {
        (Kind::Utf(_), SizeUse::NoSize) => segment.size.is_none(),
        (Kind::Utf(_), _) => false,
        (_, SizeUse::Given) => segment.size.is_some(),
        (_, SizeUse::Default(_)) => segment.size.is_none(),
        (Kind::Binary, SizeUse::Whole) => segment.size.is_none(),
        (Kind::Bitstring, SizeUse::Whole) => segment.size.is_none(),
        _ => false,
    }
}

/// Whether the operations can be run on these slots: variables and sizes have numbers, those that are bound aren't yet, and those that
/// are compared are.
#[tactic(auto, using(crate::proofs::Marks::fits_held))]
pub(crate) fn fits<R>(alloc: Global, slots: &Slots<R>, ops: &[Operation]) -> bool
    ensures targets { result ≡ true → TargetsFit (length slots.now.values.items) (known (held_in slots.now.values.items)) (map wants ops.now) }
    ensures sizes { result ≡ true → All (λ op. SizeFits (length slots.now.sizes.items) (given (size_form op))) ops.now }
{
    match marks(alloc, slots) {
        Ok(mut marks) => { targets_fit(ops, &mut marks) && sizes_fit(ops, slots.sizes.len()) }
        Err(_) => false,
    }
}

// Whether each variable is bound.
fn marks<R>(alloc: Global, slots: &Slots<R>) -> Result<Vec<bool>, AllocError>
    ensures { IfOk result (λ marks. marks.items ≡ all_marks slots.now.values.items) }
{
    slots
        .values
        .iter()
        .map(|slot| slot.is_some())
        .collect(alloc)
}

// Whether the targets fit the variables that are marked, from the left on, where each that is bound is marked then.
#[tactic(auto, using(crate::proofs::Marks::fits_first))]
fn targets_fit(ops: &[Operation], marks: &mut [bool]) -> bool
    ensures { result ≡ true → TargetsFit (length marks.old) (has_mark marks.old) (map wants ops.now) }
{
    match ops {
        [] => true,
        [first, further @ ..] => {
            target_fits(first.target(), marks) && targets_fit(further, marks)
        }
    }
}

fn target_fits(target: Target, marks: &mut [bool]) -> bool
    ensures is { result ≡ true → TargetFits (length marks.old) (has_mark marks.old) target }
    ensures count { length marks.new ≡ length marks.old }
    ensures marks { result ≡ true → (x : ℕ) → has_mark marks.new x ≡ also (has_mark marks.old) target x }
{
    match target {
        Target::Bind(var) => {
            let var = var as usize;
            if var >= marks.len() || marks[var] {
                return false;
            }
            marks[var] = true;
            true
        }
        Target::Same(Want::Var(var)) => (var as usize) < marks.len() && marks[var as usize],
        Target::Same(Want::Literal(_)) => true,
        Target::Any => true,
    }
}

fn sizes_fit(ops: &[Operation], count: usize) -> bool
    ensures { result ≡ true → All (λ op. SizeFits count (given (size_form op))) ops.now }
{
    for op in ops {
        if !size_fits(op.size(), count) {
            return false;
        }
    }
    true
}

fn size_fits(size: Option<SizeForm>, count: usize) -> bool
    ensures { result ≡ true → SizeFits count (given size) }
{
    match size {
        Some(SizeForm::Given(expr)) => (expr as usize) < count,
        Some(SizeForm::Fixed(_)) => true,
        None => true,
    }
}
