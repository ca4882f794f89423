//! Programs made of patterns.

ghost use Rattle.std.specs.Prelude.{◌≡◌, ℕ, [], All, IfOk, map, false};
ghost use Rattle.term_value.specs.Rows.{shape as shape_of};
ghost use Rattle.term_value.specs.Tree.{Tree};
ghost use Rattle.pattern_compile.specs.Meaning.{wants, size_form, means, segments_of, TakeAlike};
ghost use Rattle.pattern_compile.specs.Patterns.{IsTyped, IsMarked, shape_target, given, target_in, size_in};
ghost use Rattle.pattern_compile.specs.Compiled.{then, sized, compiled, compiled_all, shaped_all};

use crate::operation::{MatchProgram, Operation, SizedOperation};
use crate::pattern::{PatSegment, SizeForm, Target};
use erl_syntax::{Kind, Listed, SizeUse, Typed};
use std::alloc::{AllocError, Global};

/// The program of a bit pattern, behind which bits may remain or not.
///
/// The error says that no memory was left.
pub fn compile(
    alloc: Global,
    segments: &[PatSegment],
    whole: bool,
) -> Result<MatchProgram, AllocError>
    requires { All IsTyped segments.now }
    ensures means { (trees : ℕ → Tree) → IfOk result (λ program. TakeAlike (means trees program.ops) (segments_of trees segments.now)) }
    ensures targets { IfOk result (λ program. map wants program.ops ≡ map target_in segments.now) }
    ensures sizes { IfOk result (λ program. map (λ op. given (size_form op)) program.ops ≡ map size_in segments.now) }
    ensures whole { IfOk result (λ program. program.whole ≡ whole) }
{
    let ops = compiled_all(alloc, segments)?;
    Ok(MatchProgram {
        ops: Listed::of(ops),
        whole,
    })
}

/// The program of a bit pattern's shape: the same sizes and kinds, with `_` for each literal, for each repeated variable, and for each
/// variable that no size further right uses. Bits may remain behind it.
///
/// The error says that no memory was left.
pub fn shape(alloc: Global, segments: &[PatSegment]) -> Result<MatchProgram, AllocError>
    requires { All IsTyped segments.now }
    ensures means { (trees : ℕ → Tree) → IsMarked trees [] segments.now → IfOk result (λ program. TakeAlike (means trees program.ops) (shape_of (segments_of trees segments.now))) }
    ensures targets { IfOk result (λ program. map wants program.ops ≡ map shape_target segments.now) }
    ensures sizes { IfOk result (λ program. map (λ op. given (size_form op)) program.ops ≡ map size_in segments.now) }
    ensures whole { IfOk result (λ program. program.whole ≡ false) }
{
    let ops = shaped_all(alloc, segments)?;
    Ok(MatchProgram {
        ops: Listed::of(ops),
        whole: false,
    })
}

// The operations of the segments.
fn compiled_all(alloc: Global, segments: &[PatSegment]) -> Result<Vec<Operation>, AllocError>
    ensures { IfOk result (λ ops. ops.items ≡ compiled_all segments.now) }
{
    segments
        .iter()
        .map(|segment| operation(segment, segment.target))
        .collect(alloc)
}

// The operations of the segments of the pattern's shape.
fn shaped_all(alloc: Global, segments: &[PatSegment]) -> Result<Vec<Operation>, AllocError>
    ensures { IfOk result (λ ops. ops.items ≡ shaped_all segments.now) }
{
    segments
        .iter()
        .map(|segment| operation(segment, in_shape(segment)))
        .collect(alloc)
}

// What the segment wants in the pattern's shape.
fn in_shape(segment: &PatSegment) -> Target
    ensures { result ≡ shape_target segment.now }
{
    match segment.target {
        Target::Bind(var) => {
            if segment.used {
                Target::Bind(var)
            } else {
                Target::Any
            }
        }
        Target::Same(_) => Target::Any,
        Target::Any => Target::Any,
    }
}

// The operation that takes the segment, with this target.
fn operation(segment: &PatSegment, target: Target) -> Operation
    ensures { result ≡ compiled target segment.now }
{
    let typed = segment.typed;
    match typed.kind {
        Kind::Int => with_length(typed, segment.size, false, target),
        Kind::Binary => with_length(typed, segment.size, true, target),
        Kind::Bitstring => with_length(typed, segment.size, true, target),
        Kind::Utf(kind) => Operation::Utf {
            kind,
            endian: typed.endian,
            target,
        },
    }
}

// The operation of a number or of a part.
fn with_length(typed: Typed, size: Option<SizeForm>, bits: bool, target: Target) -> Operation
    ensures { result ≡ sized typed size bits target }
{
    let size = match typed.size {
        SizeUse::Default(count) => SizeForm::Fixed(count),
        SizeUse::Given => size.unwrap_or(SizeForm::Fixed(0)),
        SizeUse::Whole | SizeUse::NoSize => {
            return Operation::Rest {
                unit: typed.unit,
                target,
            };
        }
    };
    Operation::SizeOf {
        size,
        unit: typed.unit,
        then: with_target(typed, bits, target),
    }
}

// What is done with the bits of a number or of a part.
fn with_target(typed: Typed, bits: bool, target: Target) -> SizedOperation
    ensures { result ≡ then typed bits target }
{
    let (sign, endian) = (typed.sign, typed.endian);
    match target {
        Target::Bind(var) => SizedOperation::Take {
            sign,
            endian,
            bits,
            var,
        },
        Target::Same(want) => SizedOperation::Compare {
            sign,
            endian,
            bits,
            want,
        },
        Target::Any => SizedOperation::Skip,
    }
}
