ghost use Rattle.std.specs.Prelude.{◌≡◌, List, map, option_map, reverse, IfOk};
ghost use Rattle.term_value.specs.Value.{VList};
ghost use Rattle.term_value.specs.BuiltIns.{integers};
ghost use Rattle.term_value.specs.Read.{pattern_list, patterns as read_patterns, segments as read_segments};
ghost use Rattle.term_value.specs.Tree as t;
ghost use Rattle.code_tree.specs.Reading.{pattern_of};
ghost use Rattle.code_layout.specs.Layout.{reading_of, pattern_tree, first_pattern_of, first_pattern_tree};
ghost use Rattle.code_layout.specs.Readings.{pieces_read};

use crate::laying::Laying;
use crate::literals::{atom, integer, string};
use crate::segments::matched;
use code_tree::Pattern;
use erl_syntax::{Listed, Pattern as Read, Segment};
use shares::Held;
use std::alloc::{AllocError, Global};

/// A pattern.
#[cycle(lay)]
pub(crate) fn pattern(laying: &Laying, read: &Read) -> Result<Pattern, AllocError>
    ensures { IfOk result (λ found. pattern_of found ≡ pattern_tree laying.now read.now) }
{
    match read {
        Read::Var { at, .. } => Ok(Pattern::Variable(laying.number(*at))),
        Read::Wild { .. } => Ok(Pattern::Anything),
        Read::Int { value, .. } => Ok(Pattern::Value(integer(*value))),
        Read::Char { value, .. } => Ok(Pattern::Value(integer(i128::from(*value)))),
        Read::Atom { atom: number, .. } => Ok(Pattern::Value(atom(*number))),
        Read::Str { chars, .. } => text(laying.alloc, chars.items()),
        Read::Tuple { items, .. } => tuple(laying, items.items()),
        Read::List { items, tail, .. } => {
            let found = patterns(laying, items.items())?;
            let last = first(laying, tail.items())?;
            list(laying.alloc, found, last)
        }
        Read::Bits { segments, .. } => bits(laying, segments.items()),
        Read::Same { patterns, .. } => same(laying, patterns.items()),
    }
}

/// A string.
fn text(alloc: Global, characters: &[u32]) -> Result<Pattern, AllocError>
    ensures { IfOk result (λ found. pattern_of found ≡ t.PVal (VList (integers characters.now))) }
{
    let term = string(alloc, characters)?;
    Ok(Pattern::Value(term))
}

#[cycle(lay)]
fn tuple(laying: &Laying, items: &[Read]) -> Result<Pattern, AllocError>
    ensures { IfOk result (λ found. pattern_of found ≡ t.PTuple (read_patterns (map (pattern_tree laying.now) items.now))) }
{
    let items = patterns(laying, items)?;
    Ok(Pattern::Tuple(items))
}

#[cycle(lay)]
fn bits(laying: &Laying, segments: &[Segment]) -> Result<Pattern, AllocError>
    ensures { IfOk result (λ found. pattern_of found ≡ t.PBits (read_segments (pieces_read (reading_of laying.now) segments.now))) }
{
    let segments = matched(laying, segments)?;
    Ok(Pattern::Bits(Listed::of(segments)))
}

/// Patterns of one value.
#[cycle(lay)]
fn same(laying: &Laying, reads: &[Read]) -> Result<Pattern, AllocError>
    ensures { IfOk result (λ found. pattern_of found ≡ t.PSame (read_patterns (map (pattern_tree laying.now) reads.now))) }
{
    let patterns = patterns(laying, reads)?;
    Ok(Pattern::Same(patterns))
}

/// A list of items, or of items on a tail.
fn list(alloc: Global, items: Listed<Pattern>, tail: Option<Pattern>) -> Result<Pattern, AllocError>
    ensures { IfOk result (λ found. (reads tails : List t.Pattern) → map pattern_of items ≡ reads → option_map pattern_of tail ≡ first_pattern_of tails → pattern_of found ≡ pattern_list reads tails) }
{
    match tail {
        None => Ok(Pattern::List(items)),
        Some(tail) => Ok(Pattern::ListOn(items, Held::new(alloc, tail)?)),
    }
}

/// Patterns, in their order.
#[cycle(lay)]
pub(crate) fn patterns(laying: &Laying, reads: &[Read]) -> Result<Listed<Pattern>, AllocError>
    ensures { IfOk result (λ found. map pattern_of found ≡ map (pattern_tree laying.now) reads.now) }
{
    let mut found = Vec::new(laying.alloc);
    for read in reads {
        let pattern = pattern(laying, read)?;
        found.push(pattern)?;
    }
    Ok(Listed::of(found))
}

/// Patterns, the last first.
#[cycle(lay)]
pub(crate) fn from_right(laying: &Laying, reads: &[Read]) -> Result<Listed<Pattern>, AllocError>
    ensures { IfOk result (λ found. map pattern_of found ≡ reverse (map (pattern_tree laying.now) reads.now)) }
{
    let mut found = Vec::new(laying.alloc);
    for read in reads {
        let pattern = pattern(laying, read)?;
        found.push(pattern)?;
    }
    found.reverse();
    Ok(Listed::of(found))
}

/// The first pattern, where there is one.
#[cycle(lay)]
fn first(laying: &Laying, reads: &[Read]) -> Result<Option<Pattern>, AllocError>
    ensures { IfOk result (λ found. option_map pattern_of found ≡ first_pattern_tree laying.now reads.now) }
{
    for read in reads {
        return Ok(Some(pattern(laying, read)?));
    }
    Ok(None)
}
