//! The segments of bit patterns.

ghost use Rattle.std.specs.Prelude.{◌≡◌, ◌≤◌, ℤ, Bool, true, List, Option, None, Some, length, drop, option_map, IfOk};
ghost use Rattle.bits_value.specs.Number.{bounded};
ghost use Rattle.bit_store.specs.Stores.{itself};
ghost use Rattle.code_match.specs.Binds.{bounds};
ghost use Rattle.code_match.specs.Matches.{match_of, taken_of, front_of};
ghost use Rattle.code_match.specs.Places.{place_of, IsPlace, IsReach, HasShort};
ghost use Rattle.code_tree.specs.PlainTerms.{IsShort, AnyAtom};
ghost use Rattle.code_tree.specs.Reading.{segment_of, segments_of, target_of, tree_of, size as size_of};
ghost use Rattle.expr_eval.specs.Answers.{setting, IsEvaluated};
ghost use Rattle.segment_cut.specs.Cuts.{IsCut};
ghost use Rattle.term_value.specs.Decode as d;
ghost use Rattle.term_value.specs.Match as m;
ghost use Rattle.term_value.specs.PutIn.{in_target};
ghost use Rattle.term_value.specs.Result.{Result as Evaluation};
ghost use Rattle.term_value.specs.Rows as r;
ghost use Rattle.term_value.specs.Setting.{Setting};
ghost use Rattle.term_value.specs.Terms.{value_of, IsOver};
ghost use Rattle.term_value.specs.Value.{VInt};

use crate::bindings::Bindings;
use crate::guards::result_of;
use crate::meeting::{met_value, met_variable, read_number};
use crate::outcome::{Front, Matched, Taken};
use bit_store::{PlainStore, Window};
use bits_build::{Extent, reach};
use code_tree::{Segment, Target, Tree};
use erl_syntax::Typed;
use expr_eval::{Answer, Caller, EvalFault};
use segment_cut::{CutOff, CutValue, cut};
use shares::Held;
use std::alloc::AllocError;
use term_value::Term;

// The same as `Taken`, with the bit at which the bits behind the segments begin.
#[derive(Drop)]
enum Place {
    At(Bindings, u32),
    Nowhere,
    Limit,
}

/// The segments off the front of bits, from the left (Erlang Reference Manual, "Bit Syntax Expressions").
pub fn all_taken(
    caller: &Caller<'_>,
    segments: &[Segment],
    bindings: Bindings,
    bits: &Window,
) -> Result<Taken, AllocError>
    ensures { IfOk result (λ taken. taken_of taken ≡ m.all_taken (setting caller.now.names.now caller.now.pid) (segments_of segments.now) (bounds bindings) bits.now) }
{
    let len = bits.len();
    match place_behind(caller, segments, bindings, bits)? {
        Place::At(all, at) => Ok(Taken::Yes(all, bits.part(at, len - at)?)),
        Place::Nowhere => Ok(Taken::No),
        Place::Limit => Ok(Taken::Limit),
    }
}

// The place behind the segments.
#[tactic(auto, using(crate::proofs::Taking::taken_is, crate::proofs::Taking::none_left))]
fn place_behind(
    caller: &Caller<'_>,
    segments: &[Segment],
    bindings: Bindings,
    bits: &Window,
) -> Result<Place, AllocError>
    requires { IsShort bits.now }
    ensures is { IfOk result (λ place. place_of bits.now place ≡ m.all_taken (setting caller.now.names.now caller.now.pid) (segments_of segments.now) (bounds bindings) bits.now) }
    ensures inside { IfOk result (IsPlace bits.now) }
{
    let mut bound = bindings;
    let mut at = 0;
    for segment in segments {
        match place_after(caller, segment, bound, bits, at)? {
            Place::At(all, next) => {
                bound = all;
                at = next;
            }
            Place::Nowhere => return Ok(Place::Nowhere),
            Place::Limit => return Ok(Place::Limit),
        }
    }
    Ok(Place::At(bound, at))
}

// The place behind one segment of the bits from bit `at` on.
#[tactic(auto, using(crate::proofs::Taking::unreached, crate::proofs::Taking::wanted_taken, crate::proofs::Taking::none_taken, crate::proofs::Taking::is_short))]
fn place_after(
    caller: &Caller<'_>,
    segment: &Segment,
    bindings: Bindings,
    bits: &Window,
    at: u32,
) -> Result<Place, AllocError>
    requires short { IsShort bits.now }
    requires inside { at ≤ length bits.now }
    ensures is { IfOk result (λ place. place_of bits.now place ≡ d.taken (setting caller.now.names.now caller.now.pid) (segment_of segment.now).typed (segment_of segment.now).target (size_of (segment_of segment.now).size) (bounds bindings) (drop at bits.now)) }
    ensures inside { IfOk result (IsPlace bits.now) }
{
    let Some(extent) = extent_of(caller, segment, &bindings)? else {
        return Ok(Place::Limit);
    };
    let store = PlainStore::new(caller.alloc);
    match cut(&store, segment.typed, extent, bits, at)? {
        Some(off) => wanted(caller, &segment.target, off, bindings),
        None => Ok(Place::Nowhere),
    }
}

// How many bits the segment takes; None where its size is limit.
#[tactic(auto, using(crate::proofs::Taking::plain_reach, crate::proofs::Taking::sized_reach))]
fn extent_of(
    caller: &Caller<'_>,
    segment: &Segment,
    bindings: &Bindings,
) -> Result<Option<Extent>, AllocError>
    ensures { IfOk result (IsReach (d.reach (setting caller.now.names.now caller.now.pid) segment.now.typed (bounds bindings.now) (size_of (option_map tree_of segment.now.size)))) }
{
    match &segment.size {
        None => Ok(Some(reach::<Window>(&segment.typed, None))),
        Some(size) => extent_by(segment.typed, result_of(caller, size.get(), bindings)),
    }
}

// How many bits a segment of this type takes, by what its size comes to; None where that is limit.
#[tactic(auto, using(crate::proofs::Taking::reach_gives, crate::proofs::Taking::reach_raised, crate::proofs::Taking::reach_limit))]
fn extent_by(typed: Typed, size: Answer<Window>) -> Result<Option<Extent>, AllocError>
    ensures { (due : Evaluation) → IsEvaluated itself size due → IfOk result (IsReach (d.reach_by typed due)) }
{
    match size {
        Ok(size) => Ok(Some(reach(&typed, Some(&size)))),
        Err(EvalFault::Raised(_)) => Ok(Some(Extent::BadSize)),
        Err(EvalFault::Limit) => Ok(None),
        Err(EvalFault::NoMemory) => Err(AllocError),
    }
}

// The place behind what was cut off, where its value is what is wanted.
#[tactic(auto, using(crate::proofs::Taking::number_wanted, crate::proofs::Taking::part_wanted, crate::proofs::Taking::long_wanted))]
fn wanted(
    caller: &Caller<'_>,
    target: &Target,
    off: CutOff<Window>,
    bindings: Bindings,
) -> Result<Place, AllocError>
    requires { HasShort off.value }
    ensures is { (bits : List Bool) (cut : Option d.CutOff) → IsCut itself IsShort bits cut (Some off) → IfOk result (λ place. place_of bits place ≡ d.wanted (setting caller.now.names.now caller.now.pid) (in_target (bounds bindings) (target_of target.now)) (bounds bindings) cut) }
    ensures inside { (bits : List Bool) → off.next ≤ length bits → IfOk result (IsPlace bits) }
{
    let next = off.next;
    match off.value {
        CutValue::Number(number) => met(caller, target, Term::Int(number), bindings, next),
        CutValue::Part(bits) => met(caller, target, Term::Bits(bits), bindings, next),
        CutValue::LongNumber => Ok(met_long(target, bindings, next)),
    }
}

// The place, where the value is what is wanted.
#[tactic(auto, using(crate::proofs::Taking::yes_place, crate::proofs::Taking::no_place, crate::proofs::Taking::limit_place))]
fn met(
    caller: &Caller<'_>,
    target: &Target,
    value: Term<Window>,
    bindings: Bindings,
    next: u32,
) -> Result<Place, AllocError>
    requires { IsOver IsShort AnyAtom value }
    ensures is { (bits : List Bool) → IfOk result (λ place. place_of bits place ≡ d.taken_where true (d.met (setting caller.now.names.now caller.now.pid) (in_target (bounds bindings) (target_of target.now)) (value_of itself value) (bounds bindings)) (drop next bits)) }
    ensures inside { (bits : List Bool) → next ≤ length bits → IfOk result (IsPlace bits) }
{
    match met_target(caller, target, &value, bindings)? {
        Matched::Yes(all) => Ok(Place::At(all, next)),
        Matched::No => Ok(Place::Nowhere),
        Matched::Limit => Ok(Place::Limit),
    }
}

// The bindings, where the value is what is wanted.
fn met_target(
    caller: &Caller<'_>,
    target: &Target,
    value: &Term<Window>,
    bindings: Bindings,
) -> Result<Matched, AllocError>
    requires { IsOver IsShort AnyAtom value.now }
    ensures { IfOk result (λ found. match_of found ≡ m.match_where (d.met (setting caller.now.names.now caller.now.pid) (in_target (bounds bindings) (target_of target.now)) (value_of itself value.now) (bounds bindings))) }
{
    match target {
        Target::Anything => Ok(Matched::Yes(bindings)),
        Target::Variable(variable) => met_variable(caller, *variable, value, bindings),
        Target::Equal(literal) => Ok(met_value(caller, literal, value, bindings)),
    }
}

// The place behind a number outside the bound, where that is what is wanted: no term equals it, and no variable is bound to it.
#[tactic(auto, using(crate::proofs::Longs::anything_long, crate::proofs::Longs::equal_long, crate::proofs::Longs::bound_long, crate::proofs::Longs::free_long))]
fn met_long(target: &Target, bindings: Bindings, next: u32) -> Place
    ensures is { (s : Setting) (n : ℤ) (bits : List Bool) → bounded n ≡ None → place_of bits result ≡ d.wanted s (in_target (bounds bindings) (target_of target.now)) (bounds bindings) (d.cut_off (VInt n) (drop next bits)) }
    ensures inside { (bits : List Bool) → next ≤ length bits → IsPlace bits result }
{
    match target {
        Target::Anything => Place::At(bindings, next),
        Target::Variable(variable) => match bindings.get(*variable) {
            Some(bound) => {
                read_number(bound);
                Place::Nowhere
            }
            None => Place::Limit,
        },
        Target::Equal(literal) => {
            read_number(literal.term());
            Place::Nowhere
        }
    }
}

/// What a bit generator finds in front of its bits, by its pattern and by its shape (Erlang Reference Manual, "Comprehensions").
#[tactic(auto, using(crate::proofs::Fronts::found_row, crate::proofs::Fronts::found_none, crate::proofs::Fronts::found_skips, crate::proofs::Fronts::found_limit))]
pub fn front(
    caller: &Caller<'_>,
    segments: &[Segment],
    shape: &[Segment],
    bindings: &Bindings,
    bits: &Window,
) -> Result<Front, AllocError>
    ensures { IfOk result (λ found. front_of found ≡ r.front (setting caller.now.names.now caller.now.pid) (segments_of segments.now) (segments_of shape.now) (bounds bindings.now) bits.now) }
{
    match all_taken(caller, segments, bindings.again()?, bits)? {
        Taken::Yes(all, rest) => {
            if rest.len() < bits.len() {
                Ok(Front::Found(all, rest))
            } else {
                Ok(Front::Ends)
            }
        }
        Taken::No => skipped(caller, shape, bindings, bits),
        Taken::Limit => Ok(Front::AtLimit),
    }
}

// What is found where the pattern fails: the bits behind those that its shape takes.
#[tactic(auto, using(crate::proofs::Fronts::skipped_row, crate::proofs::Fronts::skipped_none, crate::proofs::Fronts::skipped_ends, crate::proofs::Fronts::skipped_limit))]
fn skipped(
    caller: &Caller<'_>,
    shape: &[Segment],
    bindings: &Bindings,
    bits: &Window,
) -> Result<Front, AllocError>
    ensures { IfOk result (λ found. front_of found ≡ r.skips bits.now (m.all_taken (setting caller.now.names.now caller.now.pid) (segments_of shape.now) (bounds bindings.now) bits.now)) }
{
    match all_taken(caller, shape, bindings.again()?, bits)? {
        Taken::Yes(_, rest) => {
            if rest.len() < bits.len() {
                Ok(Front::Skipped(rest))
            } else {
                Ok(Front::Ends)
            }
        }
        Taken::No => Ok(Front::Ends),
        Taken::Limit => Ok(Front::AtLimit),
    }
}
