//! Bit expressions.

ghost use Rattle.std.specs.Prelude.{◌≡◌, ◌∷◌, List, All, Option, option_map, IfOk, IfSome, OnErr, Some, None, MatchOption};
ghost use Rattle.bit_store.specs.Stores.{AnyAtom, Keeps, RoseBy};
ghost use Rattle.bits_build.specs.Parts.{HasPart, part_filled, parts_filled};
ghost use Rattle.term_value.specs.Encode.{Filled, filled_by, filled_with, built as built_of};
ghost use Rattle.term_value.specs.Primitives.{bounded_result, built_where};
ghost use Rattle.term_value.specs.Seen.{meanings, AreKnown};
ghost use Rattle.term_value.specs.Terms.{row, value_of, IsOver};
ghost use Rattle.term_value.specs.Value.{Values};
ghost use Rattle.expr_eval.specs.Answers.{IsEvaluated, HasAnswer, bit_count};

use crate::storage::Storage;
use bit_store::Store;
use bits_build::{BuildFault, Part, build};
use erl_syntax::{SizeUse, Typed};
use expr_eval::{Answer, EvalFault, Reason};
use shares::Share;
use std::alloc::{AllocError, Global};
use term_value::Term;

/// The bitstring of segments of these types, whose values are each before its size where one is written.
pub(crate) fn bitstring<R: Share + Drop, S: Store<R>>(
    alloc: Global,
    storage: &mut Storage<S>,
    types: &[Typed],
    values: &[Term<R>],
) -> Answer<R>
    requires { AreKnown (S.has storage.old.store) AnyAtom (row values.now) }
    ensures keeps { Keeps S.shown S.has storage.old.store storage.new.store }
    ensures is { IsEvaluated (S.shown storage.new.store) result (bounded_result (built_where (filled_with types.now (meanings (S.shown storage.old.store) (row values.now))))) }
    ensures known { HasAnswer (S.has storage.new.store) result }
    ensures moved { IfOk result (λ term. RoseBy (bit_count (S.shown storage.new.store) term) storage.old.steps.moved storage.new.steps.moved) }
    ensures unmoved { OnErr result (storage.new.steps ≡ storage.old.steps) }
{
    match parts_of(alloc, &storage.store, types, values) {
        Ok(Some(parts)) => built(alloc, storage, &parts),
        Ok(None) => Err(EvalFault::Raised(Reason::BadArg)),
        Err(_) => Err(EvalFault::NoMemory),
    }
}

fn built<R: Share + Drop, S: Store<R>>(
    alloc: Global,
    storage: &mut Storage<S>,
    parts: &[Part<R>],
) -> Answer<R>
    requires { All (HasPart (S.has storage.old.store)) parts.now }
    ensures keeps { Keeps S.shown S.has storage.old.store storage.new.store }
    ensures is { IsEvaluated (S.shown storage.new.store) result (bounded_result (built_of (parts_filled (S.shown storage.old.store) parts.now))) }
    ensures known { HasAnswer (S.has storage.new.store) result }
    ensures moved { IfOk result (λ term. RoseBy (bit_count (S.shown storage.new.store) term) storage.old.steps.moved storage.new.steps.moved) }
    ensures unmoved { OnErr result (storage.new.steps ≡ storage.old.steps) }
{
    match build(alloc, &mut storage.store, parts, &mut storage.steps) {
        Ok(bits) => Ok(Term::Bits(bits)),
        Err(BuildFault::BadArg) => Err(EvalFault::Raised(Reason::BadArg)),
        Err(BuildFault::Limit) => Err(EvalFault::Limit),
        Err(BuildFault::NoMemory) => Err(EvalFault::NoMemory),
    }
}

// The segments with the values of their parts; None where these are not as many.
fn parts_of<R: Share + Drop, S: Store<R>>(
    alloc: Global,
    store: &S,
    types: &[Typed],
    values: &[Term<R>],
) -> Result<Option<Vec<Part<R>>>, AllocError>
    requires { AreKnown (S.has store.now) AnyAtom (row values.now) }
    ensures is { IfOk result (λ found. MatchOption found (filled_with types.now (meanings (S.shown store.now) (row values.now)) ≡ None) (λ parts. filled_with types.now (meanings (S.shown store.now) (row values.now)) ≡ Some (parts_filled (S.shown store.now) parts.items))) }
    ensures known { IfOk result (λ found. IfSome found (λ parts. All (HasPart (S.has store.now)) parts.items)) }
{
    let mut parts = Vec::new(alloc);
    let mut left = values;
    let mut waiting = types;
    while let Some((typed, later)) = waiting.split_first() {
        let Some((value, rest)) = left.split_first() else {
            return Ok(None);
        };
        match part_of(store, *typed, value, rest)? {
            Some((part, rest)) => {
                parts.push(part)?;
                left = rest;
                waiting = later;
            }
            None => return Ok(None),
        }
    }
    match left.split_first() {
        None => Ok(Some(parts)),
        Some(_) => Ok(None),
    }
}

// A segment of this value, with a size where one is written, and the values behind it.
fn part_of<'a, R: Share + Drop, S: Store<R>>(
    store: &S,
    typed: Typed,
    value: &Term<R>,
    rest: &'a [Term<R>],
) -> Result<Option<(Part<R>, &'a [Term<R>])>, AllocError>
    requires value { IsOver (S.has store.now) AnyAtom value.now }
    requires rest { AreKnown (S.has store.now) AnyAtom (row rest.now) }
    ensures is { (later : Values → Option (List Filled)) → IfOk result (λ found. MatchOption found
        (filled_by typed.size typed (value_of (S.shown store.now) value.now) (meanings (S.shown store.now) (row rest.now)) later ≡ None)
        (λ made. filled_by typed.size typed (value_of (S.shown store.now) value.now) (meanings (S.shown store.now) (row rest.now)) later ≡ option_map (λ fs. part_filled (S.shown store.now) made.0 ∷ fs) (later (meanings (S.shown store.now) (row made.1.now))))) }
    ensures part { IfOk result (λ found. IfSome found (λ made. HasPart (S.has store.now) made.0)) }
    ensures rest { IfOk result (λ found. IfSome found (λ made. AreKnown (S.has store.now) AnyAtom (row made.1.now))) }
{
    match typed.size {
        SizeUse::Given => match rest.split_first() {
            Some((size, rest)) => {
                let part = Part {
                    typed,
                    value: value.share()?,
                    size: Some(size.share()?),
                };
                Ok(Some((part, rest)))
            }
            None => Ok(None),
        },
        _ => {
            let part = Part {
                typed,
                value: value.share()?,
                size: None,
            };
            Ok(Some((part, rest)))
        }
    }
}
