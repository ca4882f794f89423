//! What the values of all parts alone determine.

ghost use Rattle.std.specs.Prelude.{◌≡◌, ◌∷◌, ◌++◌, [], List, All, Option, option_map, IfOk, IfErr, IfSome, Err, Some, None, MatchOption};
ghost use Rattle.term_value.specs.BuiltIns.{native};
ghost use Rattle.term_value.specs.Encode.{Filled, filled_by, filled_with, built as built_of};
ghost use Rattle.term_value.specs.Made.{given};
ghost use Rattle.term_value.specs.Bounds.{within};
ghost use Rattle.term_value.specs.Setting.{Setting};
ghost use Rattle.term_value.specs.Primitives.{prim, bounded_result, listed_on, built_where};
ghost use Rattle.term_value.specs.Seen.{meanings, then, AreKnown};
ghost use Rattle.term_value.specs.Terms.{row, row_of, seen, value_of, IsOver};
ghost use Rattle.term_value.specs.Tree as t;
ghost use Rattle.term_value.specs.Value.{Values, VList, more};
ghost use Rattle.bit_store.specs.Stores.{itself};
ghost use Rattle.bits_build.specs.Parts.{HasPart, part_filled, parts_filled};
ghost use Rattle.code_tree.specs.PlainTerms.{IsShort, AnyAtom};
ghost use Rattle.code_tree.specs.Reading.{prim_of};
ghost use Rattle.expr_eval.specs.Answers.{IsEvaluated, HasAnswer, setting};
ghost use Rattle.code_match.specs.Rows.{onto};

use bit_store::{PlainStore, StoreLook, Window};
use bits_build::{BuildFault, Part, build};
use bits_value::Steps;
use code_tree::Primitive;
use erl_syntax::{BuiltIn, Op, Prefix, SizeUse, Typed};
use expr_eval::{Answer, Caller, EvalFault, Reason, binary_op, built_in, prefix_op};
use shares::Share;
use std::alloc::{AllocError, Global};
use term_value::{Cells, Term, cons, is_bounded, list_of, tuple_of};

/// What a primitive gives for the values of its parts (Erlang Reference Manual, "Expressions").
pub fn primitive(
    caller: &Caller<'_>,
    primitive: &Primitive,
    values: Vec<Term<Window>>,
) -> Answer<Window>
    requires { AreKnown IsShort AnyAtom (row values.items) }
    ensures is { IsEvaluated itself result (prim (setting caller.now.names.now caller.now.pid) (prim_of primitive.now) (meanings itself (row values.items))) }
    ensures over { HasAnswer IsShort result }
{
    match primitive {
        Primitive::Tuple => tuple(caller.alloc, values),
        Primitive::List => list(caller.alloc, values),
        Primitive::ListOn => list_on(caller.alloc, values),
        Primitive::Build(types) => bitstring(caller.alloc, types.items(), &values),
        Primitive::Operator(op) => binary(caller, *op, &values),
        Primitive::Prefix(op) => prefix(*op, &values),
        Primitive::BuiltIn(which) => native_call(caller, *which, &values),
    }
}

fn tuple(alloc: Global, values: Vec<Term<Window>>) -> Answer<Window>
    requires { AreKnown IsShort AnyAtom (row values.items) }
    ensures is { (s : Setting) → IsEvaluated itself result (prim s t.MakeTuple (meanings itself (row values.items))) }
    ensures over { HasAnswer IsShort result }
{
    match tuple_of(alloc, values) {
        Ok(made) => bounded_term(made),
        Err(_) => Err(EvalFault::NoMemory),
    }
}

fn list(alloc: Global, values: Vec<Term<Window>>) -> Answer<Window>
    requires { AreKnown IsShort AnyAtom (row values.items) }
    ensures is { (s : Setting) → IsEvaluated itself result (prim s t.MakeList (meanings itself (row values.items))) }
    ensures over { HasAnswer IsShort result }
{
    match list_of(alloc, values) {
        Ok(made) => bounded_term(made),
        Err(_) => Err(EvalFault::NoMemory),
    }
}

// The term, or the limit.
fn bounded_term(made: Option<Term<Window>>) -> Answer<Window>
    requires { IfSome made (IsOver IsShort AnyAtom) }
    ensures is { IsEvaluated itself result (given itself made) }
    ensures over { HasAnswer IsShort result }
{
    match made {
        Some(term) => Ok(term),
        None => Err(EvalFault::Limit),
    }
}

// The items before the tail, which comes last.
fn list_on(alloc: Global, values: Vec<Term<Window>>) -> Answer<Window>
    requires { AreKnown IsShort AnyAtom (row values.items) }
    ensures is { IsEvaluated itself result (bounded_result (listed_on (meanings itself (row values.items)))) }
    ensures over { HasAnswer IsShort result }
{
    let mut items = values;
    match items.pop() {
        Some(tail) => list_with(alloc, items, tail),
        None => Err(EvalFault::Raised(Reason::BadArg)),
    }
}

// The list of these items before a tail, which has to be a list.
fn list_with(alloc: Global, items: Vec<Term<Window>>, tail: Term<Window>) -> Answer<Window>
    requires items { AreKnown IsShort AnyAtom (row items.items) }
    requires tail { IsOver IsShort AnyAtom tail }
    ensures is { IsEvaluated itself result (bounded_result (listed_on (meanings itself (row (items.items ++ tail ∷ []))))) }
    ensures over { HasAnswer IsShort result }
{
    match tail {
        Term::List(tail) => list_before(alloc, items, tail),
        _ => Err(EvalFault::Raised(Reason::BadArg)),
    }
}

// The list of these items and then those of the tail.
#[tactic(auto, using(crate::proofs::Prepended::onto_last))]
fn list_before(alloc: Global, items: Vec<Term<Window>>, tail: Cells<Window>) -> Answer<Window>
    requires items { AreKnown IsShort AnyAtom (row items.items) }
    requires tail { AreKnown IsShort AnyAtom (row_of tail) }
    ensures is { IsEvaluated itself result (within (VList (meanings itself (onto items.items (row_of tail))))) }
    ensures over { HasAnswer IsShort result }
{
    let mut left = items;
    let mut list = tail;
    while let Some(item) = left.pop() {
        match longer(alloc, item, list) {
            Ok(made) => list = made,
            Err(fault) => return Err(fault),
        }
    }
    let made = Term::List(list);
    if is_bounded(&made) {
        Ok(made)
    } else {
        Err(EvalFault::Limit)
    }
}

// The list with this item in front.
fn longer(
    alloc: Global,
    item: Term<Window>,
    rest: Cells<Window>,
) -> Result<Cells<Window>, EvalFault<Window>>
    ensures is { IfOk result (λ list. row_of list ≡ then (seen item) (row_of rest)) }
    ensures refused { IfErr result (λ fault. IsEvaluated itself (Err fault) (within (VList (more (value_of itself item) (meanings itself (row_of rest)))))) }
    ensures reason { IfErr result (λ fault. HasAnswer IsShort (Err fault)) }
{
    match cons(alloc, item, rest) {
        Ok(Some(Term::List(list))) => Ok(list),
        Ok(_) => Err(EvalFault::Limit),
        Err(_) => Err(EvalFault::NoMemory),
    }
}

fn binary(caller: &Caller<'_>, op: Op, values: &[Term<Window>]) -> Answer<Window>
    requires { AreKnown IsShort AnyAtom (row values.now) }
    ensures is { IsEvaluated itself result (prim (setting caller.now.names.now caller.now.pid) (t.Operate op) (meanings itself (row values.now))) }
    ensures over { HasAnswer IsShort result }
{
    match values {
        [left, right] => {
            let store = PlainStore::new(caller.alloc);
            let look = StoreLook {
                store: &store,
                names: caller.names,
            };
            binary_op(&look, op, left, right)
        }
        _ => Err(EvalFault::Raised(Reason::BadArg)),
    }
}

fn prefix(op: Prefix, values: &[Term<Window>]) -> Answer<Window>
    ensures is { (s : Setting) → IsEvaluated itself result (prim s (t.Prefixed op) (meanings itself (row values.now))) }
    ensures over { HasAnswer IsShort result }
{
    match values {
        [value] => prefix_op(op, value),
        _ => Err(EvalFault::Raised(Reason::BadArg)),
    }
}

fn native_call(caller: &Caller<'_>, which: BuiltIn, values: &[Term<Window>]) -> Answer<Window>
    requires { AreKnown IsShort AnyAtom (row values.now) }
    ensures is { IsEvaluated itself result (bounded_result (native (setting caller.now.names.now caller.now.pid) which (meanings itself (row values.now)))) }
    ensures over { HasAnswer IsShort result }
{
    let mut store = PlainStore::new(caller.alloc);
    built_in(caller, &mut store, which, values, &mut Steps::new())
}

// The bitstring of segments of these types.
fn bitstring(alloc: Global, types: &[Typed], values: &[Term<Window>]) -> Answer<Window>
    requires { AreKnown IsShort AnyAtom (row values.now) }
    ensures is { IsEvaluated itself result (bounded_result (built_where (filled_with types.now (meanings itself (row values.now))))) }
    ensures over { HasAnswer IsShort result }
{
    match parts_of(alloc, types, values) {
        Ok(Some(parts)) => built(alloc, &parts),
        Ok(None) => Err(EvalFault::Raised(Reason::BadArg)),
        Err(_) => Err(EvalFault::NoMemory),
    }
}

fn built(alloc: Global, parts: &[Part<Window>]) -> Answer<Window>
    requires { All (HasPart IsShort) parts.now }
    ensures is { IsEvaluated itself result (bounded_result (built_of (parts_filled itself parts.now))) }
    ensures over { HasAnswer IsShort result }
{
    let mut store = PlainStore::new(alloc);
    match build(alloc, &mut store, parts, &mut Steps::new()) {
        Ok(bits) => Ok(Term::Bits(bits)),
        Err(BuildFault::BadArg) => Err(EvalFault::Raised(Reason::BadArg)),
        Err(BuildFault::Limit) => Err(EvalFault::Limit),
        Err(BuildFault::NoMemory) => Err(EvalFault::NoMemory),
    }
}

// The segments with the values of their parts; None where these are not as many.
fn parts_of(
    alloc: Global,
    types: &[Typed],
    values: &[Term<Window>],
) -> Result<Option<Vec<Part<Window>>>, AllocError>
    requires { AreKnown IsShort AnyAtom (row values.now) }
    ensures is { IfOk result (λ found. MatchOption found (filled_with types.now (meanings itself (row values.now)) ≡ None) (λ parts. filled_with types.now (meanings itself (row values.now)) ≡ Some (parts_filled itself parts.items))) }
    ensures over { IfOk result (λ found. IfSome found (λ parts. All (HasPart IsShort) parts.items)) }
{
    let mut parts = Vec::new(alloc);
    let mut left = values;
    let mut waiting = types;
    while let Some((typed, later)) = waiting.split_first() {
        let Some((value, rest)) = left.split_first() else {
            return Ok(None);
        };
        match part_of(*typed, value, rest)? {
            Some((part, rest)) => {
                parts.push(part)?;
                left = rest;
                waiting = later;
            }
            None => return Ok(None),
        }
    }
    match left.split_first() {
        None => Ok(Some(parts)),
        Some(_) => Ok(None),
    }
}

// A segment of this value, with a size where one is written, and the values behind it.
fn part_of<'a>(
    typed: Typed,
    value: &Term<Window>,
    rest: &'a [Term<Window>],
) -> Result<Option<(Part<Window>, &'a [Term<Window>])>, AllocError>
    requires value { IsOver IsShort AnyAtom value.now }
    requires rest { AreKnown IsShort AnyAtom (row rest.now) }
    ensures is { (later : Values → Option (List Filled)) → IfOk result (λ found. MatchOption found
        (filled_by typed.size typed (value_of itself value.now) (meanings itself (row rest.now)) later ≡ None)
        (λ made. filled_by typed.size typed (value_of itself value.now) (meanings itself (row rest.now)) later ≡ option_map (λ fs. part_filled itself made.0 ∷ fs) (later (meanings itself (row made.1.now))))) }
    ensures part { IfOk result (λ found. IfSome found (λ made. HasPart IsShort made.0)) }
    ensures rest { IfOk result (λ found. IfSome found (λ made. AreKnown IsShort AnyAtom (row made.1.now))) }
{
    match typed.size {
        SizeUse::Given => match rest.split_first() {
            Some((size, rest)) => {
                let part = Part {
                    typed,
                    value: value.share()?,
                    size: Some(size.share()?),
                };
                Ok(Some((part, rest)))
            }
            None => Ok(None),
        },
        _ => {
            let part = Part {
                typed,
                value: value.share()?,
                size: None,
            };
            Ok(Some((part, rest)))
        }
    }
}
