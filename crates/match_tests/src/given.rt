//! What rows are made of, and how a row is tried.

ghost use Rattle.std.specs.Prelude.{◌≡◌, ◌≤◌, IfSome, length};
ghost use Rattle.bits_value.specs.declared.TheConstants.{MAX_BITS};
ghost use Rattle.bit_store.specs.Stores.{AnyAtom};
ghost use Rattle.term_value.specs.Terms.{IsOver};
ghost use Rattle.match_context.specs.Envs.{AreThere};
ghost use Rattle.match_tests.specs.Held.{held_in};

use crate::fitting::{are_typed, fits};
use crate::slots::{SizeRule, Slots};
use bit_store::{Piece, PlainStore, Store, Window};
use bits_value::{Bits, Steps, order};
use erl_syntax::Text;
use match_context::{Context, Env, Matched, run};
use pattern_compile::{MatchProgram, PatSegment, compile};
use std::alloc::Global;
use std::cmp::Ordering;
use term_value::Term;

/// A value.
#[derive(Clone, Copy)]
pub(crate) enum Given {
    Number(i128),
    /// By its place in `FIXED_ATOMS`.
    Atom(u32),
    /// So many of the bytes' bits.
    Bits(&'static [u8], u32),
}

/// A variable and its value.
pub(crate) type Binding = (u32, Given);

/// What comes of a row: with Yes, all bindings that there are then.
#[derive(Clone, Copy)]
pub(crate) enum Expected {
    Yes(&'static [Binding]),
    No,
    Limit,
}

/// What a pattern, which is to take all bits, is tried on.
#[derive(Clone, Copy)]
pub(crate) struct Case {
    pub(crate) sizes: &'static [SizeRule],
    /// The variables that are bound before.
    pub(crate) before: &'static [Binding],
    /// So many of the bytes' bits.
    pub(crate) bits: (&'static [u8], u32),
    pub(crate) expected: Expected,
}

/// How many variables there are.
const VARIABLES: u32 = 4;

/// So many of the bytes' bits.
pub(crate) fn window(
    alloc: Global,
    store: &mut PlainStore,
    bytes: &[u8],
    len: u32,
) -> Option<Window>
    ensures { IfSome result (λ of. length of ≤ MAX_BITS) }
{
    let Ok(copy) = bytes.to_vec(alloc) else {
        return None;
    };
    let pieces = [Piece::Bytes(Text::of(copy))];
    let Ok(whole) = store.fresh(&pieces, &mut Steps::new()) else {
        return None;
    };
    if len > whole.len() {
        return None;
    }
    match store.part(&whole, 0, len) {
        Ok(part) => Some(part),
        Err(_) => None,
    }
}

fn term(alloc: Global, store: &mut PlainStore, given: Given) -> Option<Term<Window>>
    ensures { IfSome result (λ term. IsOver (λ of. length of ≤ MAX_BITS) AnyAtom term) }
{
    match given {
        Given::Number(number) => Some(Term::Int(number)),
        Given::Atom(atom) => Some(Term::Atom(atom)),
        Given::Bits(bytes, len) => {
            let of = window(alloc, store, bytes, len)?;
            Some(Term::Bits(of))
        }
    }
}

/// Slots with these size expressions, in which these variables are bound.
#[tactic(auto, using(crate::proofs::Writing::none_there))]
pub(crate) fn filled(
    alloc: Global,
    store: &mut PlainStore,
    sizes: &[SizeRule],
    before: &[Binding],
) -> Option<Slots<Window>>
    ensures { IfSome result (λ slots. AreThere (λ of. length of ≤ MAX_BITS) (held_in slots.values.items)) }
{
    let Ok(mut slots) = Slots::new(alloc, VARIABLES, sizes) else {
        return None;
    };
    for binding in before {
        let value = term(alloc, store, binding.1)?;
        if !give(&mut slots, binding.0, value) {
            return None;
        }
    }
    Some(slots)
}

// Whether the variable could be bound.
fn give(slots: &mut Slots<Window>, var: u32, value: Term<Window>) -> bool
    requires there { AreThere (λ of. length of ≤ MAX_BITS) (held_in slots.old.values.items) }
    requires known { IsOver (λ of. length of ≤ MAX_BITS) AnyAtom value }
    ensures { AreThere (λ of. length of ≤ MAX_BITS) (held_in slots.new.values.items) }
{
    if var as usize >= slots.values.len() {
        return false;
    }
    if <Slots<Window> as Env<Window, PlainStore>>::value(slots, var).is_some() {
        return false;
    }
    <Slots<Window> as Env<Window, PlainStore>>::bind(slots, var, value);
    true
}

/// Whether exactly these variables are bound, to these values.
pub(crate) fn are_bound(slots: &Slots<Window>, wanted: &[Binding]) -> bool {
    for var in 0..VARIABLES {
        if !is_bound(slots, var, wanted) {
            return false;
        }
    }
    true
}

fn is_bound(slots: &Slots<Window>, var: u32, wanted: &[Binding]) -> bool {
    if var as usize >= slots.values.len() {
        return false;
    }
    match <Slots<Window> as Env<Window, PlainStore>>::value(slots, var) {
        Some(term) => wanted
            .iter()
            .any(|binding| binding.0 == var && is_value(term, binding.1)),
        None => wanted.iter().all(|binding| binding.0 != var),
    }
}

fn is_value(term: &Term<Window>, given: Given) -> bool {
    match (term, given) {
        (Term::Int(number), Given::Number(wanted)) => *number == wanted,
        (Term::Atom(atom), Given::Atom(wanted)) => *atom == wanted,
        (Term::Bits(part), Given::Bits(bytes, len)) => has_bits(part, bytes, len),
        _ => false,
    }
}

fn has_bits(part: &Window, bytes: &[u8], len: u32) -> bool {
    bytes.len() < 1000
        && len as usize <= 8 * bytes.len()
        && order(part.bits(), Bits::of(bytes, 0, len)) == Ordering::Equal
}

/// The program of a pattern, behind which bits may remain or not.
pub(crate) fn program(alloc: Global, pattern: &[PatSegment], whole: bool) -> Option<MatchProgram>
    ensures { IfSome result (λ program. program.whole ≡ whole) }
{
    if !are_typed(pattern) {
        return None;
    }
    match compile(alloc, pattern, whole) {
        Ok(program) => Some(program),
        Err(_) => None,
    }
}

/// Whether what is expected comes of the pattern; where it doesn't match, the variables are as before.
pub(crate) fn does(alloc: Global, pattern: &[PatSegment], case: &Case) -> bool {
    let mut store = PlainStore::new(alloc);
    let Some(mut slots) = filled(alloc, &mut store, case.sizes, case.before) else {
        return false;
    };
    let Some(of) = window(alloc, &mut store, case.bits.0, case.bits.1) else {
        return false;
    };
    let Some(program) = program(alloc, pattern, true) else {
        return false;
    };
    if !fits(alloc, &slots, program.ops.items()) {
        return false;
    }
    let mut context = Context::on(&mut store, of);
    let matched = run(&program, &store, &mut context, &mut slots);
    match case.expected {
        Expected::Yes(wanted) => matched == Matched::Yes && are_bound(&slots, wanted),
        Expected::No => matched == Matched::No && are_bound(&slots, case.before),
        Expected::Limit => matched == Matched::Limit && are_bound(&slots, case.before),
    }
}
