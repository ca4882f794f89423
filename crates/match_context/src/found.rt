//! What an operation finds.

ghost use Rattle.std.specs.Prelude.{◌≡◌, ◌≤◌, ℕ, List, Bool, length, drop, Some, None};
ghost use Rattle.term_value.specs.Decode as d;
ghost use Rattle.term_value.specs.Tree.{Bound};
ghost use Rattle.bits_build.specs.Extents.{IsExtent};
ghost use Rattle.term_value.specs.Extent.{extent};
ghost use Rattle.term_value.specs.Value.{VInt};
ghost use Rattle.pattern_compile.specs.Meaning.{typed_of, target_of, sizes_of, wants, size_form};
ghost use Rattle.pattern_compile.specs.Patterns.{TargetFits, SizeFits, given};
ghost use Rattle.match_context.specs.Contexts.{IsContext};
ghost use Rattle.match_context.specs.Envs.{Agrees, AreThere, known};
ghost use Rattle.match_context.specs.Places.{IsFound, IsFoundIn, IsFor, IsReached, HasExtent, HasGiven};

use crate::context::Context;
use crate::env::Env;
use crate::sized::Sized128;
use crate::wanted::wanted;
use bit_store::Store;
use bits_build::{Extent, reach};
use erl_syntax::Typed;
use pattern_compile::{Operation, SizeForm};
use segment_cut::cut;
use shares::Share;
use term_value::Term;

/// What an operation finds.
#[derive(Drop)]
pub(crate) enum Found<R> {
    /// The place behind what it takes.
    Passed(u32),
    /// The value to which it binds its variable, and the place behind.
    Bound { var: u32, value: Term<R>, next: u32 },
    Nowhere,
    Limit,
    NoMemory,
}

/// How many bits an operation takes.
#[derive(Clone, Copy, Drop)]
enum Reached {
    Bits(Extent),
    Limit,
    NoMemory,
}

/// What the operation finds from bit `at` on.
#[tactic(auto, using(crate::proofs::Reaching::typed_given))]
pub(crate) fn find<R: Share + Drop, S: Store<R>, E: Env<R, S>>(
    op: &Operation,
    store: &S,
    context: &Context<R>,
    at: u32,
    env: &E,
) -> Found<R>
    requires context { IsContext (S.shown store.now) (S.has store.now) context.now }
    requires inside { at ≤ length (S.shown store.now context.now.of) }
    requires there { AreThere (S.has store.now) (E.held env.now) }
    requires target { TargetFits (E.fixed env.now).variables (known (E.held env.now)) (wants op.now) }
    requires size { SizeFits (E.fixed env.now).sizes (given (size_form op.now)) }
    ensures is { (bs : List Bound) → Agrees (S.shown store.now) (E.held env.now) bs
        → IsFound (S.shown store.now) bs (S.shown store.now context.now.of)
        (d.taken (E.fixed env.now).setting (typed_of op.now) (target_of (wants op.now)) (sizes_of (E.fixed env.now).trees (size_form op.now)) bs (drop at (S.shown store.now context.now.of))) result }
    ensures inside { IsFoundIn (S.has store.now) (S.shown store.now context.now.of) result }
    ensures of { IsFor (wants op.now) result }
{
    let typed = op.typed();
    match length_of(typed, op.size(), store, env) {
        Reached::Bits(extent) => match cut(store, typed, extent, &context.of, at) {
            Ok(Some(off)) => wanted(op.target(), off, store, env),
            Ok(None) => Found::Nowhere,
            Err(_) => Found::NoMemory,
        },
        Reached::Limit => Found::Limit,
        Reached::NoMemory => Found::NoMemory,
    }
}

// How many bits a segment of this type and this size takes.
fn length_of<R, S: Store<R>, E: Env<R, S>>(
    typed: Typed,
    size: Option<SizeForm>,
    store: &S,
    env: &E,
) -> Reached
    requires there { AreThere (S.has store.now) (E.held env.now) }
    requires size { SizeFits (E.fixed env.now).sizes (given size) }
    requires given { HasGiven size typed.size }
    ensures is { (bs : List Bound) → Agrees (S.shown store.now) (E.held env.now) bs → IsReached (d.reach (E.fixed env.now).setting typed bs (sizes_of (E.fixed env.now).trees size)) result }
    ensures some { HasExtent result }
{
    match size {
        None => Reached::Bits(extent_without(typed)),
        Some(form) => length_by(typed, form, store, env),
    }
}

// How many bits a segment of this type takes by the form of its size.
fn length_by<R, S: Store<R>, E: Env<R, S>>(
    typed: Typed,
    form: SizeForm,
    store: &S,
    env: &E,
) -> Reached
    requires there { AreThere (S.has store.now) (E.held env.now) }
    requires size { SizeFits (E.fixed env.now).sizes (given (Some form)) }
    requires given { HasGiven (Some form) typed.size }
    ensures is { (bs : List Bound) → Agrees (S.shown store.now) (E.held env.now) bs → IsReached (d.reach (E.fixed env.now).setting typed bs (sizes_of (E.fixed env.now).trees (Some form))) result }
    ensures some { HasExtent result }
{
    match form {
        SizeForm::Fixed(count) => Reached::Bits(extent_with(typed, i128::from(count))),
        SizeForm::Given(expr) => match env.size(store, expr) {
            Sized128::Size(count) => Reached::Bits(extent_with(typed, count)),
            Sized128::Bad => Reached::Bits(Extent::BadSize),
            Sized128::Limit => Reached::Limit,
            Sized128::NoMemory => Reached::NoMemory,
        },
    }
}

// How many bits a segment of this type has where no size is written.
fn extent_without(typed: Typed) -> Extent
    ensures { IsExtent (extent typed.size typed.unit None) result }
{
    reach::<u8>(&typed, None)
}

// How many bits a segment of this type has by this size.
fn extent_with(typed: Typed, count: i128) -> Extent
    ensures { IsExtent (extent typed.size typed.unit (Some (VInt count))) result }
{
    reach::<u8>(&typed, Some(&Term::Int(count)))
}
