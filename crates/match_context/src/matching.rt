//! Runs of programs.

ghost use Rattle.std.specs.Prelude.{◌≡◌, ◌≤◌, ℕ, List, Bool, true, false, All, map, cond, None, length, drop};
ghost use Rattle.term_value.specs.Decode as d;
ghost use Rattle.term_value.specs.Match.{all_taken};
ghost use Rattle.term_value.specs.Tree.{Bound};
ghost use Rattle.pattern_compile.specs.Meaning.{means, typed_of, target_of, sizes_of, wants, size_form};
ghost use Rattle.pattern_compile.specs.Patterns.{TargetsFit, TargetFits, SizeFits, TargetInRange, given, one_binds, binds, also};
ghost use Rattle.match_context.specs.Contexts.{left, IsContext};
ghost use Rattle.match_context.specs.Envs.{Agrees, AreThere, known};
ghost use Rattle.match_context.specs.Places.{IsPlace, IsIn, BindsAlso};
ghost use Rattle.match_context.specs.Runs.{IsMatch, StaysIfNot, closed};

use crate::context::Context;
use crate::env::Env;
use crate::found::{Found, find};
use bit_store::Store;
use pattern_compile::{MatchProgram, Operation, Target};
use shares::Share;

/// What comes of a run.
#[derive(Clone, Copy, Debug, PartialEq, Eq, Drop)]
pub enum Matched {
    Yes,
    No,
    /// A bound is passed.
    Limit,
    /// No memory was left.
    NoMemory,
}

// The place behind operations.
#[derive(Clone, Copy, Drop)]
enum Place {
    At(u32),
    Nowhere,
    Limit,
    NoMemory,
}

/// Matches what the context has left by a program (Erlang Reference Manual, "Bit Syntax Expressions").
///
/// After Yes the variables of the program are bound, and the context stands behind the bits that it takes. After any other answer the
/// context and the environment are as before. Moves no bit; memory may want only where the store's `part` or the environment's `size`
/// wants it.
pub fn run<R: Share + Drop, S: Store<R>, E: Env<R, S>>(
    program: &MatchProgram,
    store: &S,
    context: &mut Context<R>,
    env: &mut E,
) -> Matched
    requires context { IsContext (S.shown store.now) (S.has store.now) context.old }
    requires there { AreThere (S.has store.now) (E.held env.old) }
    requires targets { TargetsFit (E.fixed env.old).variables (known (E.held env.old)) (map wants program.now.ops) }
    requires sizes { All (λ op. SizeFits (E.fixed env.old).sizes (given (size_form op))) program.now.ops }
    ensures is { (bs : List Bound) → Agrees (S.shown store.now) (E.held env.old) bs
        → IsMatch (S.shown store.now) (E.held env.new) (left (S.shown store.now) context.new)
        (closed program.now.whole (all_taken (E.fixed env.old).setting (means (E.fixed env.old).trees program.now.ops) bs (left (S.shown store.now) context.old))) result }
    ensures refused { StaysIfNot result context.old context.new (E.held env.old) (E.held env.new) }
    ensures others { (x : ℕ) → one_binds (map wants program.now.ops) x ≡ false → E.held env.new x ≡ E.held env.old x }
    ensures valid { IsContext (S.shown store.now) (S.has store.now) context.new }
    ensures of { context.new.of ≡ context.old.of }
    ensures there { AreThere (S.has store.now) (E.held env.new) }
    ensures kept { E.fixed env.new ≡ E.fixed env.old }
{
    match place_behind(program.ops.items(), store, context, env) {
        Place::At(at) => {
            if at == context.end || !program.whole {
                context.at = at;
                return Matched::Yes;
            }
            release(program, env);
            Matched::No
        }
        Place::Nowhere => {
            release(program, env);
            Matched::No
        }
        Place::Limit => {
            release(program, env);
            Matched::Limit
        }
        Place::NoMemory => {
            release(program, env);
            Matched::NoMemory
        }
    }
}

/// Takes the values of the program's variables away.
pub fn release<R, S: Store<R>, E: Env<R, S>>(program: &MatchProgram, env: &mut E)
    requires { All (λ op. TargetInRange (E.fixed env.old).variables (wants op)) program.now.ops }
    ensures unbound { (x : ℕ) → E.held env.new x ≡ cond (one_binds (map wants program.now.ops) x) None (E.held env.old x) }
    ensures kept { E.fixed env.new ≡ E.fixed env.old }
{
    unbind_all(program.ops.items(), env);
}

// Takes the values of the operations' variables away.
fn unbind_all<R, S: Store<R>, E: Env<R, S>>(ops: &[Operation], env: &mut E)
    requires { All (λ op. TargetInRange (E.fixed env.old).variables (wants op)) ops.now }
    ensures unbound { (x : ℕ) → E.held env.new x ≡ cond (one_binds (map wants ops.now) x) None (E.held env.old x) }
    ensures kept { E.fixed env.new ≡ E.fixed env.old }
{
    for op in ops {
        unbind(op.target(), env);
    }
}

// Takes the value of the target's variable away.
fn unbind<R, S: Store<R>, E: Env<R, S>>(target: Target, env: &mut E)
    requires { TargetInRange (E.fixed env.old).variables target }
    ensures unbound { (x : ℕ) → E.held env.new x ≡ cond (binds target x) None (E.held env.old x) }
    ensures kept { E.fixed env.new ≡ E.fixed env.old }
{
    match target {
        Target::Bind(var) => env.unbind(var),
        Target::Same(_) => {}
        Target::Any => {}
    }
}

// The place behind the operations, from the context's on.
fn place_behind<R: Share + Drop, S: Store<R>, E: Env<R, S>>(
    ops: &[Operation],
    store: &S,
    context: &Context<R>,
    env: &mut E,
) -> Place
    requires context { IsContext (S.shown store.now) (S.has store.now) context.now }
    requires there { AreThere (S.has store.now) (E.held env.old) }
    requires targets { TargetsFit (E.fixed env.old).variables (known (E.held env.old)) (map wants ops.now) }
    requires sizes { All (λ op. SizeFits (E.fixed env.old).sizes (given (size_form op))) ops.now }
    ensures is { (bs : List Bound) → Agrees (S.shown store.now) (E.held env.old) bs
        → IsPlace (S.shown store.now) (E.held env.new) (S.shown store.now context.now.of)
        (all_taken (E.fixed env.old).setting (means (E.fixed env.old).trees ops.now) bs (left (S.shown store.now) context.now)) result }
    ensures inside { IsIn (S.shown store.now context.now.of) result }
    ensures others { (x : ℕ) → one_binds (map wants ops.now) x ≡ false → E.held env.new x ≡ E.held env.old x }
    ensures there { AreThere (S.has store.now) (E.held env.new) }
    ensures kept { E.fixed env.new ≡ E.fixed env.old }
{
    let mut at = context.at;
    for op in ops {
        match place_after(op, store, context, at, env) {
            Place::At(next) => at = next,
            Place::Nowhere => return Place::Nowhere,
            Place::Limit => return Place::Limit,
            Place::NoMemory => return Place::NoMemory,
        }
    }
    Place::At(at)
}

// The place behind one operation, from bit `at` on.
fn place_after<R: Share + Drop, S: Store<R>, E: Env<R, S>>(
    op: &Operation,
    store: &S,
    context: &Context<R>,
    at: u32,
    env: &mut E,
) -> Place
    requires context { IsContext (S.shown store.now) (S.has store.now) context.now }
    requires inside { at ≤ length (S.shown store.now context.now.of) }
    requires there { AreThere (S.has store.now) (E.held env.old) }
    requires target { TargetFits (E.fixed env.old).variables (known (E.held env.old)) (wants op.now) }
    requires size { SizeFits (E.fixed env.old).sizes (given (size_form op.now)) }
    ensures is { (bs : List Bound) → Agrees (S.shown store.now) (E.held env.old) bs
        → IsPlace (S.shown store.now) (E.held env.new) (S.shown store.now context.now.of)
        (d.taken (E.fixed env.old).setting (typed_of op.now) (target_of (wants op.now)) (sizes_of (E.fixed env.old).trees (size_form op.now)) bs (drop at (S.shown store.now context.now.of))) result }
    ensures inside { IsIn (S.shown store.now context.now.of) result }
    ensures known { BindsAlso (known (E.held env.old)) (known (E.held env.new)) (wants op.now) result }
    ensures others { (x : ℕ) → binds (wants op.now) x ≡ false → E.held env.new x ≡ E.held env.old x }
    ensures there { AreThere (S.has store.now) (E.held env.new) }
    ensures kept { E.fixed env.new ≡ E.fixed env.old }
{
    match find(op, store, context, at, env) {
        Found::Passed(next) => Place::At(next),
        Found::Bound { var, value, next } => {
            env.bind(var, value);
            Place::At(next)
        }
        Found::Nowhere => Place::Nowhere,
        Found::Limit => Place::Limit,
        Found::NoMemory => Place::NoMemory,
    }
}
