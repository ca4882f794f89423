//! What an operation wants of the value that it takes.

ghost use Rattle.std.specs.Prelude.{◌≡◌, ◌≤◌, ℕ, List, Bool, length, drop, cond, Some, None};
ghost use Rattle.bit_store.specs.Stores.{AnyAtom};
ghost use Rattle.term_value.specs.Decode as d;
ghost use Rattle.term_value.specs.Order.{same};
ghost use Rattle.term_value.specs.PutIn.{in_target};
ghost use Rattle.term_value.specs.Setting.{Setting};
ghost use Rattle.term_value.specs.Terms.{value_of, IsOver};
ghost use Rattle.term_value.specs.Tree.{Bound};
ghost use Rattle.term_value.specs.Value.{Value, VInt, VBits};
ghost use Rattle.pattern_compile.specs.Meaning.{target_of};
ghost use Rattle.pattern_compile.specs.Patterns.{TargetFits};
ghost use Rattle.pattern_compile.specs.declared.pattern.Target.TheVariants.{Same};
ghost use Rattle.match_context.specs.Envs.{Agrees, AreThere, known};
ghost use Rattle.match_context.specs.Places.{IsFound, IsFoundIn, IsFor, IsValueOf, HasCut, bound_found};

use crate::env::Env;
use crate::found::Found;
use bit_store::Store;
use bits_value::order;
use pattern_compile::{Target, Want};
use segment_cut::{CutOff, CutValue};
use term_value::Term;

/// What is found where the target wants this of what was cut off.
pub(crate) fn wanted<R: Drop, S: Store<R>, E: Env<R, S>>(
    target: Target,
    off: CutOff<R>,
    store: &S,
    env: &E,
) -> Found<R>
    requires there { AreThere (S.has store.now) (E.held env.now) }
    requires target { TargetFits (E.fixed env.now).variables (known (E.held env.now)) target }
    requires cut { HasCut (S.has store.now) off.value }
    ensures is { (bs : List Bound) → Agrees (S.shown store.now) (E.held env.now) bs
        → (v : Value) (s : Setting) (all : List Bool) → IsValueOf (S.shown store.now) v off.value
        → IsFound (S.shown store.now) bs all (d.wanted s (in_target bs (target_of target)) bs (d.cut_off v (drop off.next all))) result }
    ensures inside { (all : List Bool) → off.next ≤ length all → IsFoundIn (S.has store.now) all result }
    ensures of { IsFor target result }
{
    match target {
        Target::Bind(var) => bound(var, off),
        Target::Same(want) => {
            if is_wanted(want, &off.value, store, env) {
                Found::Passed(off.next)
            } else {
                Found::Nowhere
            }
        }
        Target::Any => Found::Passed(off.next),
    }
}

// The variable and the value to which it is bound, which is no number outside the bound.
fn bound<R>(var: u32, off: CutOff<R>) -> Found<R>
    ensures { result ≡ bound_found var off }
{
    let next = off.next;
    match off.value {
        CutValue::Number(number) => Found::Bound {
            var,
            value: Term::Int(number),
            next,
        },
        CutValue::Part(part) => Found::Bound {
            var,
            value: Term::Bits(part),
            next,
        },
        CutValue::LongNumber => Found::Limit,
    }
}

// Whether a value is the one that is wanted.
fn is_wanted<R, S: Store<R>, E: Env<R, S>>(
    want: Want,
    value: &CutValue<R>,
    store: &S,
    env: &E,
) -> bool
    requires there { AreThere (S.has store.now) (E.held env.now) }
    requires target { TargetFits (E.fixed env.now).variables (known (E.held env.now)) (Same want) }
    requires cut { HasCut (S.has store.now) value.now }
    ensures { (bs : List Bound) → Agrees (S.shown store.now) (E.held env.now) bs
        → (v : Value) (s : Setting) → IsValueOf (S.shown store.now) v value.now
        → cond result (Some bs) None ≡ d.met s (in_target bs (target_of (Same want))) v bs }
{
    match want {
        Want::Literal(number) => is_number(number, value),
        Want::Var(var) => match env.value(var) {
            Some(term) => is_term(term, value, store),
            None => false,
        },
    }
}

// Whether a value is the term's.
fn is_term<R, S: Store<R>>(term: &Term<R>, value: &CutValue<R>, store: &S) -> bool
    requires term { IsOver (S.has store.now) AnyAtom term.now }
    requires cut { HasCut (S.has store.now) value.now }
    ensures { (v : Value) (names : ℕ → List ℕ) → IsValueOf (S.shown store.now) v value.now → result ≡ same names (value_of (S.shown store.now) term.now) v }
{
    match term {
        Term::Int(number) => is_number(*number, value),
        Term::Bits(of) => is_part(of, value, store),
        Term::Atom(_) => false,
        Term::Pid(_) => false,
        Term::Tuple(_) => false,
        Term::List(_) => false,
    }
}

// Whether a value is the bits of a reference.
fn is_part<R, S: Store<R>>(of: &R, value: &CutValue<R>, store: &S) -> bool
    requires of { S.has store.now of.now }
    requires cut { HasCut (S.has store.now) value.now }
    ensures { (v : Value) (names : ℕ → List ℕ) → IsValueOf (S.shown store.now) v value.now → result ≡ same names (VBits (S.shown store.now of.now)) v }
{
    match value {
        CutValue::Part(part) => order(store.look(of), store.look(part)).is_eq(),
        CutValue::Number(_) => false,
        CutValue::LongNumber => false,
    }
}

// Whether a value is this number.
fn is_number<R>(number: i128, value: &CutValue<R>) -> bool
    ensures { (shown : R → List Bool) (v : Value) (names : ℕ → List ℕ) → IsValueOf shown v value.now → result ≡ same names (VInt number) v }
{
    match value {
        CutValue::Number(other) => number.cmp(other).is_eq(),
        CutValue::LongNumber => false,
        CutValue::Part(_) => false,
    }
}
