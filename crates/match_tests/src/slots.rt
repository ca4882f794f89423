//! An environment whose variables are slots.

ghost use Rattle.std.specs.Prelude.{◌≡◌, ◌<◌, ℕ, cond, nat_eq, List, Bool, IfOk, MatchOption, length, None, Some};
ghost use Rattle.term_value.specs.Guards.{result_of};
ghost use Rattle.term_value.specs.Operators.{prefixed};
ghost use Rattle.term_value.specs.Primitives.{bounded_result};
ghost use Rattle.term_value.specs.PutIn.{put_in};
ghost use Rattle.term_value.specs.Terms.{seen, value_of};
ghost use Rattle.term_value.specs.Tree.{Bound};
ghost use Rattle.term_value.specs.Value.{VInt};
ghost use Rattle.erl_syntax.specs.declared.expr.Prefix.TheVariants.{Minus};
ghost use Rattle.match_context.specs.Envs.{Agrees, IsSized, size_told, sized};
ghost use Rattle.match_tests.specs.Held.{held_in, fixed_in};
ghost use Rattle.match_tests.specs.Sizes.{rule_tree, slots_setting};

use bit_store::Store;
use erl_syntax::Prefix;
use expr_eval::{EvalFault, prefix_op};
use match_context::{Env, Sized128};
use std::alloc::{AllocError, Global};
use term_value::Term;

/// A size expression.
#[derive(Clone, Copy, Debug, PartialEq, Eq, Drop)]
pub enum SizeRule {
    Number(i128),
    /// The value of the variable of this number.
    ValueOf(u32),
    /// The same after a minus sign.
    MinusOf(u32),
}

/// A slot for each variable, and the size expressions.
#[derive(Drop)]
pub struct Slots<R> {
    pub values: Vec<Option<Term<R>>>,
    pub sizes: Vec<SizeRule>,
}

impl<R: Drop> Slots<R> {
    /// So many variables, none of them bound, and these size expressions.
    #[tactic(auto, using(crate::proofs::Writing::none_more))]
    pub fn new(alloc: Global, variables: u32, sizes: &[SizeRule]) -> Result<Slots<R>, AllocError>
        ensures free { IfOk result (λ slots. (x : ℕ) → held_in slots.values.items x ≡ None) }
        ensures variables { IfOk result (λ slots. length slots.values.items ≡ variables) }
        ensures sizes { IfOk result (λ slots. slots.sizes.items ≡ sizes.now) }
    {
        let mut values = Vec::new(alloc);
        for _variable in 0..variables {
            values.push(None)?;
        }
        Ok(Slots {
            values,
            sizes: sizes.to_vec(alloc)?,
        })
    }
}

impl<R: Drop> Slots<R> {
    // The term in a slot; None also where there is no such slot.
    fn at(&self, var: u32) -> Option<&Term<R>>
        ensures { MatchOption result (held_in self.now.values.items var ≡ None) (λ term. held_in self.now.values.items var ≡ Some (seen term.now)) }
    {
        match self.values.get(var as usize) {
            Some(slot) => slot.as_ref(),
            None => None,
        }
    }

    // What a size expression comes to.
    fn come_to(&self, rule: SizeRule) -> Sized128
        ensures { (shown : R → List Bool) (bs : List Bound) → Agrees shown (held_in self.now.values.items) bs → sized (result_of slots_setting (put_in bs (rule_tree rule))) ≡ result }
    {
        match rule {
            SizeRule::Number(number) => number_size(number),
            SizeRule::ValueOf(var) => match self.at(var) {
                Some(term) => size(term),
                None => Sized128::Bad,
            },
            SizeRule::MinusOf(var) => match self.at(var) {
                Some(term) => opposite(term),
                None => Sized128::Bad,
            },
        }
    }
}

impl<R: Drop, S: Store<R>> Env<R, S> for Slots<R> {
    ghost fixed = { λ slots. fixed_in slots.values.items slots.sizes.items };

    ghost held = { λ slots. held_in slots.values.items };

    fn value(&self, var: u32) -> Option<&Term<R>> {
        self.at(var)
    }

    // The clauses are the trait's: the check can't give them to this method by itself.
    #[tactic(auto, using(crate::proofs::Writing::written, crate::proofs::Writing::kept))]
    fn bind(&mut self, var: u32, value: Term<R>)
        requires range { var < length self.old.values.items }
        requires free { held_in self.old.values.items var ≡ None }
        ensures kept { fixed_in self.new.values.items self.new.sizes.items ≡ fixed_in self.old.values.items self.old.sizes.items }
        ensures bound { (x : ℕ) → held_in self.new.values.items x ≡ cond (nat_eq var x) (Some (seen value)) (held_in self.old.values.items x) }
    {
        self.values[var as usize] = Some(value);
    }

    #[tactic(auto, using(crate::proofs::Writing::written, crate::proofs::Writing::kept))]
    fn unbind(&mut self, var: u32) {
        self.values[var as usize] = None;
    }

    #[tactic(auto, using(crate::proofs::Writing::sized_is))]
    fn size(&self, _store: &S, expr: u32) -> Sized128 {
        match self.sizes.get(expr as usize) {
            Some(rule) => self.come_to(*rule),
            None => Sized128::Bad,
        }
    }
}

fn number_size(number: i128) -> Sized128
    ensures { result ≡ size_told (VInt number) }
{
    if number >= 0 {
        Sized128::Size(number)
    } else {
        Sized128::Bad
    }
}

// What a size is whose value is the term's.
fn size<R>(term: &Term<R>) -> Sized128
    ensures { (shown : R → List Bool) → result ≡ size_told (value_of shown term.now) }
{
    match term {
        Term::Int(number) => number_size(*number),
        _ => Sized128::Bad,
    }
}

// What a size is whose value is the term's after a minus sign.
fn opposite<R: Drop>(term: &Term<R>) -> Sized128
    ensures { (shown : R → List Bool) → result ≡ sized (bounded_result (prefixed Minus (value_of shown term.now))) }
{
    match prefix_op(Prefix::Minus, term) {
        Ok(term) => size(&term),
        Err(EvalFault::Raised(_)) => Sized128::Bad,
        Err(EvalFault::Limit) => Sized128::Limit,
        Err(EvalFault::NoMemory) => Sized128::NoMemory,
    }
}
