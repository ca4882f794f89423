//! The values of variables and of size expressions.

ghost use Rattle.std.specs.Prelude.{◌≡◌, ℕ, ◌<◌, List, Bool, Option, Some, None, MatchOption, cond, nat_eq};
ghost use Rattle.term_value.specs.Guards.{result_of};
ghost use Rattle.term_value.specs.PutIn.{put_in};
ghost use Rattle.term_value.specs.Seen.{Seen};
ghost use Rattle.term_value.specs.Terms.{seen};
ghost use Rattle.term_value.specs.Tree.{Bound};
ghost use Rattle.match_context.specs.Envs.{Fixed, Agrees, AreThere, IsSized};

use crate::sized::Sized128;
use bit_store::Store;
use term_value::Term;

/// The values of variables, by number, and what size expressions come to under them.
///
/// No call changes the numbers of variables and of size expressions that there are, nor the expressions.
pub trait Env<R, S: Store<R>> {
    /// What no call changes: how many variables and size expressions have numbers, the expressions, and what they look up.
    ghost fixed: { Self → Fixed };

    /// What is seen of the term that a variable is bound to.
    ghost held: { Self → ℕ → Option (Seen R) };

    /// The value of a variable; None where it isn't bound.
    fn value(&self, var: u32) -> Option<&Term<R>>
        requires { var < (fixed self.now).variables }
        ensures { MatchOption result (held self.now var ≡ None) (λ term. held self.now var ≡ Some (seen term.now)) };

    /// Binds a variable that isn't bound.
    fn bind(&mut self, var: u32, value: Term<R>)
        requires range { var < (fixed self.old).variables }
        requires free { held self.old var ≡ None }
        ensures kept { fixed self.new ≡ fixed self.old }
        ensures bound { (x : ℕ) → held self.new x ≡ cond (nat_eq var x) (Some (seen value)) (held self.old x) };

    /// Takes a variable's value away, where it has one.
    fn unbind(&mut self, var: u32)
        requires { var < (fixed self.old).variables }
        ensures kept { fixed self.new ≡ fixed self.old }
        ensures unbound { (x : ℕ) → held self.new x ≡ cond (nat_eq var x) None (held self.old x) };

    /// What a size expression comes to under the bindings. A variable that isn't bound raises.
    fn size(&self, store: &S, expr: u32) -> Sized128
        requires range { expr < (fixed self.now).sizes }
        requires there { AreThere (S.has store.now) (held self.now) }
        ensures { (bs : List Bound) → Agrees (S.shown store.now) (held self.now) bs → IsSized (result_of (fixed self.now).setting (put_in bs ((fixed self.now).trees expr))) result };
}
