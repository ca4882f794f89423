ghost use Rattle.std.specs.Prelude.{◌≡◌, ℕ, Option, Some, None, MatchOption};
ghost use Rattle.term_value.specs.Seen.{Seen};
ghost use Rattle.term_value.specs.Terms.{seen};
ghost use Rattle.proc_values.specs.Binds.{term_in};

use crate::bindings::Bindings;
use term_value::Term;

/// The values of variables, by number.
pub trait Variables<R> {
    /// What is seen of the term that a variable is bound to.
    ghost held: { Self → ℕ → Option (Seen R) };

    /// The value of a variable; None where it isn't bound.
    fn value(&self, variable: u32) -> Option<&Term<R>>
        ensures { MatchOption result (held self.now variable ≡ None) (λ term. held self.now variable ≡ Some (seen term.now)) };
}

impl<R> Variables<R> for Bindings<R> {
    ghost held = { λ b. term_in b };

    fn value(&self, variable: u32) -> Option<&Term<R>> {
        self.get(variable)
    }
}
