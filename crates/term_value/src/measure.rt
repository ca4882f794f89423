//! The weight and the depth of a term.

ghost use Rattle.std.specs.Prelude.{◌≡◌, ◌-◌, ◌^◌, min, List, Bool};
ghost use Rattle.term_value.specs.Value.{weight as weight_of, depth as depth_of};
ghost use Rattle.term_value.specs.Terms.{value_of};

use crate::term::Term;

/// 1 for a value without items, else 1 and the weights of the items; 2^32 - 1 where the number is larger.
#[tactic(auto, using(crate::proofs::Measures::weighs_same))]
pub fn weight<R>(term: &Term<R>) -> u32
    ensures { (shown : R → List Bool) → result ≡ min (weight_of (value_of shown term.now)) (2 ^ 32 - 1) }
{
    term.weight()
}

/// 1 for a value without items, else 1 more than the deepest item; 2^32 - 1 where the number is larger.
#[tactic(auto, using(crate::proofs::Measures::deep_same))]
pub fn depth<R>(term: &Term<R>) -> u32
    ensures { (shown : R → List Bool) → result ≡ min (depth_of (value_of shown term.now)) (2 ^ 32 - 1) }
{
    term.depth()
}
