//! Truth values.

ghost use Rattle.std.specs.Prelude.{◌≡◌};
ghost use Rattle.term_value.specs.Result.{truth_of, truth_of_atom};
ghost use Rattle.code_tree.specs.PlainTerms.{value};

use crate::reasons::{FALSE, TRUE};
use code_tree::PlainTerm;
use term_value::Term;

/// The truth of a value, where it is `true` or `false`.
pub(crate) fn truth(term: &PlainTerm) -> Option<bool>
    ensures { result ≡ truth_of (value term.now) }
{
    match term.term() {
        Term::Atom(atom) => truth_of_atom(*atom),
        _ => None,
    }
}

fn truth_of_atom(atom: u32) -> Option<bool>
    ensures { result ≡ truth_of_atom atom }
{
    if atom == TRUE {
        Some(true)
    } else if atom == FALSE {
        Some(false)
    } else {
        None
    }
}
