ghost use Rattle.std.specs.Prelude.{◌≡◌, IfOk};
ghost use Rattle.term_value.specs.Value.{VList};
ghost use Rattle.term_value.specs.Seen.{SInt, SAtom};
ghost use Rattle.term_value.specs.BuiltIns.{integers};
ghost use Rattle.code_tree.specs.PlainTerms.{value};
ghost use Rattle.code_layout.specs.Layout.{letter_terms};

use bit_store::Window;
use code_tree::PlainTerm;
use std::alloc::{AllocError, Global};
use term_value::{Term, list_of};

/// The term of an integer.
pub(crate) fn integer(value: i128) -> PlainTerm
    ensures { result ≡ SInt value }
{
    PlainTerm::of(Term::Int(value))
}

/// The term of the atom of this number.
pub(crate) fn atom(number: u32) -> PlainTerm
    ensures { result ≡ SAtom number }
{
    PlainTerm::of(Term::Atom(number))
}

/// The terms of a string's characters.
fn letters(alloc: Global, characters: &[u32]) -> Result<Vec<Term<Window>>, AllocError>
    ensures { IfOk result (λ letters. letters.items ≡ letter_terms characters.now) }
{
    let mut letters = Vec::new(alloc);
    for character in characters {
        letters.push(Term::Int(i128::from(*character)))?;
    }
    Ok(letters)
}

/// The term of a string. A string of more characters than a list may have items is answered as if memory ran out: no text has one.
pub(crate) fn string(alloc: Global, characters: &[u32]) -> Result<PlainTerm, AllocError>
    ensures { IfOk result (λ term. value term ≡ VList (integers characters.now)) }
{
    let letters = letters(alloc, characters)?;
    match list_of(alloc, letters)? {
        Some(term) => Ok(PlainTerm::of(term)),
        None => Err(AllocError),
    }
}
