ghost use Rattle.std.specs.Prelude.{◌≡◌, ◌-◌, ◌^◌, min, IfOk};
ghost use Rattle.term_value.specs.Terms.{seen};
ghost use Rattle.term_value.specs.Seen.{weight_of, depth_of};

use crate::cells::Cells;
use crate::tuple::Items;
use shares::{Held, Share};
use std::alloc::AllocError;

/// A value of the language over references to bitstrings (Erlang Reference Manual, "Data Types").
///
/// Contracts see it as `Seen R` of `specs/Seen.antt`. A tuple's items and a list's are shared: `share` makes an equal term in a few steps.
#[derive(Debug, Drop)]
#[cycle(term)]
pub enum Term<R> {
    Int(i128),
    /// The number of the atom in the module's table of atoms.
    Atom(u32),
    Pid(u32),
    Tuple(Held<Items<R>>),
    List(Cells<R>),
    /// A reference that shows the bits.
    Bits(R),
}

impl<R: Share> Share for Term<R> {
    fn share(&self) -> Result<Term<R>, AllocError> {
        match self {
            Term::Int(number) => Ok(Term::Int(*number)),
            Term::Atom(number) => Ok(Term::Atom(*number)),
            Term::Pid(number) => Ok(Term::Pid(*number)),
            Term::Tuple(items) => Ok(Term::Tuple(items.again()?)),
            Term::List(items) => Ok(Term::List(items.again()?)),
            Term::Bits(reference) => Ok(Term::Bits(reference.share()?)),
        }
    }
}

impl<R: Share + Drop> Clone for Term<R> {
    ghost is_clone = { λ term copy. copy ≡ term };

    fn clone(&self) -> Result<Term<R>, AllocError> {
        self.share()
    }
}

impl<R> Term<R> {
    /// 1 for a value without items, else 1 and the weights of the items; 2^32 - 1 where the number is larger.
    pub fn weight(&self) -> u32
        ensures { result ≡ min (weight_of (seen self.now)) (2 ^ 32 - 1) }
    {
        match self {
            Term::Tuple(items) => items.get().weight().saturating_add(1),
            Term::List(items) => items.weight().saturating_add(1),
            _ => 1,
        }
    }

    /// 1 for a value without items, else 1 more than the deepest item; 2^32 - 1 where the number is larger.
    pub fn depth(&self) -> u32
        ensures { result ≡ min (depth_of (seen self.now)) (2 ^ 32 - 1) }
    {
        match self {
            Term::Tuple(items) => items.get().depth().saturating_add(1),
            Term::List(items) => items.depth().saturating_add(1),
            _ => 1,
        }
    }
}
