ghost use Rattle.std.specs.Prelude.{◌≡◌, IfOk};
ghost use Rattle.term_value.specs.Terms.{seen, IsOver};
ghost use Rattle.code_tree.specs.PlainTerms.{IsShort, AnyAtom};

use bit_store::Window;
use shares::Share;
use std::alloc::AllocError;
use std::marker::Model;
use term_value::Term;

/// A term whose bitstrings are each its own reference, which contracts see as `Seen` of `term_value` over lists of bits.
#[derive(Drop)]
pub struct PlainTerm {
    term: Term<Window>,
}

impl Model for PlainTerm {
    ghost use Rattle.std.specs.Prelude.{List, Bool};
    ghost use Rattle.term_value.specs.Seen.{Seen, IsKnown};
    ghost use Rattle.std.specs.Coded.{coded_list, coded_bool};
    ghost use Rattle.term_value.specs.Codes.{coded_seen};
    ghost use Rattle.term_value.specs.Terms.{seen};
    ghost use Rattle.code_tree.specs.PlainTerms.{IsShort, AnyAtom};

    ghost Value = { Seen (List Bool) };

    ghost coded = { coded_seen (coded_list coded_bool) };

    ghost view = { λ p. seen p.term };

    ghost invariant = { λ p. IsKnown IsShort AnyAtom (seen p.term) };
}

impl PlainTerm {
    /// The term.
    pub fn of(term: Term<Window>) -> PlainTerm
        requires { IsOver IsShort AnyAtom term }
        ensures { result ≡ seen term }
    {
        PlainTerm { term }
    }

    /// The term.
    pub fn term(&self) -> &Term<Window>
        ensures is { seen result.now ≡ self.now }
        ensures over { IsOver IsShort AnyAtom result.now }
    {
        &self.term
    }

    /// The term, as its owner.
    pub fn into_term(self) -> Term<Window>
        ensures is { seen result ≡ self }
        ensures over { IsOver IsShort AnyAtom result }
    {
        self.term
    }
}

impl Share for PlainTerm {
    fn share(&self) -> Result<PlainTerm, AllocError> {
        Ok(PlainTerm {
            term: self.term.share()?,
        })
    }
}
