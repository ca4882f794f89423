ghost use Rattle.std.specs.Prelude.{◌≡◌, [], ◌∷◌, ◌++◌, OnOk, IfOk, map};
ghost use Rattle.term_value.specs.Seen.{SList, AreKnown};
ghost use Rattle.term_value.specs.Terms.{seen, row, row_of};
ghost use Rattle.code_tree.specs.PlainTerms.{IsShort, AnyAtom};

use bit_store::Window;
use code_tree::PlainTerm;
use std::alloc::{AllocError, Global};
use std::marker::Model;
use term_value::{Cells, Term};

/// Terms in a row, of which each is as a `PlainTerm`. Contracts see what each stands for, the first first.
#[derive(Drop)]
pub struct Values {
    terms: Vec<Term<Window>>,
}

impl Model for Values {
    ghost use Rattle.std.specs.Prelude.{List, Bool, map};
    ghost use Rattle.std.specs.Coded.{coded_list, coded_bool};
    ghost use Rattle.term_value.specs.Seen.{Seen, AreKnown};
    ghost use Rattle.term_value.specs.Codes.{coded_seen};
    ghost use Rattle.term_value.specs.Terms.{seen, row};
    ghost use Rattle.code_tree.specs.PlainTerms.{IsShort, AnyAtom};

    ghost Value = { List (Seen (List Bool)) };

    ghost coded = { coded_list (coded_seen (coded_list coded_bool)) };

    ghost view = { λ v. map seen v.terms.items };

    ghost invariant = { λ v. AreKnown IsShort AnyAtom (row v.terms.items) };
}

impl Values {
    pub fn new(alloc: Global) -> Values
        ensures { result ≡ [] }
    {
        Values {
            terms: Vec::new(alloc),
        }
    }

    /// The terms.
    pub fn terms(&self) -> &[Term<Window>]
        ensures are { map seen result.now ≡ self.now }
        ensures known { AreKnown IsShort AnyAtom (row result.now) }
    {
        self.terms.as_slice()
    }

    /// The terms, as their owner.
    pub fn into_terms(self) -> Vec<Term<Window>>
        ensures are { map seen result.items ≡ self }
        ensures known { AreKnown IsShort AnyAtom (row result.items) }
    {
        self.terms
    }

    #[tactic(auto, using(crate::proofs::Known::known_last))]
    pub fn push(&mut self, term: PlainTerm) -> Result<(), AllocError>
        ensures { OnOk result (self.new ≡ self.old ++ term ∷ []) }
    {
        self.terms.push(term.into_term())?;
        Ok(())
    }
}

/// The items of a list, of which each is as a `PlainTerm`.
#[derive(Drop)]
pub struct PlainCells {
    cells: Cells<Window>,
}

impl Model for PlainCells {
    ghost use Rattle.std.specs.Prelude.{List, Bool};
    ghost use Rattle.std.specs.Coded.{coded_list, coded_bool};
    ghost use Rattle.term_value.specs.Seen.{Row, AreKnown};
    ghost use Rattle.term_value.specs.Codes.{coded_row};
    ghost use Rattle.term_value.specs.Terms.{row_of};
    ghost use Rattle.code_tree.specs.PlainTerms.{IsShort, AnyAtom};

    ghost Value = { Row (List Bool) };

    ghost coded = { coded_row (coded_list coded_bool) };

    ghost view = { λ c. row_of c.cells };

    ghost invariant = { λ c. AreKnown IsShort AnyAtom (row_of c.cells) };
}

impl PlainCells {
    pub fn of(cells: Cells<Window>) -> PlainCells
        requires { AreKnown IsShort AnyAtom (row_of cells) }
        ensures { result ≡ row_of cells }
    {
        PlainCells { cells }
    }

    /// The same items. The error says that no further owner could be counted.
    pub fn again(&self) -> Result<PlainCells, AllocError>
        ensures { IfOk result (λ other. other ≡ self.now) }
    {
        Ok(PlainCells {
            cells: self.cells.again()?,
        })
    }

    /// The list.
    pub fn into_list(self) -> PlainTerm
        ensures { result ≡ SList self }
    {
        PlainTerm::of(Term::List(self.cells))
    }
}
