//! A generator's pattern, and the rest of its source.

ghost use Rattle.std.specs.Prelude.{◌≡◌, MatchOption, IfSome};
ghost use Rattle.term_value.specs.Seen.{AreKnown, end, then};
ghost use Rattle.term_value.specs.Terms.{seen, row_of, IsOver};
ghost use Rattle.code_tree.specs.PlainTerms.{IsShort, AnyAtom};

use bit_store::Window;
use code_tree::{Pattern, Segment};
use std::marker::Model;
use term_value::{Cells, Term};

/// The items of a list. Contracts see them as a `Row` over lists of bits.
#[derive(Drop)]
pub struct PlainItems {
    items: Cells<Window>,
}

impl Model for PlainItems {
    ghost use Rattle.std.specs.Prelude.{List, Bool};
    ghost use Rattle.std.specs.Coded.{coded_list, coded_bool};
    ghost use Rattle.term_value.specs.Seen.{Row, AreKnown};
    ghost use Rattle.term_value.specs.Codes.{coded_row};

    ghost Value = { Row (List Bool) };

    ghost coded = { coded_row (coded_list coded_bool) };

    ghost use Rattle.term_value.specs.Terms.{row_of};
    ghost use Rattle.code_tree.specs.PlainTerms.{IsShort, AnyAtom};

    ghost view = { λ p. row_of p.items };

    ghost invariant = { λ p. AreKnown IsShort AnyAtom (row_of p.items) };
}

impl PlainItems {
    /// The items.
    pub(crate) fn of(items: Cells<Window>) -> PlainItems
        requires { AreKnown IsShort AnyAtom (row_of items) }
        ensures { result ≡ row_of items }
    {
        PlainItems { items }
    }

    /// The first item and the others; None where there is no item.
    pub(crate) fn split(&self) -> Option<(&Term<Window>, &Cells<Window>)>
        ensures is { MatchOption result (self.now ≡ end) (λ parts. self.now ≡ then (seen parts.0.now) (row_of parts.1.now)) }
        ensures item { IfSome result (λ parts. IsOver IsShort AnyAtom parts.0.now) }
        ensures rest { IfSome result (λ parts. AreKnown IsShort AnyAtom (row_of parts.1.now)) }
    {
        self.items.split()
    }
}

/// The rows of the items of a list.
#[derive(Drop)]
pub struct ListRows<'a> {
    pub(crate) pattern: &'a Pattern,
    pub(crate) rest: PlainItems,
}

/// The rows of bits, by the segments of a pattern and by its shape.
#[derive(Drop)]
pub struct BitRows<'a> {
    pub(crate) segments: &'a [Segment],
    pub(crate) shape: &'a [Segment],
    pub(crate) rest: Window,
}
