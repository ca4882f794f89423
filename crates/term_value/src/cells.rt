//! Lists, as chains of cells that several lists may share.

ghost use Rattle.std.specs.Prelude.{◌≡◌, ◌-◌, ◌^◌, min, IfOk, MatchOption};
ghost use Rattle.term_value.specs.Terms.{seen, row_of, row};
ghost use Rattle.term_value.specs.Seen.{end, then, count_of, weights_of, depths_of};

use crate::term::Term;
use shares::{Held, Share};
use std::alloc::{AllocError, Global};
use std::marker::Model;

/// A list: empty, or an item and the list of the items after it, which other lists may share. Contracts see it as `Row R` of `specs/Seen.antt`.
#[derive(Debug)]
#[cycle(term)]
pub enum Cells<R> {
    Empty,
    More(Held<Link<R>>),
}

/// A first item and the list after it, with the number, the weight and the depth of all items; each is 2^32 - 1 where it is larger.
#[derive(Debug, Drop)]
#[cycle(term)]
pub struct Link<R> {
    item: Term<R>,
    rest: Cells<R>,
    length: u32,
    weight: u32,
    depth: u32,
}

impl<R> Model for Link<R> {
    ghost use Rattle.std.specs.Prelude.{◌≡◌, ◌+◌, ◌-◌, ◌^◌, min};
    ghost use Rattle.std.specs.Coded.{coded×};
    ghost use Rattle.term_value.specs.Seen.{Seen, Row, then, weight_of, weights_of, count_of, depths_of};
    ghost use Rattle.term_value.specs.Codes.{coded_seen, coded_row};

    ghost Value = { Seen R × Row R };

    ghost coded = { coded× (coded_seen R.code) (coded_row R.code) };

    ghost use Rattle.term_value.specs.Terms.{seen, row_of};

    ghost view = { λ l. (seen l.item, row_of l.rest) };

    ghost invariant = { λ l. (l.length ≡ min (count_of (row_of l.rest) + 1) (2 ^ 32 - 1))
        × (l.weight ≡ min (weights_of (then (seen l.item) (row_of l.rest))) (2 ^ 32 - 1))
        × (l.depth ≡ min (depths_of (then (seen l.item) (row_of l.rest))) (2 ^ 32 - 1)) };

    ghost size = { λ v. weight_of v.0 + weights_of v.1 };

    ghost use Rattle.std.proofs.Common.{arith};
    ghost use Rattle.term_value.specs.Lighter.{link_falls};

    ghost size_decreases = { λ l h. omega (arith, link_falls l.item l.rest) };
}

// As a loop, since a list may be long: only the items' own drops are calls.
impl<R: Drop> Drop for Cells<R> {
    #[cycle(drop)]
    fn drop(mut self) {
        loop {
            match self {
                Cells::Empty => return,
                Cells::More(link) => match link.into_inner() {
                    None => return,
                    Some(link) => {
                        let Link { item, rest, .. } = link;
                        drop(item);
                        self = rest;
                    }
                },
            }
        }
    }
}

impl<R> Cells<R> {
    /// The same list. The error says that no further owner could be counted.
    pub fn again(&self) -> Result<Cells<R>, AllocError>
        ensures { IfOk result (λ other. other ≡ self.now) }
    {
        match self {
            Cells::Empty => Ok(Cells::Empty),
            Cells::More(link) => Ok(Cells::More(link.again()?)),
        }
    }

    /// How many items; 2^32 - 1 where there are more.
    pub fn length(&self) -> u32
        ensures { result ≡ min (count_of (row_of self.now)) (2 ^ 32 - 1) }
    {
        match self {
            Cells::Empty => 0,
            Cells::More(link) => {
                let link = link.get();
                link.length
            }
        }
    }

    /// The weights of the items; 2^32 - 1 where there are more.
    pub fn weight(&self) -> u32
        ensures { result ≡ min (weights_of (row_of self.now)) (2 ^ 32 - 1) }
    {
        match self {
            Cells::Empty => 0,
            Cells::More(link) => {
                let link = link.get();
                link.weight
            }
        }
    }

    /// The depth of the deepest item; 2^32 - 1 where it is more.
    pub fn depth(&self) -> u32
        ensures { result ≡ min (depths_of (row_of self.now)) (2 ^ 32 - 1) }
    {
        match self {
            Cells::Empty => 0,
            Cells::More(link) => {
                let link = link.get();
                link.depth
            }
        }
    }

    /// The first item and the list of the others; None where there is no item.
    pub fn split(&self) -> Option<(&Term<R>, &Cells<R>)>
        ensures { MatchOption result (row_of self.now ≡ end) (λ parts. row_of self.now ≡ then (seen parts.0.now) (row_of parts.1.now)) }
    {
        match self {
            Cells::Empty => None,
            Cells::More(link) => {
                let link = link.get();
                Some((&link.item, &link.rest))
            }
        }
    }
}

impl<R: Drop> Cells<R> {
    /// The list of this item and then the others.
    pub(crate) fn cons(alloc: Global, item: Term<R>, rest: Cells<R>) -> Result<Cells<R>, AllocError>
        ensures { IfOk result (λ list. row_of list ≡ then (seen item) (row_of rest)) }
    {
        let length = rest.length().saturating_add(1);
        let weight = rest.weight().saturating_add(item.weight());
        let depth = rest.depth().max(item.depth());
        let link = Held::new(
            alloc,
            Link {
                item,
                rest,
                length,
                weight,
                depth,
            },
        )?;
        Ok(Cells::More(link))
    }
}

impl<R: Drop> Cells<R> {
    /// The list of these items.
    #[tactic(auto, using(crate::proofs::RowLemmas::onto_end, crate::proofs::RowLemmas::onto_last))]
    pub(crate) fn of(alloc: Global, mut items: Vec<Term<R>>) -> Result<Cells<R>, AllocError>
        ensures { IfOk result (λ list. row_of list ≡ row items.items) }
    {
        let mut list = Cells::Empty;
        while let Some(item) = items.pop() {
            list = Cells::cons(alloc, item, list)?;
        }
        Ok(list)
    }
}

impl<R: Share + Drop> Cells<R> {
    /// The first item and the list of the others, as their owner; None where there is no item. Parts that others own too are shared.
    pub fn uncons(self) -> Result<Option<(Term<R>, Cells<R>)>, AllocError>
        ensures { IfOk result (λ found. MatchOption found (row_of self ≡ end) (λ parts. row_of self ≡ then (seen parts.0) (row_of parts.1))) }
    {
        match self {
            Cells::Empty => Ok(None),
            Cells::More(link) => match link.try_unwrap() {
                Ok(link) => {
                    let Link { item, rest, .. } = link;
                    Ok(Some((item, rest)))
                }
                Err(link) => {
                    let inside = link.get();
                    let item = inside.item.share()?;
                    let rest = inside.rest.again()?;
                    Ok(Some((item, rest)))
                }
            },
        }
    }
}
