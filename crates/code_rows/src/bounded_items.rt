//! The items of a list that a comprehension collects.

ghost use Rattle.std.specs.Prelude.{◌≡◌, ◌^◌, ◌++◌, ◌∷◌, [], ◌&&◌, nat_le, map, cond, IfOk, OnErr};
ghost use Rattle.term_value.specs.Value.{VList, row as values};
ghost use Rattle.term_value.specs.Bounds.{is_within};
ghost use Rattle.term_value.specs.Terms.{seen, IsOver};
ghost use Rattle.code_tree.specs.PlainTerms.{value, IsShort, AnyAtom};

use bit_store::Window;
use code_tree::PlainTerm;
use std::alloc::{AllocError, Global};
use std::marker::Model;
use term_value::{Term, list_of};

/// Items in their order, whose list is within the bounds. Contracts see them as the list of what is seen of each.
#[derive(Drop)]
pub struct BoundedItems {
    items: Vec<Term<Window>>,
    weight: u32,
    depth: u32,
}

impl Model for BoundedItems {
    ghost use Rattle.std.specs.Prelude.{◌≡◌, ◌-◌, ◌^◌, min, Bool, true, List, map};
    ghost use Rattle.std.specs.Coded.{coded_list, coded_bool};
    ghost use Rattle.term_value.specs.Seen.{Seen, AreKnown, weights_of, depths_of, meanings};
    ghost use Rattle.term_value.specs.Codes.{coded_seen};

    ghost Value = { List (Seen (List Bool)) };

    ghost coded = { coded_list (coded_seen (coded_list coded_bool)) };

    ghost use Rattle.term_value.specs.Value.{VList};
    ghost use Rattle.term_value.specs.Bounds.{is_within};
    ghost use Rattle.term_value.specs.Terms.{seen, row};
    ghost use Rattle.bit_store.specs.Stores.{itself};
    ghost use Rattle.code_tree.specs.PlainTerms.{IsShort, AnyAtom};

    ghost view = { λ b. map seen b.items.items };

    ghost invariant = { λ b. AreKnown IsShort AnyAtom (row b.items.items)
        × (b.weight ≡ min (weights_of (row b.items.items)) (2 ^ 32 - 1))
        × (b.depth ≡ min (depths_of (row b.items.items)) (2 ^ 32 - 1))
        × (is_within (VList (meanings itself (row b.items.items))) ≡ true) };
}

impl BoundedItems {
    /// No items.
    pub fn new(alloc: Global) -> BoundedItems
        ensures { result ≡ [] }
    {
        BoundedItems {
            items: Vec::new(alloc),
            weight: 0,
            depth: 0,
        }
    }

    /// The item behind the others, where the list of all is within the bounds: whether it is. Takes constant time but for the growth of the buffer.
    pub fn add(&mut self, item: Term<Window>) -> Result<bool, AllocError>
        requires { IsOver IsShort AnyAtom item }
        ensures bounds { IfOk result (λ added. added ≡ is_within (VList (values (map value (self.old ++ seen item ∷ []))))) }
        ensures items { IfOk result (λ added. self.new ≡ cond added (self.old ++ seen item ∷ []) self.old) }
        ensures unchanged { OnErr result (self.new ≡ self.old) }
    {
        let weight = self.weight.saturating_add(item.weight());
        let depth = self.depth.max(item.depth());
        if !fits(
            self.items.len() + 1,
            weight.saturating_add(1),
            depth.saturating_add(1),
        ) {
            return Ok(false);
        }
        self.items.push(item)?;
        self.weight = weight;
        self.depth = depth;
        Ok(true)
    }

    /// The list of the items.
    pub fn list(self, alloc: Global) -> Result<PlainTerm, AllocError>
        ensures { IfOk result (λ list. value list ≡ VList (values (map value self))) }
    {
        match list_of(alloc, self.items)? {
            Some(list) => Ok(PlainTerm::of(list)),
            None => unreachable!(),
        }
    }
}

// Whether a list is within the bounds, by its length, weight and depth.
fn fits(length: usize, weight: u32, depth: u32) -> bool
    ensures { result ≡ (nat_le length (2 ^ 20) && (nat_le weight (2 ^ 22) && nat_le depth 256)) }
{
    length <= 1 << 20 && weight <= 1 << 22 && depth <= 256
}
