//! A tuple's items, which know their weight and depth.

ghost use Rattle.std.specs.Prelude.{◌≡◌, ◌-◌, ◌^◌, min};
ghost use Rattle.term_value.specs.Seen.{count_of, weights_of, depths_of};
ghost use Rattle.term_value.specs.Terms.{row};

use crate::term::Term;
use std::marker::Model;

/// The items of a tuple, with their weight and depth; each is 2^32 - 1 where it is larger. Contracts see it as `Row R` of `specs/Seen.antt`.
#[derive(Debug, Drop)]
#[cycle(term)]
pub struct Items<R> {
    items: Vec<Term<R>>,
    weight: u32,
    depth: u32,
}

impl<R> Model for Items<R> {
    ghost use Rattle.std.specs.Prelude.{◌≡◌, ◌-◌, ◌^◌, min};
    ghost use Rattle.term_value.specs.Seen.{Row, weights_of, depths_of};
    ghost use Rattle.term_value.specs.Codes.{coded_row};

    ghost Value = { Row R };

    ghost coded = { coded_row R.code };

    ghost use Rattle.term_value.specs.Terms.{row};

    ghost view = { λ t. row t.items.items };

    ghost invariant = { λ t. (t.weight ≡ min (weights_of (row t.items.items)) (2 ^ 32 - 1)) × (t.depth ≡ min (depths_of (row t.items.items)) (2 ^ 32 - 1)) };

    ghost size = { weights_of };

    ghost use Rattle.std.proofs.Common.{arith};
    ghost use Rattle.term_value.specs.Lighter.{terms_fall};

    ghost size_decreases = { λ t h. omega (arith, terms_fall t.items.items) };
}

impl<R> Items<R> {
    /// These items.
    pub(crate) fn of(items: Vec<Term<R>>) -> Items<R>
        ensures { result ≡ row items.items }
    {
        let (weight, depth) = measured(&items);
        Items {
            items,
            weight,
            depth,
        }
    }

    /// The items.
    pub fn items(&self) -> &[Term<R>]
        ensures { row result.now ≡ self.now }
    {
        self.items.as_slice()
    }

    /// The items, as their owner.
    pub fn into_items(self) -> Vec<Term<R>>
        ensures { row result.items ≡ self }
    {
        self.items
    }

    /// How many items; 2^32 - 1 where there are more.
    pub fn length(&self) -> u32
        ensures { result ≡ min (count_of self.now) (2 ^ 32 - 1) }
    {
        match u32::try_from(self.items.len()) {
            Ok(length) => length,
            Err(_) => u32::MAX,
        }
    }

    /// The weights of the items; 2^32 - 1 where they are more.
    pub fn weight(&self) -> u32
        ensures { result ≡ min (weights_of self.now) (2 ^ 32 - 1) }
    {
        self.weight
    }

    /// The depth of the deepest item; 2^32 - 1 where it is more.
    pub fn depth(&self) -> u32
        ensures { result ≡ min (depths_of self.now) (2 ^ 32 - 1) }
    {
        self.depth
    }
}

fn measured<R>(items: &[Term<R>]) -> (u32, u32)
    ensures weight { result.0 ≡ min (weights_of (row items.now)) (2 ^ 32 - 1) }
    ensures depth { result.1 ≡ min (depths_of (row items.now)) (2 ^ 32 - 1) }
{
    let mut weight = 0u32;
    let mut depth = 0u32;
    for item in items {
        weight = weight.saturating_add(item.weight());
        depth = depth.max(item.depth());
    }
    (weight, depth)
}
