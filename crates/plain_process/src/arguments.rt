//! The arguments with which a process begins.
ghost use Rattle.std.specs.Prelude.{◌≡◌, IfOk, map};
ghost use Rattle.bit_store.specs.Stores.{itself};
ghost use Rattle.code_tree.specs.PlainTerms.{value, IsShort, AnyAtom};
ghost use Rattle.term_value.specs.Seen.{AreKnown, meanings};
ghost use Rattle.term_value.specs.Terms.{row_of};
ghost use Rattle.term_value.specs.Value as V;

use bit_store::Window;
use code_tree::PlainTerm;
use plain_moves::Values;
use shares::Share;
use std::alloc::{AllocError, Global};
use term_value::{Cells, Term};

// The items of a list, shared.
#[tactic(auto, using(crate::proofs::ArgumentRows::onto_last, crate::proofs::ArgumentRows::onto_none))]
fn items_of(alloc: Global, list: &Cells<Window>) -> Result<Values, AllocError>
    requires { AreKnown IsShort AnyAtom (row_of list.now) }
    ensures { IfOk result (λ items. V.row (map value items) ≡ meanings itself (row_of list.now)) }
{
    let mut items = Values::new(alloc);
    let mut left = list;
    while let Some((item, rest)) = left.split() {
        items.push(PlainTerm::of(item.share()?))?;
        left = rest;
    }
    Ok(items)
}

/// The items of a list of arguments.
pub fn arguments_of(alloc: Global, list: &PlainTerm) -> Result<Values, AllocError>
    ensures { IfOk result (λ items. (vs : V.Values) → value list.now ≡ V.VList vs → V.row (map value items) ≡ vs) }
{
    match list.term() {
        Term::List(items) => Ok(items_of(alloc, items)?),
        _ => Ok(Values::new(alloc)),
    }
}
