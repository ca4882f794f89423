ghost use Rattle.std.specs.Prelude.{slice_index_or, []};
ghost use Rattle.bit_store.specs.Stores.{AnyAtom};

use crate::store::Store;
use bits_value::Bits;
use erl_syntax::Text;
use term_value::Look;

/// What terms over a store's references stand for, with the names of a module's atoms.
#[derive(Drop)]
pub struct StoreLook<'a, S> {
    pub store: &'a S,
    /// The name of each atom, by its number. Outside the table a name is empty.
    pub names: &'a [Text],
}

impl<R, S: Store<R>> Look<R> for StoreLook<'_, S> {
    ghost shown = { λ look of. S.shown look.store.now of };

    ghost named = { λ look atom. slice_index_or look.names.now atom [] };

    ghost has = { λ look of. S.has look.store.now of };

    ghost knows = { λ look. AnyAtom };

    fn bits<'b>(&'b self, of: &'b R) -> Bits<'b> {
        self.store.look(of)
    }

    fn atom(&self, number: u32) -> &[u8] {
        match self.names.get(number as usize) {
            Some(name) => name.bytes(),
            None => b"",
        }
    }
}
