//! What an evaluation may do with a store.

ghost use Rattle.std.specs.Prelude.{◌≡◌, ◌<◌, ◌^◌, ℕ, List, Bool, length, IfOk};
ghost use Rattle.bit_store.specs.Stores.{AnyAtom, Keeps, RoseBy};
ghost use Rattle.code_tree.specs.PlainTerms.{IsShort};
ghost use Rattle.code_tree.specs.Reading.{prim_of};
ghost use Rattle.expr_eval.specs.Answers.{IsEvaluated, HasAnswer, setting};
ghost use Rattle.proc_values.specs.MadeBits.{PrimMakesNoBits};
ghost use Rattle.term_value.specs.Primitives.{prim};
ghost use Rattle.term_value.specs.Seen.{meanings, AreKnown};
ghost use Rattle.term_value.specs.Terms.{row};

use crate::literals::fresh_bits;
use crate::primitives::{primitive, read};
use crate::storage::Storage;
use bit_store::{Store, Window};
use code_tree::Primitive;
use expr_eval::{Answer, Caller};
use shares::Share;
use std::alloc::{AllocError, Global};
use term_value::Term;

/// A store that an evaluation reads, and may write into or not. Each call keeps what every reference shows that the store has.
pub(crate) trait Access<R> {
    /// The bits that a reference shows.
    ghost shown: { Self → R → List Bool };

    /// Whether the store has this reference.
    ghost has: { Self → R → Type 0 };

    /// How many bits were moved in it so far.
    ghost moved: { Self → ℕ };

    /// A bitstring of these bits.
    fn bits(&mut self, alloc: Global, bits: &Window) -> Result<R, AllocError>
        ensures keeps { Keeps shown has self.old self.new }
        ensures known { IfOk result (λ made. has self.new made) }
        ensures shows { IfOk result (λ made. shown self.new made ≡ bits.now) }
        ensures moved { moved self.old < 2 ^ 64 → RoseBy (length bits.now) (moved self.old) (moved self.new) };

    /// What a primitive gives for the values of its parts.
    fn table(&mut self, caller: &Caller<'_>, what: &Primitive, values: Vec<Term<R>>) -> Answer<R>
        requires { AreKnown (has self.old) AnyAtom (row values.items) }
        ensures keeps { Keeps shown has self.old self.new }
        ensures is { IsEvaluated (shown self.new) result (prim (setting caller.now.names.now caller.now.pid) (prim_of what.now) (meanings (shown self.old) (row values.items))) }
        ensures known { HasAnswer (has self.new) result }
        ensures quiet { PrimMakesNoBits (prim_of what.now) → moved self.new ≡ moved self.old };
}

impl<R: Share + Drop, S: Store<R>> Access<R> for Storage<S> {
    ghost shown = { λ storage of. S.shown storage.store of };

    ghost has = { λ storage of. S.has storage.store of };

    ghost moved = { λ storage. storage.steps.moved };

    fn bits(&mut self, alloc: Global, bits: &Window) -> Result<R, AllocError> {
        fresh_bits(alloc, self, bits)
    }

    fn table(&mut self, caller: &Caller<'_>, what: &Primitive, values: Vec<Term<R>>) -> Answer<R>
        requires { AreKnown (S.has self.old.store) AnyAtom (row values.items) }
        ensures keeps { Keeps S.shown S.has self.old.store self.new.store }
        ensures is { IsEvaluated (S.shown self.new.store) result (prim (setting caller.now.names.now caller.now.pid) (prim_of what.now) (meanings (S.shown self.old.store) (row values.items))) }
        ensures known { HasAnswer (S.has self.new.store) result }
        ensures quiet { PrimMakesNoBits (prim_of what.now) → self.new.steps.moved ≡ self.old.steps.moved }
    {
        primitive(caller, self, what, values)
    }
}

/// A store that is only read: what would write into it answers as if no memory were left.
#[derive(Drop)]
pub(crate) struct Reader<'a, S> {
    pub store: &'a S,
}

impl<R: Share + Drop, S: Store<R>> Access<R> for Reader<'_, S> {
    ghost shown = { λ reader of. S.shown reader.store.now of };

    ghost has = { λ reader of. S.has reader.store.now of };

    ghost moved = { λ reader. 0 };

    fn bits(&mut self, _alloc: Global, _bits: &Window) -> Result<R, AllocError> {
        Err(AllocError)
    }

    fn table(&mut self, caller: &Caller<'_>, what: &Primitive, values: Vec<Term<R>>) -> Answer<R>
        requires { AreKnown (S.has self.old.store.now) AnyAtom (row values.items) }
        ensures keeps { Keeps (λ reader of. S.shown reader.store.now of) (λ reader of. S.has reader.store.now of) self.old self.new }
        ensures is { IsEvaluated (S.shown self.new.store.now) result (prim (setting caller.now.names.now caller.now.pid) (prim_of what.now) (meanings (S.shown self.old.store.now) (row values.items))) }
        ensures known { HasAnswer (S.has self.new.store.now) result }
        ensures quiet { PrimMakesNoBits (prim_of what.now) → ◌≡◌ {A = ℕ} 0 0 }
    {
        read(caller, self.store, what, values)
    }
}
