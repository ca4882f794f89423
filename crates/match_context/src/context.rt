//! A place in bits, which matching moves on.

ghost use Rattle.std.specs.Prelude.{◌≡◌, ◌+◌, ◌≤◌};
ghost use Rattle.bit_store.specs.Stores.{Keeps};
ghost use Rattle.match_context.specs.Contexts.{left, IsContext};

use bit_store::Store;

/// A place in the bits of a reference.
#[derive(Debug, Drop)]
pub struct Context<R> {
    pub of: R,
    /// The place, in bits from their first one.
    pub at: u32,
    /// How many bits there are.
    pub end: u32,
}

impl<R> Context<R> {
    /// The place before the first bit of a reference. The store notes that the reference is read from now on, and appends nothing to
    /// it in place.
    pub fn on<S: Store<R>>(store: &mut S, of: R) -> Context<R>
        requires { S.has store.old of }
        ensures keeps { Keeps S.shown S.has store.old store.new }
        ensures valid { IsContext (S.shown store.new) (S.has store.new) result }
        ensures left { left (S.shown store.new) result ≡ S.shown store.old of }
        ensures of { result.of ≡ of }
        ensures still { (other : R) → S.grows store.new of other → ⊥ }
    {
        store.still(&of);
        let end = store.look(&of).len();
        Context { of, at: 0, end }
    }

    /// How many bits are left.
    pub fn left(&self) -> u32
        requires { self.now.at ≤ self.now.end }
        ensures { result + self.now.at ≡ self.now.end }
    {
        self.end - self.at
    }
}
