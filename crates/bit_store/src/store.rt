ghost use Rattle.std.specs.Prelude.{◌≡◌, ◌+◌, ◌≤◌, ◌++◌, List, Bool, All, length, take, drop, IfOk, IfErr, OnErr};
ghost use Rattle.bits_value.specs.declared.TheConstants.{MAX_BITS};
ghost use Rattle.bit_store.specs.Pieces.{pieces_bits, IsInside, HasPiece};
ghost use Rattle.bit_store.specs.Stores.{Keeps, RoseBy, Refuses};

use crate::piece::Piece;
use bits_value::{Bits, Steps};
use std::alloc::AllocError;

/// Why no bitstring was made.
#[derive(Debug, Copy, Clone, PartialEq, Eq, Drop)]
pub enum StoreFault {
    /// It would have more bits than a bitstring may have.
    TooLong,
    NoMemory,
}

/// A store of bitstrings under references.
///
/// Each call keeps what every reference shows that the store has, refused or not.
pub trait Store<R> {
    /// The bits that a reference shows.
    ghost shown: { Self → R → List Bool };

    /// Whether it has this reference.
    ghost has: { Self → R → Type 0 };

    /// Whether what is appended to the second reference is written in place, behind bits that the first names too.
    ghost grows: { Self → R → R → Type 0 };

    /// The bits of a reference.
    fn look<'a>(&'a self, of: &'a R) -> Bits<'a>
        requires { has self.now of.now }
        ensures { result ≡ shown self.now of.now };

    /// A reference to a part of another's bits. Moves no bit. The error says that no further owner could be counted.
    fn part(&self, of: &R, off: u32, bits: u32) -> Result<R, AllocError>
        requires valid { has self.now of.now }
        requires inside { off + bits ≤ length (shown self.now of.now) }
        ensures valid { IfOk result (λ part. has self.now part) }
        ensures shows { IfOk result (λ part. shown self.now part ≡ take bits (drop off (shown self.now of.now))) };

    /// A new bitstring of these pieces in their order.
    fn fresh(&mut self, pieces: &[Piece<R>], steps: &mut Steps) -> Result<R, StoreFault>
        requires valid { All (HasPiece (has self.old)) pieces.now }
        requires inside { All (IsInside (shown self.old)) pieces.now }
        ensures keeps { Keeps shown has self.old self.new }
        ensures valid { IfOk result (λ made. has self.new made) }
        ensures shows { IfOk result (λ made. shown self.new made ≡ pieces_bits (shown self.old) pieces.now) }
        ensures moved { IfOk result (λ made. RoseBy (length (shown self.new made)) steps.old.moved steps.new.moved) }
        ensures refused { IfErr result (λ fault. Refuses (length (pieces_bits (shown self.old) pieces.now)) fault) }
        ensures unmoved { OnErr result (steps.new ≡ steps.old) };

    /// A bitstring of the bits of `to` and then these pieces in their order.
    fn append(&mut self, to: &R, pieces: &[Piece<R>], steps: &mut Steps) -> Result<R, StoreFault>
        requires has_to { has self.old to.now }
        requires valid { All (HasPiece (has self.old)) pieces.now }
        requires inside { All (IsInside (shown self.old)) pieces.now }
        ensures keeps { Keeps shown has self.old self.new }
        ensures valid { IfOk result (λ made. has self.new made) }
        ensures shows { IfOk result (λ made. shown self.new made ≡ shown self.old to.now ++ pieces_bits (shown self.old) pieces.now) }
        ensures moved { IfOk result (λ made. RoseBy (length (shown self.new made)) steps.old.moved steps.new.moved) }
        ensures refused { IfErr result (λ fault. Refuses (length (shown self.old to.now) + length (pieces_bits (shown self.old) pieces.now)) fault) }
        ensures unmoved { OnErr result (steps.new ≡ steps.old) };

    /// Notes that a reference is read from now on, so that it is no longer appended to in place. Takes no memory and moves no bit.
    fn still(&mut self, of: &R)
        requires { has self.old of.now }
        ensures keeps { Keeps shown has self.old self.new }
        ensures still { (other : R) → grows self.new of.now other → ⊥ };

    /// A reference that it has is no longer than a bitstring may be.
    ghost short: { (store : Self) (of : R) → has store of → length (shown store of) ≤ MAX_BITS };
}
