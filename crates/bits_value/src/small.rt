ghost use Rattle.std.specs.Prelude.{◌≡◌, ◌≤◌, length};

use crate::{Bits, copy_bits};
use arrayvec::ArrayVec;
use std::marker::Model;

/// An owned list of at most 512 bits, which takes no memory of its own.
#[derive(Drop)]
pub struct SmallBits {
    bytes: ArrayVec<u8, 64>,
    len: u32,
}

impl Model for SmallBits {
    ghost use Rattle.std.specs.Prelude.{List, Bool, take, ◌≤◌, ◌*◌, length};
    ghost use Rattle.bits_value.specs.Bits.{all_bits};

    ghost Value = { List Bool };

    ghost view = { λ s. take s.len (all_bits s.bytes.items) };

    ghost invariant = { λ s. (s.len ≤ 512) × (s.len ≤ 8 * length s.bytes.items) };
}

impl SmallBits {
    /// A copy of the source's bits.
    pub fn of(source: Bits<'_>) -> SmallBits
        requires short { length source ≤ 512 }
        ensures { result ≡ source.entry }
    {
        let len = source.len();
        let mut bytes: ArrayVec<u8, 64> = ArrayVec::from([0u8; 64]);
        copy_bits(&mut bytes, 0, source);
        SmallBits { bytes, len }
    }

    /// The bits.
    pub fn bits(&self) -> Bits<'_>
        ensures is { result ≡ self.now }
        ensures short { length result ≤ 512 }
    {
        Bits::of(&self.bytes, 0, self.len)
    }

    /// A copy.
    pub fn copy(&self) -> SmallBits
        ensures { result ≡ self.now }
    {
        SmallBits::of(self.bits())
    }
}
