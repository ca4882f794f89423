ghost use Rattle.std.specs.Prelude.{◌≡◌, ◌*◌, ◌≤◌, length};
ghost use Rattle.bits_value.specs.Bits.{bit_list};

use crate::Bits;
use std::marker::Model;

/// An owned list of bits that no call changes.
#[derive(Drop)]
pub struct Frozen {
    bytes: Vec<u8>,
    len: u32,
}

impl Model for Frozen {
    ghost use Rattle.std.specs.Prelude.{List, Bool, ◌*◌, ◌≤◌, length};
    ghost use Rattle.bits_value.specs.Bits.{bit_list};

    ghost Value = { List Bool };

    ghost view = { λ f. bit_list f.bytes.items 0 f.len };

    ghost invariant = { λ f. f.len ≤ 8 * length f.bytes.items };
}

impl Frozen {
    /// The first `len` bits of the bytes. Takes no memory.
    pub fn of(bytes: Vec<u8>, len: u32) -> Frozen
        requires inside { len ≤ 8 * length bytes.items }
        ensures { result ≡ bit_list bytes.items 0 len }
    {
        Frozen { bytes, len }
    }

    /// The bits.
    pub fn bits(&self) -> Bits<'_>
        ensures { result ≡ self.now }
    {
        Bits::of(self.bytes.as_slice(), 0, self.len)
    }
}
