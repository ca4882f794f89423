ghost use Rattle.std.specs.Prelude.{◌≡◌, ◌+◌, ◌≤◌, length, take, drop, IfOk};
ghost use Rattle.bits_value.specs.declared.TheConstants.{MAX_BITS};

use bits_value::{Bits, Frozen};
use shares::Share;
use std::alloc::{AllocError, Global};
use std::marker::Model;
use std::sync::Arc;

/// A part of shared bits that no call changes, which contracts see as its list of bits.
#[derive(Drop)]
pub struct Window {
    bits: Arc<Frozen>,
    off: u32,
    len: u32,
}

impl Model for Window {
    ghost use Rattle.std.specs.Prelude.{List, Bool, take, drop, ◌+◌, ◌≤◌, length};
    ghost use Rattle.bits_value.specs.declared.TheConstants.{MAX_BITS};

    ghost Value = { List Bool };

    ghost view = { λ w. take w.len (drop w.off w.bits.value) };

    ghost invariant = { λ w. (w.off + w.len ≤ length w.bits.value) × (length w.bits.value ≤ MAX_BITS) };
}

impl Window {
    /// All of these bits, `len` in number.
    pub fn whole(alloc: Global, bits: Frozen, len: u32) -> Result<Window, AllocError>
        requires size { len ≡ length bits }
        requires short { len ≤ MAX_BITS }
        ensures { IfOk result (λ window. window ≡ bits) }
    {
        Ok(Window {
            bits: Arc::new(alloc, bits)?,
            off: 0,
            len,
        })
    }

    /// How many bits.
    pub fn len(&self) -> u32
        ensures is { result ≡ length self.now }
        ensures short { result ≤ MAX_BITS }
    {
        self.len
    }

    /// The bits.
    pub fn bits(&self) -> Bits<'_>
        ensures { result ≡ self.now }
    {
        self.bits.bits().part(self.off, self.len)
    }

    /// The `bits` bits from `off` on, shared. The error says that no further owner could be counted.
    pub fn part(&self, off: u32, bits: u32) -> Result<Window, AllocError>
        requires { off + bits ≤ length self.now }
        ensures { IfOk result (λ part. part ≡ take bits (drop off self.now)) }
    {
        Ok(Window {
            bits: Arc::try_clone(&self.bits)?,
            off: self.off + off,
            len: bits,
        })
    }
}

impl Share for Window {
    fn share(&self) -> Result<Window, AllocError> {
        Ok(Window {
            bits: Arc::try_clone(&self.bits)?,
            off: self.off,
            len: self.len,
        })
    }
}
