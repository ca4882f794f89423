ghost use Rattle.std.specs.Prelude.{◌≡◌, ◌+◌, ◌*◌, ◌<◌, ◌≤◌, ◌^◌, ◌++◌, ◌↔◌, IsTrue, pos, length, slice_index_or, take, drop, false};
ghost use Rattle.std.specs.Ordering.{bool_cmp};
ghost use Rattle.std.specs.Cmp.Lexicographic.{slice_cmp};
ghost use Rattle.bits_value.specs.Bits.{bit_list, all_bits};
ghost use Rattle.bits_value.specs.Number.{natural, number, bounded};

use crate::copying::copy;
use crate::numbers::bounded_number;
use crate::ordering::order_runs;
use crate::{Endian, Sign};
use std::cmp::Ordering;
use std::marker::Model;

/// A borrowed list of bits: some bits of a slice of bytes, of any offset and length.
#[derive(Drop)]
pub struct Bits<'a> {
    bytes: &'a [u8],
    off: usize,
    len: u32,
}

impl<'a> Model for Bits<'a> {
    ghost use Rattle.std.specs.Prelude.{List, Bool, ◌+◌, ◌*◌, ◌<◌, ◌≤◌, ◌^◌, length};
    ghost use Rattle.bits_value.specs.Bits.{bit_list};

    ghost Value = { List Bool };

    ghost view = { λ b. bit_list b.bytes.now b.off b.len };

    ghost invariant = { λ b. (b.off + b.len ≤ 8 * length b.bytes.now) × (b.off + b.len < 2 ^ 33) };
}

impl<'a> Bits<'a> {
    /// The `len` bits of the bytes from bit `off` on.
    pub fn of(bytes: &'a [u8], off: u32, len: u32) -> Bits<'a>
        requires inside { off + len ≤ 8 * length bytes.now }
        ensures is { result ≡ bit_list bytes.now off len }
        ensures size { length result ≡ len }
    {
        Bits {
            bytes,
            off: off as usize,
            len,
        }
    }

    /// The number of bits.
    pub fn len(&self) -> u32
        ensures { result ≡ length self.now }
    {
        self.len
    }

    /// Bit `i`, counted from the front.
    pub fn get(&self, i: u32) -> bool
        requires inside { i < length self.now }
        ensures { result ≡ slice_index_or self.now i false }
    {
        let place = self.off + i as usize;
        (self.bytes[place / 8] >> (7 - place % 8)) & 1 == 1
    }

    /// The `bits` bits from `off` on.
    pub fn part(&self, off: u32, bits: u32) -> Bits<'a>
        requires inside { off + bits ≤ length self.now }
        ensures is { result ≡ take bits (drop off self.now) }
        ensures size { length result ≡ bits }
    {
        Bits {
            bytes: self.bytes,
            off: self.off + off as usize,
            len: bits,
        }
    }

    /// The unsigned big-endian number of the `bits` bits from `off` on; None exactly where it is above 2^127 - 1.
    pub fn uint(&self, off: u32, bits: u32) -> Option<i128>
        requires inside { off + bits ≤ length self.now }
        ensures { result ≡ bounded (pos (natural (take bits (drop off self.now)))) }
    {
        self.int(off, bits, Sign::Unsigned, Endian::Big)
    }

    /// The number of the `bits` bits from `off` on; None exactly where it is outside -2^127 to 2^127 - 1.
    pub fn int(&self, off: u32, bits: u32, sign: Sign, endian: Endian) -> Option<i128>
        requires inside { off + bits ≤ length self.now }
        ensures { result ≡ bounded (number (take bits (drop off self.now)) sign endian) }
    {
        bounded_number(
            self.bytes,
            self.off + off as usize,
            bits as usize,
            sign,
            endian,
        )
    }

    /// Whether the `bits` bits from `off` on, of any length, have this number.
    pub fn same_number(&self, off: u32, bits: u32, sign: Sign, endian: Endian, value: i128) -> bool
        requires inside { off + bits ≤ length self.now }
        ensures { IsTrue result ↔ number (take bits (drop off self.now)) sign endian ≡ value }
    {
        match self.int(off, bits, sign, endian) {
            Some(found) => found == value,
            None => false,
        }
    }
}

/// The order of two bitstrings: that of their first bits that differ, else a prefix is smaller
/// (Erlang reference manual, "Expressions", term comparisons: bit by bit).
pub fn order(left: Bits<'_>, right: Bits<'_>) -> Ordering
    ensures { result ≡ slice_cmp bool_cmp left.entry right.entry }
{
    let shared = left.len.min(right.len) as usize;
    order_runs(left.bytes, left.off, right.bytes, right.off, shared).then(left.len.cmp(&right.len))
}

/// Copies the source's bits to bit `off`, and leaves all other bits.
pub fn copy_bits(target: &mut [u8], off: u32, source: Bits<'_>)
    requires inside { off + length source ≤ 8 * length target.old }
    ensures { all_bits target.new ≡ take off (all_bits target.old) ++ (source.entry ++ drop (off + length source.entry) (all_bits target.old)) }
{
    copy(
        target,
        off as usize,
        source.bytes,
        source.off,
        source.len as usize,
    );
}
