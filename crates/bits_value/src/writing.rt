//! Bits written into bytes, a byte's part at a time.

ghost use Rattle.std.specs.Prelude.{◌≡◌, ◌+◌, ◌-◌, ◌*◌, ◌/◌, ◌%◌, ◌<◌, ◌≤◌, ◌^◌, ◌++◌, length, take, drop};
ghost use Rattle.std.specs.Int.{int_shr};
ghost use Rattle.bits_value.specs.Bits.{all_bits};
ghost use Rattle.bits_value.specs.Number.{spell, big_bits, residue};
ghost use Rattle.bits_value.specs.declared.Endian.TheVariants.{Big, Little};
ghost use lib.Seq.{paste};

use crate::Endian;
use crate::reading::reach;

/// Puts `count` bits, the number `piece`, over the byte's bits from `skip` on.
fn blend(byte: u8, skip: usize, count: usize, piece: u8) -> u8
    requires one_byte { skip + count ≤ 8 }
    requires some { 0 < count }
    requires fits { piece < 2 ^ count }
    ensures { result ≡ (byte / 2 ^ (8 - skip) * 2 ^ count + piece) * 2 ^ (8 - skip - count) + byte % 2 ^ (8 - skip - count) }
{
    let low = 8 - skip - count;
    let high = (byte as u32 >> (8 - skip)) << count | piece as u32;
    (high << low | byte as u32 & ((1u32 << low) - 1)) as u8
}

/// Writes `count` bits, the number `piece`, into one byte.
pub fn set_window(target: &mut [u8], at: usize, count: usize, piece: u8)
    requires one_byte { at % 8 + count ≤ 8 }
    requires some { 0 < count }
    requires inside { at + count ≤ 8 * length target.old }
    requires fits { piece < 2 ^ count }
    ensures { all_bits target.new ≡ paste (all_bits target.old) at (big_bits count piece) count }
{
    target[at / 8] = blend(target[at / 8], at % 8, count, piece);
}

/// The lowest `count` bits of the value without its lowest `skip` bits.
fn piece_at(value: i128, skip: usize, count: usize) -> u8
    requires { count ≤ 8 }
    ensures { result ≡ residue count (int_shr value skip) }
{
    let rest = value >> skip.min(127);
    (rest.cast_unsigned() & ((1u128 << count) - 1)) as u8
}

/// Writes the value's spelling, big-endian.
fn put_big(target: &mut [u8], off: usize, bits: usize, value: i128)
    requires inside { off + bits ≤ 8 * length target.old }
    requires fits { off + bits < 2 ^ 40 }
    ensures { all_bits target.new ≡ paste (all_bits target.old) off (spell bits value Big) bits }
{
    let mut done: usize = 0;
    while done < bits {
        let step = reach(off + done, bits - done);
        let piece = piece_at(value, bits - done - step, step);
        set_window(target, off + done, step, piece);
        done += step;
    }
}

/// Writes the value's spelling, little-endian: the groups of eight bits with the lowest weights first.
fn put_little(target: &mut [u8], off: usize, bits: usize, value: i128)
    requires inside { off + bits ≤ 8 * length target.old }
    requires fits { off + bits < 2 ^ 40 }
    ensures { all_bits target.new ≡ paste (all_bits target.old) off (spell bits value Little) bits }
{
    let mut done: usize = 0;
    while done < bits {
        let step = (bits - done).min(8);
        put_big(target, off + done, step, value >> done.min(127));
        done += step;
    }
}

/// Writes the value modulo 2^`bits` into the `bits` bits from `off` on, and leaves all other bits.
///
/// Where `bits` is more than the value needs, a negative value is written in two's complement.
pub fn put(target: &mut [u8], off: u32, bits: u32, value: i128, endian: Endian)
    requires inside { off + bits ≤ 8 * length target.old }
    ensures { all_bits target.new ≡ take off (all_bits target.old) ++ (spell bits value endian ++ drop (off + bits) (all_bits target.old)) }
{
    match endian {
        Endian::Big => put_big(target, off as usize, bits as usize, value),
        Endian::Little => put_little(target, off as usize, bits as usize, value),
    }
}
