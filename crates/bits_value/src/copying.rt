//! Runs of bits copied from bytes to bytes: whole bytes of the target at once, and the bits at the ends by themselves.

ghost use Rattle.std.specs.Prelude.{◌≡◌, ◌+◌, ◌-◌, ◌*◌, ◌/◌, ◌%◌, ◌<◌, ◌≤◌, ◌^◌, ◌++◌, length, take, drop};
ghost use Rattle.bits_value.specs.Bits.{bit_list, all_bits};
ghost use lib.Seq.{paste};

use crate::reading::{reach, window};
use crate::writing::set_window;

/// Copies `count` bits, a byte's bits at a time.
fn copy_ends(target: &mut [u8], off: usize, source: &[u8], from: usize, count: usize)
    requires inside { off + count ≤ 8 * length target.old }
    requires fits { off + count < 2 ^ 40 }
    requires there { from + count ≤ 8 * length source.now }
    requires near { from + count < 2 ^ 40 }
    ensures { all_bits target.new ≡ paste (all_bits target.old) off (bit_list source.now from count) count }
{
    let mut done: usize = 0;
    while done < count {
        let step = reach(off + done, reach(from + done, count - done));
        set_window(target, off + done, step, window(source, from + done, step));
        done += step;
    }
}

/// The eight bits from bit `skip` of `left` on, which end in `right`.
fn joined(left: u8, right: u8, skip: usize) -> u8
    requires some { 0 < skip }
    requires one_byte { skip < 8 }
    ensures { result ≡ left % 2 ^ (8 - skip) * 2 ^ skip + right / 2 ^ (8 - skip) }
{
    (left << skip) | (right >> (8 - skip))
}

/// Copies `count` whole bytes of the target from bits that begin within a byte.
fn copy_shifted(target: &mut [u8], off: usize, source: &[u8], from: usize, count: usize)
    requires aligned { off % 8 ≡ 0 }
    requires shifted { 0 < from % 8 }
    requires inside { off + 8 * count ≤ 8 * length target.old }
    requires fits { off + 8 * count < 2 ^ 40 }
    requires there { from + 8 * count ≤ 8 * length source.now }
    requires near { from + 8 * count < 2 ^ 40 }
    ensures { all_bits target.new ≡ paste (all_bits target.old) off (bit_list source.now from (8 * count)) (8 * count) }
{
    let skip = from % 8;
    let first = from / 8;
    let start = off / 8;
    for i in 0..count {
        target[start + i] = joined(source[first + i], source[first + i + 1], skip);
    }
}

/// Copies `count` whole bytes of the target.
fn copy_bytes(target: &mut [u8], off: usize, source: &[u8], from: usize, count: usize)
    requires aligned { off % 8 ≡ 0 }
    requires inside { off + 8 * count ≤ 8 * length target.old }
    requires fits { off + 8 * count < 2 ^ 40 }
    requires there { from + 8 * count ≤ 8 * length source.now }
    requires near { from + 8 * count < 2 ^ 40 }
    ensures { all_bits target.new ≡ paste (all_bits target.old) off (bit_list source.now from (8 * count)) (8 * count) }
{
    if from % 8 == 0 {
        let start = off / 8;
        let first = from / 8;
        target[start..start + count].copy_from_slice(&source[first..first + count]);
    } else {
        copy_shifted(target, off, source, from, count);
    }
}

/// Copies `count` bits of the source from `from` on, and leaves all other bits of the target.
pub fn copy(target: &mut [u8], off: usize, source: &[u8], from: usize, count: usize)
    requires inside { off + count ≤ 8 * length target.old }
    requires fits { off + count < 2 ^ 40 }
    requires there { from + count ≤ 8 * length source.now }
    requires near { from + count < 2 ^ 40 }
    ensures { all_bits target.new ≡ paste (all_bits target.old) off (bit_list source.now from count) count }
{
    let head = ((8 - off % 8) % 8).min(count);
    copy_ends(target, off, source, from, head);
    let whole = (count - head) / 8;
    if whole == 0 {
        copy_ends(target, off + head, source, from + head, count - head);
    } else {
        copy_rest(target, off + head, source, from + head, count - head);
    }
}

/// Copies `count` bits to the beginning of a byte.
fn copy_rest(target: &mut [u8], off: usize, source: &[u8], from: usize, count: usize)
    requires aligned { off % 8 ≡ 0 }
    requires inside { off + count ≤ 8 * length target.old }
    requires fits { off + count < 2 ^ 40 }
    requires there { from + count ≤ 8 * length source.now }
    requires near { from + count < 2 ^ 40 }
    ensures { all_bits target.new ≡ paste (all_bits target.old) off (bit_list source.now from count) count }
{
    let whole = count / 8;
    copy_bytes(target, off, source, from, whole);
    copy_ends(target, off + 8 * whole, source, from + 8 * whole, count % 8);
}

/// Copies `bits` of the target's own bits from `from` on to `off`, which is not before their end, and leaves all other bits.
pub fn copy_own(target: &mut [u8], off: u32, from: u32, bits: u32)
    requires inside { off + bits ≤ 8 * length target.old }
    requires before { from + bits ≤ off }
    ensures { all_bits target.new ≡ take off (all_bits target.old) ++ (take bits (drop from (all_bits target.old)) ++ drop (off + bits) (all_bits target.old)) }
{
    copy_own_run(target, off as usize, from as usize, bits as usize);
}

/// The same, a byte's bits at a time.
fn copy_own_ends(target: &mut [u8], off: usize, from: usize, count: usize)
    requires inside { off + count ≤ 8 * length target.old }
    requires fits { off + count < 2 ^ 40 }
    requires before { from + count ≤ off }
    ensures { all_bits target.new ≡ paste (all_bits target.old) off (bit_list target.old from count) count }
{
    let mut done: usize = 0;
    while done < count {
        let step = reach(off + done, reach(from + done, count - done));
        let piece = window(target, from + done, step);
        set_window(target, off + done, step, piece);
        done += step;
    }
}

/// The same, with whole bytes of the target at once.
fn copy_own_run(target: &mut [u8], off: usize, from: usize, count: usize)
    requires inside { off + count ≤ 8 * length target.old }
    requires fits { off + count < 2 ^ 40 }
    requires before { from + count ≤ off }
    ensures { all_bits target.new ≡ paste (all_bits target.old) off (bit_list target.old from count) count }
{
    let head = ((8 - off % 8) % 8).min(count);
    copy_own_ends(target, off, from, head);
    let rest = count - head;
    if rest > 0 {
        let (source, target) = target.split_at_mut((off + head) / 8);
        copy_rest(target, 0, source, from + head, rest);
    }
}
