//! The order of bitstrings.

ghost use Rattle.std.specs.Prelude.{◌≡◌, ◌+◌, ◌*◌, ◌<◌, ◌≤◌, ◌^◌, length};
ghost use Rattle.std.specs.Ordering.{bool_cmp};
ghost use Rattle.std.specs.Cmp.Lexicographic.{slice_cmp};
ghost use Rattle.bits_value.specs.Bits.{bit_list};

use crate::reading::chunk;
use std::cmp::Ordering;

/// The order of two runs of `count` bits: that of their first bits that differ.
pub fn order_runs(
    left: &[u8],
    left_start: usize,
    right: &[u8],
    right_start: usize,
    count: usize,
) -> Ordering
    requires left_inside { left_start + count ≤ 8 * length left.now }
    requires left_fits { left_start + count < 2 ^ 40 }
    requires right_inside { right_start + count ≤ 8 * length right.now }
    requires right_fits { right_start + count < 2 ^ 40 }
    ensures { result ≡ slice_cmp bool_cmp (bit_list left.now left_start count) (bit_list right.now right_start count) }
{
    let mut done: usize = 0;
    while done < count {
        let step = (count - done).min(64);
        let first = chunk(left, left_start + done, step);
        let second = chunk(right, right_start + done, step);
        if first != second {
            return first.cmp(&second);
        }
        done += step;
    }
    Ordering::Equal
}
