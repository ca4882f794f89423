//! Numbers of any length, where they are within an `i128`.

ghost use Rattle.std.specs.Prelude.{◌≡◌, ◌+◌, ◌*◌, ◌<◌, ◌≤◌, ◌^◌, length};
ghost use Rattle.bits_value.specs.Bits.{bit_list};
ghost use Rattle.bits_value.specs.Number.{natural, number, bounded};
ghost use Rattle.bits_value.specs.Parts.{sign_value, extended};
ghost use Rattle.bits_value.specs.declared.Sign.TheVariants.{Signed};

use crate::reading::{all_are, gather, gather_little};
use crate::{Endian, Sign};

/// The number in two's complement whose `count` bits have the unsigned number `low`.
fn with_sign_bit(count: usize, low: u128) -> i128
    requires narrow { count ≤ 128 }
    requires fits { low < 2 ^ count }
    ensures { result ≡ sign_value Signed count low }
{
    if count == 0 {
        return 0;
    }
    let half = 1u128 << (count - 1);
    if low < half {
        low as i128
    } else {
        (u128::MAX - ((half - 1) * 2 + 1 - low)).cast_signed()
    }
}

/// The number whose `count` bits have the unsigned number `low`; None exactly where it is above 2^127 - 1.
fn value_of(sign: Sign, count: usize, low: u128) -> Option<i128>
    requires narrow { count ≤ 128 }
    requires fits { low < 2 ^ count }
    ensures { result ≡ bounded (sign_value sign count low) }
{
    match sign {
        Sign::Signed => Some(with_sign_bit(count, low)),
        Sign::Unsigned => {
            if low < 1u128 << 127 {
                Some(low as i128)
            } else {
                None
            }
        }
    }
}

/// The value of a number's lowest bits, where the `count` bits above them, those from `start` on, repeat its sign.
fn widened(low: Option<i128>, bytes: &[u8], start: usize, count: usize) -> Option<i128>
    requires inside { start + count ≤ 8 * length bytes.now }
    requires fits { start + count < 2 ^ 40 }
    ensures { result ≡ extended low count (natural (bit_list bytes.now start count)) }
{
    match low {
        Some(value) => {
            if all_are(bytes, start, count, value < 0) {
                Some(value)
            } else {
                None
            }
        }
        None => None,
    }
}

/// The number of `count` bits from `start` on, of any count; None exactly where it is outside -2^127 to 2^127 - 1.
pub fn bounded_number(
    bytes: &[u8],
    start: usize,
    count: usize,
    sign: Sign,
    endian: Endian,
) -> Option<i128>
    requires inside { start + count ≤ 8 * length bytes.now }
    requires fits { start + count < 2 ^ 40 }
    ensures { result ≡ bounded (number (bit_list bytes.now start count) sign endian) }
{
    let low = count.min(128);
    let high = count - low;
    match endian {
        Endian::Big => {
            let value = value_of(sign, low, gather(bytes, start + high, low));
            widened(value, bytes, start, high)
        }
        Endian::Little => {
            let value = value_of(sign, low, gather_little(bytes, start, low));
            widened(value, bytes, start + low, high)
        }
    }
}
