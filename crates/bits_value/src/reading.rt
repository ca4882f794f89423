//! Numbers gathered from bits: by whole words where there are 64 bits, else by the bits of one byte at a time.

ghost use Rattle.std.specs.Prelude.{◌≡◌, ◌+◌, ◌*◌, ◌%◌, ◌<◌, ◌≤◌, ◌^◌, ◌↔◌, length, IsTrue};
ghost use Rattle.bits_value.specs.Bits.{bit_list};
ghost use Rattle.bits_value.specs.Number.{natural, reordered};
ghost use Rattle.bits_value.specs.Parts.{fill};

/// The number of `count` bits that lie in one byte.
pub fn window(bytes: &[u8], at: usize, count: usize) -> u8
    requires one_byte { at % 8 + count ≤ 8 }
    requires inside { at + count ≤ 8 * length bytes.now }
    requires some { 0 < count }
    ensures { result ≡ natural (bit_list bytes.now at count) }
{
    let byte = bytes[at / 8] as u32;
    ((byte >> (8 - at % 8 - count)) & ((1u32 << count) - 1)) as u8
}

/// How many of `rest` bits from `at` on lie in the byte of `at`.
pub fn reach(at: usize, rest: usize) -> usize
    requires some { 0 < rest }
    ensures one_byte { at % 8 + result ≤ 8 }
    ensures some { 0 < result }
    ensures within { result ≤ rest }
{
    (8 - at % 8).min(rest)
}

/// The number of at most 64 bits from `start` on, a byte's bits at a time.
fn gather_bytes(bytes: &[u8], start: usize, count: usize) -> u64
    requires inside { start + count ≤ 8 * length bytes.now }
    requires fits { start + count < 2 ^ 40 }
    requires narrow { count ≤ 64 }
    ensures { result ≡ natural (bit_list bytes.now start count) }
{
    let mut sum: u64 = 0;
    let mut done: usize = 0;
    while done < count {
        let step = reach(start + done, count - done);
        sum = (sum << step) | window(bytes, start + done, step) as u64;
        done += step;
    }
    sum
}

/// The number of eight whole bytes.
fn whole_word(bytes: &[u8], first: usize) -> u64
    requires inside { first + 8 ≤ length bytes.now }
    ensures { result ≡ natural (bit_list bytes.now (8 * first) 64) }
{
    let mut sum: u64 = 0;
    for k in 0..8usize {
        sum = (sum << 8) | bytes[first + k] as u64;
    }
    sum
}

/// The number of 64 bits from `start` on.
fn word(bytes: &[u8], start: usize) -> u64
    requires inside { start + 64 ≤ 8 * length bytes.now }
    requires fits { start < 2 ^ 40 }
    ensures { result ≡ natural (bit_list bytes.now start 64) }
{
    let first = start / 8;
    let skip = start % 8;
    let high = whole_word(bytes, first);
    if skip == 0 {
        high
    } else {
        (high << skip) | (bytes[first + 8] as u64 >> (8 - skip))
    }
}

/// The number of at most 64 bits from `start` on.
pub fn chunk(bytes: &[u8], start: usize, count: usize) -> u64
    requires inside { start + count ≤ 8 * length bytes.now }
    requires fits { start + count < 2 ^ 40 }
    requires narrow { count ≤ 64 }
    ensures { result ≡ natural (bit_list bytes.now start count) }
{
    if count == 64 {
        word(bytes, start)
    } else {
        gather_bytes(bytes, start, count)
    }
}

/// The number of at most 128 bits from `start` on.
pub fn gather(bytes: &[u8], start: usize, count: usize) -> u128
    requires inside { start + count ≤ 8 * length bytes.now }
    requires fits { start + count < 2 ^ 40 }
    requires narrow { count ≤ 128 }
    ensures { result ≡ natural (bit_list bytes.now start count) }
{
    let low = count.min(64);
    let high = count - low;
    (chunk(bytes, start, high) as u128) << low | chunk(bytes, start + high, low) as u128
}

/// The little-endian number of at most 128 bits from `start` on: a group of eight bits at a time.
pub fn gather_little(bytes: &[u8], start: usize, count: usize) -> u128
    requires inside { start + count ≤ 8 * length bytes.now }
    requires fits { start + count < 2 ^ 40 }
    requires narrow { count ≤ 128 }
    ensures { result ≡ natural (reordered (bit_list bytes.now start count)) }
{
    let mut sum: u128 = 0;
    let mut done: usize = 0;
    while done < count {
        let step = (count - done).min(8);
        sum = (gather_bytes(bytes, start + done, step) as u128) << done | sum;
        done += step;
    }
    sum
}

/// The number of `count` bits that are all `bit`.
fn filled(count: usize, bit: bool) -> u64
    requires { count ≤ 64 }
    ensures { result ≡ fill bit count }
{
    if bit && count > 0 {
        ((1u64 << (count - 1)) - 1) * 2 + 1
    } else {
        0
    }
}

/// Whether the `count` bits from `start` on are all `bit`.
pub fn all_are(bytes: &[u8], start: usize, count: usize, bit: bool) -> bool
    requires inside { start + count ≤ 8 * length bytes.now }
    requires fits { start + count < 2 ^ 40 }
    ensures { IsTrue result ↔ natural (bit_list bytes.now start count) ≡ fill bit count }
{
    let mut done: usize = 0;
    while done < count {
        let step = (count - done).min(64);
        if chunk(bytes, start + done, step) != filled(step, bit) {
            return false;
        }
        done += step;
    }
    true
}
