use bits_value::{
    Bits, Endian, Frozen, Sign, SmallBits, Steps, copy_bits, copy_own, number_reads_back,
    one_spelling, order, put,
};
use std::cmp::Ordering;
use std::test::Fail;

#[test]
fn numbers_are_written_in_their_place(rt: HostRuntime) {
    // the manual's example of a little-endian number of 12 bits: <<16#ABC:12/little>> is <<188,10:4>>
    let rows = [
        (0u32, 12u32, 0xABCi128, Endian::Little, [188u8, 0xAF, 255]),
        (0, 12, 0xABC, Endian::Big, [0xAB, 0xCF, 255]),
        (4, 12, -1, Endian::Big, [255, 255, 255]),
        (4, 12, 0, Endian::Big, [0xF0, 0, 255]),
        (3, 9, 0, Endian::Little, [0xE0, 0x0F, 255]),
        (20, 4, 0x105, Endian::Big, [255, 255, 0xF5]),
        (0, 24, -2, Endian::Little, [254, 255, 255]),
        (8, 0, 5, Endian::Big, [255, 255, 255]),
    ];
    for (off, bits, value, endian, want) in rows {
        let mut target = [255u8; 3];
        put(&mut target, off, bits, value, endian);
        assert_eq!(rt; target, want, "at {off}");
    }
    number_reads_back(-3, 3, Sign::Signed, Endian::Little);
    one_spelling(-3, 3, Endian::Big);
}

#[test]
fn only_numbers_past_the_bound_are_none(rt: HostRuntime) {
    let mut bytes = [0u8; 25];
    bytes[24] = 1;
    assert_eq!(rt; Bits::of(&bytes, 0, 200).uint(0, 200), Some(1));
    bytes[9] = 0x80;
    let high = Bits::of(&bytes, 0, 200);
    assert_eq!(rt; high.uint(0, 200), None);
    assert!(rt; !high.same_number(0, 200, Sign::Unsigned, Endian::Big, 1));
    assert_eq!(rt; high.uint(73, 127), Some(1));
    assert_eq!(rt;
        high.int(72, 128, Sign::Signed, Endian::Big),
        Some(i128::MIN + 1)
    );
    assert_eq!(rt; high.int(71, 129, Sign::Signed, Endian::Big), None);
}

#[test]
fn bitstrings_are_ordered_bit_by_bit(rt: HostRuntime) {
    let bytes = [0x12u8, 0x34, 0x12, 0x34, 0x13, 0];
    let rows = [
        (0u32, 8u32, 0u32, 8u32, Ordering::Equal),
        (0, 16, 16, 16, Ordering::Equal),
        (0, 24, 16, 24, Ordering::Less),
        (16, 24, 0, 24, Ordering::Greater),
        (0, 15, 16, 16, Ordering::Less),
        (0, 16, 16, 9, Ordering::Greater),
        (3, 0, 5, 0, Ordering::Equal),
        (3, 0, 5, 1, Ordering::Less),
        (3, 9, 19, 9, Ordering::Equal),
        (3, 1, 0, 21, Ordering::Greater),
    ];
    for (at, len, other, other_len, want) in rows {
        assert!(rt; at <= 16 && len <= 24 && other <= 19 && other_len <= 24);
        assert!(rt;
            order(
                Bits::of(&bytes, at, len),
                Bits::of(&bytes, other, other_len)
            ) == want,
            "{at} {len}"
        );
    }
}

#[test]
fn copies_have_the_bits_of_the_first(rt: HostRuntime) -> Result<(), Fail> {
    let bytes = [
        0x9Au8, 0x01, 0xFF, 0x80, 0x3C, 0xE7, 0x00, 0x55, 0xAA, 0x12, 0x34, 0x56,
    ];
    let mut target = [0xC5u8; 12];
    copy_bits(&mut target, 9, Bits::of(&bytes, 3, 70));
    assert!(rt; order(Bits::of(&target, 9, 70), Bits::of(&bytes, 3, 70)) == Ordering::Equal);
    assert!(rt; order(Bits::of(&target, 0, 9), Bits::of(&[0xC5u8; 2], 0, 9)) == Ordering::Equal);
    let mut own = bytes;
    copy_own(&mut own, 50, 3, 40);
    assert!(rt; order(Bits::of(&own, 50, 40), Bits::of(&bytes, 3, 40)) == Ordering::Equal);
    let small = SmallBits::of(Bits::of(&bytes, 3, 70));
    assert!(rt; order(small.copy().bits(), small.bits()) == Ordering::Equal);
    let frozen = Frozen::of(bytes.to_vec(rt.alloc())?, 90);
    assert!(rt; order(frozen.bits(), Bits::of(&bytes, 0, 90)) == Ordering::Equal);
    let mut steps = Steps::new();
    steps.add(12);
    steps.add(30);
    assert_eq!(rt; steps.moved, 42);
    Ok(())
}
