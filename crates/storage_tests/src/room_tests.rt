use bits_value::{Bits, Endian, MAX_BITS, Steps, order};
use std::alloc::Global;
use std::cmp::Ordering;
use std::test::Fail;
use write_room::{Room, RoomFault, appends_are_bounded};

#[derive(Clone, Copy)]
enum Act {
    Push(&'static [u8]),
    /// The number's lowest bits, so many.
    Number(i128, u32),
    /// From this bit on, so many of the room's own bits.
    Own(u32, u32),
    MakeRoom(u32),
}

/// What is done, what it answers, how many bits are written then, how many are spare, and how many were moved.
type Row = (Act, Result<(), RoomFault>, u32, u32, u64);

/// Each after the one before, in a room of 256 bytes in which 24 bits are written.
const ROWS: &[Row] = &[
    (Act::Push(&[9]), Ok(()), 32, 2_016, 8),
    (Act::Number(5, 4), Ok(()), 36, 2_012, 4),
    (Act::Own(8, 20), Ok(()), 56, 1_992, 20),
    (Act::Own(57, 0), Ok(()), 56, 1_992, 0),
    // up to the last spare bit, and one past it: twice 257 bytes
    (Act::Number(0, 1_992), Ok(()), 2_048, 0, 1_992),
    (Act::Number(1, 1), Ok(()), 2_049, 2_063, 2_049),
    (Act::MakeRoom(2_063), Ok(()), 2_049, 2_063, 0),
    // twice 515 bytes; what was written is copied, and nothing is added
    (Act::MakeRoom(2_064), Ok(()), 2_049, 6_191, 2_049),
    (
        Act::Number(0, MAX_BITS),
        Err(RoomFault::TooLong),
        2_049,
        6_191,
        0,
    ),
    (
        Act::MakeRoom(MAX_BITS - 2_048),
        Err(RoomFault::TooLong),
        2_049,
        6_191,
        0,
    ),
];

fn done(room: &mut Room, act: Act, steps: &mut Steps) -> Result<(), RoomFault> {
    match act {
        Act::Push(bytes) => push_bytes(room, bytes, steps),
        Act::Number(value, bits) => room.push_number(value, bits, Endian::Big, steps),
        Act::Own(off, bits) => {
            if off <= room.used() && bits <= room.used() - off {
                room.push_own(off, bits, steps)
            } else {
                Ok(())
            }
        }
        Act::MakeRoom(count) => room.make_room(count, steps),
    }
}

fn push_bytes(room: &mut Room, bytes: &[u8], steps: &mut Steps) -> Result<(), RoomFault> {
    if bytes.len() > 256 {
        return Err(RoomFault::TooLong);
    }
    room.push(Bits::of(bytes, 0, 8 * bytes.len() as u32), steps)
}

fn holds(room: &mut Room, row: &Row) -> bool {
    let mut steps = Steps::new();
    let answer = done(room, row.0, &mut steps);
    answer == row.1 && room.used() == row.2 && room.spare() == row.3 && steps.moved == row.4
}

fn shows(bits: Bits<'_>, bytes: &[u8], len: u32) -> bool {
    len as usize <= 8 * bytes.len().min(256)
        && order(bits, Bits::of(bytes, 0, len)) == Ordering::Equal
}

#[test]
fn a_room_grows_to_twice_what_it_has(rt: HostRuntime) -> Result<(), Fail> {
    let alloc = rt.alloc();
    let mut steps = Steps::new();
    let mut room = Room::from_bits(alloc, Bits::of(&[1u8, 2, 3], 0, 24), 8, &mut steps)?;
    assert_eq!(rt; (room.used(), room.spare(), steps.moved), (24, 2_024, 24));
    for row in ROWS {
        assert!(rt; holds(&mut room, row), "{} bits", row.2);
    }
    let look = room.look();
    assert!(rt; look.len() == 2_049);
    // <<1,2,3,9,5:4>>, then its bits from the 8th on: <<2,3,0:4>>
    assert!(rt; shows(look.part(0, 56), &[1, 2, 3, 9, 0x50, 0x20, 0x30], 56));
    assert_eq!(rt; look.uint(56, 1_993), Some(1));
    Ok(())
}

#[test]
fn a_room_of_a_length_has_whole_bytes(rt: HostRuntime) -> Result<(), Fail> {
    let mut steps = Steps::new();
    let mut room = Room::with_len(rt.alloc(), 20)?;
    assert_eq!(rt; (room.used(), room.spare()), (0, 24));
    room.write(Bits::of(&[255u8], 0, 8), &mut steps);
    room.write_number(1, 4, Endian::Big, &mut steps);
    assert!(rt; room.used() == 12 && room.spare() == 12);
    room.write_own(2, 4, &mut steps);
    assert_eq!(rt; (room.used(), room.spare(), steps.moved), (16, 8, 16));
    // the least room that grows has 256 bytes
    room.push_number(-1, 9, Endian::Little, &mut steps)?;
    assert_eq!(rt; (room.used(), room.spare(), steps.moved), (25, 2_023, 41));
    assert!(rt; shows(room.into_frozen().bits(), &[255, 0x1F, 255, 0x80], 25));
    appends_are_bounded();
    Ok(())
}
