ghost use Rattle.std.specs.Prelude.{All, IfOk};
ghost use Rattle.off_heap.specs.Cells.{Valid};

use crate::given::Given::{Bytes, Copied, Number};
use crate::given::{Call, Fault, Row, made_by, named, result_of, shows};
use bit_store::{Piece, StoreFault};
use bits_value::{Endian, MAX_BITS, Steps};
use off_heap::{BitRef, Heap, accumulators_move_few};
use std::alloc::Global;
use std::test::Fail;

/// Rows, calls after them that are refused as too long, and how many bits the rows move together.
struct Table {
    name: &'static str,
    rows: &'static [Row],
    too_long: &'static [Call],
    moved: u64,
}

/// The Efficiency Guide's example, "Constructing Binaries": A, B, C, D and E.
const GUIDE: &[Row] = &[
    (Call::Fresh(Bytes(&[0])), (&[0], 8), 0, 0, false),
    (
        Call::Append(0, Bytes(&[1, 2, 3])),
        (&[0, 1, 2, 3], 32),
        32,
        1,
        true,
    ),
    (
        Call::Append(1, Bytes(&[4, 5, 6])),
        (&[0, 1, 2, 3, 4, 5, 6], 56),
        24,
        1,
        true,
    ),
    (
        Call::Append(2, Bytes(&[7, 8, 9])),
        (&[0, 1, 2, 3, 4, 5, 6, 7, 8, 9], 80),
        24,
        1,
        true,
    ),
    (
        Call::Append(1, Bytes(&[17])),
        (&[0, 1, 2, 3, 17], 40),
        40,
        2,
        true,
    ),
];

/// The last byte of A is shared with B, and not with C.
const LAST_BYTE: &[Row] = &[
    (Call::Fresh(Bytes(&[7])), (&[7], 8), 0, 0, false),
    (Call::Append(0, Number(1, 4)), (&[7, 0x10], 12), 12, 1, true),
    (Call::Append(1, Number(5, 4)), (&[7, 21], 16), 4, 1, true),
    (Call::Append(1, Number(9, 4)), (&[7, 25], 16), 16, 2, true),
];

/// A context is made before each append, so each copies.
const CONTEXTS: &[Row] = &[
    (Call::Fresh(Bytes(&[])), (&[], 0), 0, 0, false),
    (Call::Still(0), (&[], 0), 0, 0, false),
    (Call::Append(1, Number(0, 4)), (&[0], 4), 4, 1, true),
    (Call::Still(2), (&[0], 4), 0, 1, false),
    (Call::Append(3, Number(1, 4)), (&[1], 8), 8, 2, true),
    (Call::Still(4), (&[1], 8), 0, 2, false),
    (Call::Append(5, Number(2, 4)), (&[1, 0x20], 12), 12, 3, true),
];

/// Parts of parts, and appends to parts: only one that is all that is written is appended to in place.
const PARTS: &[Row] = &[
    (Call::Fresh(Bytes(&[1])), (&[1], 8), 0, 0, false),
    (
        Call::Append(0, Bytes(&[2, 3, 4])),
        (&[1, 2, 3, 4], 32),
        32,
        1,
        true,
    ),
    (Call::Part(1, 8, 24), (&[2, 3, 4], 24), 0, 1, false),
    (Call::Part(2, 4, 8), (&[0x20], 8), 0, 1, false),
    (
        Call::Append(2, Bytes(&[5])),
        (&[2, 3, 4, 5], 32),
        32,
        2,
        true,
    ),
    (Call::Part(1, 0, 24), (&[1, 2, 3], 24), 0, 2, false),
    (
        Call::Append(5, Bytes(&[6])),
        (&[1, 2, 3, 6], 32),
        32,
        3,
        true,
    ),
    (Call::Part(1, 0, 32), (&[1, 2, 3, 4], 32), 0, 3, true),
    (
        Call::Append(7, Bytes(&[7])),
        (&[1, 2, 3, 4, 7], 40),
        8,
        3,
        true,
    ),
    // the room's own bits, and those of another cell
    (
        Call::Append(8, Copied(1, 8, 16)),
        (&[1, 2, 3, 4, 7, 2, 3], 56),
        16,
        3,
        true,
    ),
    (
        Call::Append(9, Copied(6, 20, 12)),
        (&[1, 2, 3, 4, 7, 2, 3, 0x30, 0x60], 68),
        12,
        3,
        true,
    ),
];

/// What is past the limit by one bit, or by many: new, behind a small reference, and behind the latest result.
const PAST_LIMIT: &[Call] = &[
    Call::Fresh(Number(0, MAX_BITS + 1)),
    Call::Fresh(Number(0, u32::MAX)),
    Call::Append(0, Number(0, MAX_BITS - 7)),
    Call::Append(2, Number(0, MAX_BITS - 23)),
    Call::Append(10, Number(0, MAX_BITS - 67)),
    Call::Append(10, Number(0, u32::MAX)),
];

/// Up to 512 bits lie in the reference; a longer one is a still cell, to which each append copies.
const SIZES: &[Row] = &[
    (Call::Fresh(Number(-1, 512)), (&[255], 512), 0, 0, false),
    (Call::Fresh(Number(-1, 513)), (&[255], 513), 513, 1, false),
    (Call::Part(1, 1, 512), (&[255], 512), 0, 1, false),
    (Call::Append(1, Bytes(&[255])), (&[255], 521), 521, 2, true),
    (Call::Append(0, Bytes(&[255])), (&[255], 520), 520, 3, true),
    // no longer result is wanted: in a new room, and then in place
    (Call::Append(0, Bytes(&[])), (&[255], 512), 512, 4, true),
    (Call::Append(5, Bytes(&[])), (&[255], 512), 0, 4, true),
];

const FOUR: &[u8] = &[1, 2, 3, 4];

/// A room's own bits behind it: within its 256 bytes, then past them, so that it grows to 1,024, and then to 2,050.
const DOUBLED: &[Row] = &[
    (Call::Fresh(Bytes(FOUR)), (FOUR, 32), 0, 0, false),
    (Call::Append(0, Copied(0, 0, 32)), (FOUR, 64), 64, 1, true),
    (Call::Append(1, Copied(1, 0, 64)), (FOUR, 128), 64, 1, true),
    (
        Call::Append(2, Copied(2, 0, 128)),
        (FOUR, 256),
        128,
        1,
        true,
    ),
    (
        Call::Append(3, Copied(3, 0, 256)),
        (FOUR, 512),
        256,
        1,
        true,
    ),
    (
        Call::Append(4, Copied(4, 0, 512)),
        (FOUR, 1_024),
        512,
        1,
        true,
    ),
    (
        Call::Append(5, Copied(5, 0, 1_024)),
        (FOUR, 2_048),
        1_024,
        1,
        true,
    ),
    (
        Call::Append(6, Copied(6, 0, 2_048)),
        (FOUR, 4_096),
        4_096,
        1,
        true,
    ),
    (
        Call::Append(7, Copied(7, 0, 4_096)),
        (FOUR, 8_192),
        4_096,
        1,
        true,
    ),
    (
        Call::Append(8, Copied(1, 0, 7)),
        (FOUR, 8_199),
        8_199,
        1,
        true,
    ),
];

/// Whether each call is refused as too long, moves nothing and makes no cell.
#[tactic(auto, using(off_heap::proofs::Adopted::all_kept))]
fn are_refused(
    alloc: Global,
    heap: &mut Heap,
    made: &[BitRef],
    calls: &[Call],
    steps: &mut Steps,
) -> bool
    requires { All (Valid heap.old.cells) made.now }
    ensures { All (Valid heap.new.cells) made.now }
{
    let moved = steps.moved;
    let cells = heap.cells();
    for call in calls {
        let fault = result_of(alloc, heap, made, *call, steps).err();
        if fault != Some(Fault::Refused(StoreFault::TooLong)) {
            return false;
        }
    }
    steps.moved == moved && heap.cells() == cells
}

/// The first row whose result doesn't show any more what it showed.
fn first_changed(alloc: Global, heap: &Heap, made: &[BitRef], rows: &[Row]) -> Option<usize>
    requires { All (Valid heap.now.cells) made.now }
{
    for (at, row) in rows.iter().enumerate() {
        match named(heap, made, at) {
            Ok(of) if shows(alloc, heap, of, row.1) => (),
            _ => return Some(at),
        }
    }
    None
}

/// How many bits the rows move together; else the first row that doesn't hold, or whose result shows something else in the end.
fn holds(alloc: Global, table: &Table) -> Result<u64, usize> {
    let mut heap = Heap::new(alloc);
    let mut steps = Steps::new();
    let made = made_by(alloc, &mut heap, table.rows, &mut steps)?;
    if !are_refused(alloc, &mut heap, &made, table.too_long, &mut steps) {
        return Err(made.len());
    }
    match first_changed(alloc, &heap, &made, table.rows) {
        Some(at) => Err(at),
        None => Ok(steps.moved),
    }
}

const TABLES: &[Table] = &[
    Table {
        name: "the guide's example",
        rows: GUIDE,
        too_long: &[],
        moved: 120,
    },
    Table {
        name: "a shared last byte",
        rows: LAST_BYTE,
        too_long: &[],
        moved: 32,
    },
    Table {
        name: "contexts",
        rows: CONTEXTS,
        too_long: &[],
        moved: 24,
    },
    Table {
        name: "parts",
        rows: PARTS,
        too_long: PAST_LIMIT,
        moved: 132,
    },
    Table {
        name: "sizes",
        rows: SIZES,
        too_long: &[],
        moved: 2_066,
    },
    Table {
        name: "a room that is doubled",
        rows: DOUBLED,
        too_long: &[],
        moved: 18_439,
    },
];

#[test]
fn calls_move_what_is_due(rt: HostRuntime) -> Result<(), Fail> {
    for table in TABLES {
        assert_eq!(rt; holds(rt.alloc(), table), Ok(table.moved), "{}", table.name);
    }
    Ok(())
}

/// So many bytes, each appended to the result before.
fn bytes_appended(heap: &mut Heap, count: u32, steps: &mut Steps) -> Result<BitRef, Fault>
    ensures { IfOk result (Valid heap.new.cells) }
{
    let mut last = heap.fresh(&[], steps)?;
    for _append in 0..count {
        let byte = Piece::Number {
            value: 7,
            bits: 8,
            endian: Endian::Big,
        };
        last = heap.append(&last, &[byte], steps)?;
    }
    Ok(last)
}

#[test]
fn a_hundred_thousand_appends_move_few(rt: HostRuntime) -> Result<(), Fail> {
    let mut heap = Heap::new(rt.alloc());
    let mut steps = Steps::new();
    let last = bytes_appended(&mut heap, 100_000, &mut steps)?;
    assert_eq!(rt; (heap.look(&last).len(), heap.cells()), (800_000, 1));
    assert!(rt; steps.moved <= 3 * 800_000 + 4_096);
    accumulators_move_few();
    Ok(())
}
