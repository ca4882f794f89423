ghost use Rattle.std.specs.Prelude.{All, IfOk};
ghost use Rattle.bit_store.specs.Stores.{Keeps};
ghost use Rattle.off_heap.specs.Cells.{Valid, shown, HasMark};

use crate::given::Given::Number;
use crate::given::{Call, Fault, Row as MadeRow, made_by, named, shows, zeros};
use bits_value::Steps;
use off_heap::{BitRef, Heap, Swept};
use shares::Share;
use std::alloc::Global;
use std::test::Fail;

/// A small bitstring, a still cell and a part of it, a room with an older result and its latest, and another room.
const MADE: &[MadeRow] = &[
    (Call::Fresh(Number(1, 8)), (&[1], 8), 0, 0, false),
    (Call::Fresh(Number(-1, 600)), (&[255], 600), 600, 1, false),
    (Call::Part(1, 590, 9), (&[255], 9), 0, 1, false),
    (Call::Append(0, Number(2, 8)), (&[1, 2], 16), 16, 2, true),
    (Call::Append(3, Number(3, 8)), (&[1, 2, 3], 24), 8, 2, true),
    (Call::Append(0, Number(5, 8)), (&[1, 5], 16), 16, 3, true),
];

/// Of the results of `MADE`, which have three cells: those that are marked, how many cells a sweep then leaves and gives up, and
/// those that are the latest of a room then.
struct Row {
    marked: &'static [usize],
    left: u32,
    dropped: u32,
    latest: &'static [usize],
}

const ROWS: &[Row] = &[
    Row {
        marked: &[],
        left: 0,
        dropped: 3,
        latest: &[],
    },
    // a small reference names no cell
    Row {
        marked: &[0],
        left: 0,
        dropped: 3,
        latest: &[],
    },
    Row {
        marked: &[1],
        left: 1,
        dropped: 2,
        latest: &[],
    },
    // a part of 1
    Row {
        marked: &[2],
        left: 1,
        dropped: 2,
        latest: &[],
    },
    Row {
        marked: &[2, 1],
        left: 1,
        dropped: 2,
        latest: &[],
    },
    // an older result, in the room of 4
    Row {
        marked: &[3],
        left: 1,
        dropped: 2,
        latest: &[4],
    },
    Row {
        marked: &[5],
        left: 1,
        dropped: 2,
        latest: &[5],
    },
    Row {
        marked: &[3, 5],
        left: 2,
        dropped: 1,
        latest: &[4, 5],
    },
    Row {
        marked: &[1, 4, 1],
        left: 2,
        dropped: 1,
        latest: &[4],
    },
    Row {
        marked: &[0, 1, 2, 3, 4, 5],
        left: 3,
        dropped: 0,
        latest: &[4, 5],
    },
];

/// The results of these numbers.
fn chosen(
    alloc: Global,
    heap: &Heap,
    made: &[BitRef],
    places: &[usize],
) -> Result<Vec<BitRef>, Fault>
    requires { All (Valid heap.now.cells) made.now }
    ensures { IfOk result (λ live. All (Valid heap.now.cells) live.items) }
{
    let mut live = Vec::new(alloc);
    for place in places {
        let of = named(heap, made, *place)?;
        live.push(of.share()?)?;
    }
    Ok(live)
}

fn mark_all(heap: &mut Heap, live: &[BitRef])
    requires { All (Valid heap.old.cells) live.now }
    ensures keeps { Keeps shown Valid heap.old.cells heap.new.cells }
    ensures marked { All (HasMark heap.new.cells) live.now }
{
    for of in live {
        heap.mark(of);
    }
}

/// Gives up the cells that these references don't name.
fn sweep_but(heap: &mut Heap, live: &[BitRef]) -> Swept
    requires { All (Valid heap.old.cells) live.now }
    ensures { All (Valid heap.new.cells) live.now }
{
    heap.clear_marks();
    mark_all(heap, live);
    heap.sweep()
}

/// Whether each of the results of these numbers shows what it showed.
fn show_the_same(alloc: Global, heap: &Heap, live: &[BitRef], places: &[usize]) -> bool
    requires { All (Valid heap.now.cells) live.now }
{
    for (at, place) in places.iter().enumerate() {
        match (named(heap, live, at), MADE.get(*place)) {
            (Ok(of), Some(row)) if shows(alloc, heap, of, row.1) => (),
            _ => return false,
        }
    }
    true
}

fn has(heap: &Heap, left: u32) -> bool {
    heap.cells() == left && heap.swept() == left
}

/// Whether the row holds after a sweep, and what is then unmarked is given up by the next one.
fn holds(alloc: Global, row: &Row) -> Result<bool, Fault> {
    let mut heap = Heap::new(alloc);
    let Ok(made) = made_by(alloc, &mut heap, MADE, &mut Steps::new()) else {
        return Ok(false);
    };
    let live = chosen(alloc, &heap, &made, row.marked)?;
    // marks from before don't count
    mark_all(&mut heap, &made);
    let swept = sweep_but(&mut heap, &live);
    let mut holds = swept == tells(row.left, row.dropped)
        && has(&heap, row.left)
        && show_the_same(alloc, &heap, &live, row.marked);
    for (place, of) in made.iter().enumerate() {
        holds = holds && heap.latest(of) == row.latest.contains(&place);
    }
    zeros(&mut heap, 513)?;
    holds = holds && heap.sweep() == tells(0, row.left.saturating_add(1)) && has(&heap, 0);
    zeros(&mut heap, 513)?;
    Ok(holds && heap.empty() == tells(0, 1) && has(&heap, 0))
}

fn tells(left: u32, dropped: u32) -> Swept {
    Swept {
        left,
        dropped,
        last: 0,
    }
}

#[test]
fn a_sweep_leaves_what_is_marked(rt: HostRuntime) -> Result<(), Fail> {
    for row in ROWS {
        assert_eq!(rt; holds(rt.alloc(), row), Ok(true), "{:?}", row.marked);
    }
    Ok(())
}
