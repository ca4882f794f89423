//! Calls of a heap as rows, what their results show and how many bits they move.

ghost use Rattle.std.specs.Prelude.{◌+◌, ◌≤◌, All, IfOk, IsTrue, length};
ghost use Rattle.bit_store.specs.Pieces.{HasPiece, IsInside};
ghost use Rattle.bit_store.specs.Stores.{Keeps};
ghost use Rattle.off_heap.specs.Cells.{Valid, shown};

use bit_store::{Piece, StoreFault};
use bits_build::BuildFault;
use bits_value::{Bits, Endian, Steps, order};
use erl_syntax::Text;
use off_heap::{BitRef, Heap};
use shares::Share;
use std::alloc::{AllocError, AllocFailed, Global};
use std::cmp::Ordering;

/// What is written. Rows name the results of rows before them by their numbers.
#[derive(Clone, Copy)]
pub(crate) enum Given {
    Bytes(&'static [u8]),
    /// The number's lowest bits, so many.
    Number(i128, u32),
    /// From this bit of a result on, so many bits.
    Copied(usize, u32, u32),
}

/// A call.
#[derive(Clone, Copy)]
pub(crate) enum Call {
    Fresh(Given),
    /// Behind a result.
    Append(usize, Given),
    /// From this bit of a result on, so many bits.
    Part(usize, u32, u32),
    /// A context is made; the result is the same reference.
    Still(usize),
}

/// The first bits, so many, of the bytes written again and again.
pub(crate) type Shown = (&'static [u8], u32);

/// A call, what its result shows, how many bits it moves, how many cells there are then, and whether the result is the latest of a
/// room.
pub(crate) type Row = (Call, Shown, u64, u32, bool);

/// Why a call has no result.
#[derive(Clone, Copy, Debug, PartialEq, Eq, Drop)]
pub(crate) enum Fault {
    Refused(StoreFault),
    NotBuilt(BuildFault),
    NoMemory,
    /// It names no result, or bits or items that aren't there.
    Unnamed,
}

impl From<AllocError> for Fault {
    fn from(_: AllocError) -> Fault {
        Fault::NoMemory
    }
}

impl<T: Drop> From<AllocFailed<T>> for Fault {
    fn from(_: AllocFailed<T>) -> Fault {
        Fault::NoMemory
    }
}

impl From<StoreFault> for Fault {
    fn from(fault: StoreFault) -> Fault {
        Fault::Refused(fault)
    }
}

impl From<BuildFault> for Fault {
    fn from(fault: BuildFault) -> Fault {
        Fault::NotBuilt(fault)
    }
}

/// A new bitstring of so many bits, each 0.
pub(crate) fn zeros(heap: &mut Heap, bits: u32) -> Result<BitRef, Fault> {
    let piece = Piece::Number {
        value: 0,
        bits,
        endian: Endian::Big,
    };
    Ok(heap.fresh(&[piece], &mut Steps::new())?)
}

/// The result of this number.
pub(crate) fn named<'a>(heap: &Heap, made: &'a [BitRef], at: usize) -> Result<&'a BitRef, Fault>
    requires { All (Valid heap.now.cells) made.now }
    ensures { IfOk result (λ of. Valid heap.now.cells of.now) }
{
    match made.get(at) {
        Some(of) => Ok(of),
        None => Err(Fault::Unnamed),
    }
}

/// The piece of what is given.
fn piece_of(
    alloc: Global,
    heap: &Heap,
    made: &[BitRef],
    given: Given,
) -> Result<Piece<BitRef>, Fault>
    requires { All (Valid heap.now.cells) made.now }
    ensures valid { IfOk result (HasPiece (Valid heap.now.cells)) }
    ensures inside { IfOk result (IsInside (shown heap.now.cells)) }
{
    match given {
        Given::Bytes(bytes) => Ok(Piece::Bytes(Text::of(bytes.to_vec(alloc)?))),
        Given::Number(value, bits) => Ok(Piece::Number {
            value,
            bits,
            endian: Endian::Big,
        }),
        Given::Copied(at, off, bits) => part_piece(heap, named(heap, made, at)?, off, bits),
    }
}

/// A piece of these bits.
fn part_piece(heap: &Heap, of: &BitRef, off: u32, bits: u32) -> Result<Piece<BitRef>, Fault>
    requires { Valid heap.now.cells of.now }
    ensures valid { IfOk result (HasPiece (Valid heap.now.cells)) }
    ensures inside { IfOk result (IsInside (shown heap.now.cells)) }
{
    if !is_inside(heap, of, off, bits) {
        return Err(Fault::Unnamed);
    }
    let of = of.share()?;
    Ok(Piece::Part { of, off, bits })
}

fn is_inside(heap: &Heap, of: &BitRef, off: u32, bits: u32) -> bool
    requires { Valid heap.now.cells of.now }
    ensures { IsTrue result → off + bits ≤ length (shown heap.now.cells of.now) }
{
    let len = heap.look(of).len();
    off <= len && bits <= len - off
}

fn part_of(heap: &Heap, of: &BitRef, off: u32, bits: u32) -> Result<BitRef, Fault>
    requires { Valid heap.now.cells of.now }
    ensures { IfOk result (Valid heap.now.cells) }
{
    if is_inside(heap, of, off, bits) {
        Ok(heap.part(of, off, bits))
    } else {
        Err(Fault::Unnamed)
    }
}

/// The call's result.
pub(crate) fn result_of(
    alloc: Global,
    heap: &mut Heap,
    made: &[BitRef],
    call: Call,
    steps: &mut Steps,
) -> Result<BitRef, Fault>
    requires { All (Valid heap.old.cells) made.now }
    ensures keeps { Keeps shown Valid heap.old.cells heap.new.cells }
    ensures valid { IfOk result (Valid heap.new.cells) }
{
    match call {
        Call::Fresh(given) => {
            let piece = piece_of(alloc, heap, made, given)?;
            Ok(heap.fresh(&[piece], steps)?)
        }
        Call::Append(at, given) => {
            let piece = piece_of(alloc, heap, made, given)?;
            Ok(heap.append(named(heap, made, at)?, &[piece], steps)?)
        }
        Call::Part(at, off, bits) => part_of(heap, named(heap, made, at)?, off, bits),
        Call::Still(at) => {
            let of = named(heap, made, at)?;
            heap.still(of);
            Ok(of.share()?)
        }
    }
}

/// The bytes again and again, at least so many bits.
fn repeated(alloc: Global, bytes: &[u8], bits: u32) -> Result<Vec<u8>, AllocError> {
    let count = (bits as usize).div_ceil(8);
    let mut all = Vec::with_capacity(alloc, count)?;
    for byte in bytes.iter().cycle().take(count) {
        all.push(*byte)?;
    }
    Ok(all)
}

pub(crate) fn shows(alloc: Global, heap: &Heap, of: &BitRef, want: Shown) -> bool
    requires { Valid heap.now.cells of.now }
{
    match repeated(alloc, want.0, want.1) {
        Ok(all) => {
            all.len() < 100_000_000
                && want.1 as usize <= 8 * all.len()
                && order(heap.look(of), Bits::of(&all, 0, want.1)) == Ordering::Equal
        }
        Err(_) => false,
    }
}

/// Makes the rows' calls; the first row that doesn't hold is an error.
#[tactic(auto, using(off_heap::proofs::Adopted::all_kept))]
pub(crate) fn made_by(
    alloc: Global,
    heap: &mut Heap,
    rows: &[Row],
    steps: &mut Steps,
) -> Result<Vec<BitRef>, usize>
    ensures { IfOk result (λ made. All (Valid heap.new.cells) made.items) }
{
    let mut made = Vec::new(alloc);
    for row in rows {
        let before = steps.moved;
        let Ok(result) = result_of(alloc, heap, &made, row.0, steps) else {
            return Err(made.len());
        };
        let holds = shows(alloc, heap, &result, row.1)
            && steps.moved == before.saturating_add(row.2)
            && heap.cells() == row.3
            && heap.latest(&result) == row.4;
        if !holds || made.push(result).is_err() {
            return Err(made.len());
        }
    }
    Ok(made)
}
