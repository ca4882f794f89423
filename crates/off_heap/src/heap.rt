//! The heap.

ghost use Rattle.std.specs.Prelude.{◌≡◌, ℕ, ◌+◌, ◌≤◌, ◌≢◌, ◌^◌, [], length, take, drop, false, None, IfOk, OnOk, IfErr, OnErr, IsTrue, ◌↔◌, IsSome, IsSomeAnd};
ghost use Rattle.bits_value.specs.declared.TheConstants.{MAX_BITS};
ghost use Rattle.bit_store.specs.Stores.{Keeps};
ghost use Rattle.write_room.specs.Rooms.{IsTight};
ghost use Rattle.off_heap.specs.Cells.{cell_at, count_of, stored_bits, Valid, shown, room_of, IsRoom, AllTight, Latest, NoLatest, OnlyCell, SameNumbers};
ghost use Rattle.off_heap.specs.Lists.{end_of_list};
ghost use Rattle.off_heap.specs.Writing.{filled};

use crate::cell::{Cell, Storage};
use crate::reference::BitRef;
use bits_value::{Bits, Frozen, SmallBits};
use slab::Slab;
use std::alloc::{AllocFailed, Global};
use std::marker::Model;
use write_room::Room;

/// Past the last cell of the list.
pub(crate) const END: u32 = 4_294_967_295;

/// The most cells that a heap may have.
const MAX_CELLS: u32 = 2_147_483_648;

/// The bitstrings of one process: cells, which numbers inside them link to a list.
#[derive(Drop)]
pub struct Heap {
    pub(crate) alloc: Global,
    pub(crate) cells: Slab<Cell>,
    pub(crate) head: u32,
    pub(crate) count: u32,
    pub(crate) swept: u32,
}

impl Model for Heap {
    ghost use Rattle.off_heap.specs.Cells.{Contents};
    ghost use Rattle.off_heap.specs.Lists.{IsSound};

    ghost Value = { Contents };

    ghost view = { λ h. record { cells = h.cells.slots; head = h.head; swept = h.swept } };

    ghost invariant = { λ h. IsSound h.cells.slots h.head h.count };
}

impl Heap {
    /// A heap without cells. Takes no memory.
    pub fn new(alloc: Global) -> Heap
        ensures empty { result.cells ≡ [] }
        ensures swept { result.swept ≡ 0 }
    {
        Heap {
            alloc,
            cells: Slab::new(alloc),
            head: END,
            count: 0,
            swept: 0,
        }
    }

    /// How many cells there are.
    pub fn cells(&self) -> u32
        ensures is { result ≡ count_of self.now.cells }
        ensures few { result ≤ 2 ^ 31 }
        ensures tight { AllTight self.now.cells }
    {
        self.count
    }

    /// How many cells the last sweep left; 0 before the first.
    pub fn swept(&self) -> u32
        ensures { result ≡ self.now.swept }
    {
        self.swept
    }

    /// The bits of a reference. Takes no memory and moves no bit.
    pub fn look<'a>(&'a self, of: &'a BitRef) -> Bits<'a>
        requires { Valid self.now.cells of.now }
        ensures { result ≡ shown self.now.cells of.now }
    {
        match of {
            BitRef::Small(bits) => bits.bits(),
            BitRef::Part { cell, off, len } => match self.cells.get(*cell as usize) {
                Some(found) => found.storage.bits().part(*off, *len),
                None => unreachable!(),
            },
        }
    }

    /// A reference to a part of another's bits: of the same cell, but for a small reference's. Takes no memory.
    pub fn part(&self, of: &BitRef, off: u32, bits: u32) -> BitRef
        requires valid { Valid self.now.cells of.now }
        requires inside { off + bits ≤ length (shown self.now.cells of.now) }
        ensures valid { Valid self.now.cells result }
        ensures shows { shown self.now.cells result ≡ take bits (drop off (shown self.now.cells of.now)) }
    {
        match of {
            BitRef::Small(small) => BitRef::Small(SmallBits::of(small.bits().part(off, bits))),
            BitRef::Part {
                cell,
                off: start,
                len: _,
            } => BitRef::Part {
                cell: *cell,
                off: *start + off,
                len: bits,
            },
        }
    }

    /// Whether a reference is the latest result of a room: what is appended to it is written in place.
    pub fn latest(&self, of: &BitRef) -> bool
        ensures { IsTrue result ↔ Latest self.now.cells of.now }
    {
        match of {
            BitRef::Small(_) => false,
            BitRef::Part { cell, off, len } => match self.cells.get(*cell as usize) {
                Some(found) => found.is_latest(*off, *len),
                None => false,
            },
        }
    }

    /// Notes that a context was made on a reference, so that nothing is appended to its cell in place any more. Takes no
    /// memory and moves no bit.
    pub fn still(&mut self, of: &BitRef)
        ensures keeps { Keeps shown Valid self.old.cells self.new.cells }
        ensures same { SameNumbers self.old.cells self.new.cells }
        ensures no_latest { NoLatest self.new.cells of.now }
        ensures swept { self.new.swept ≡ self.old.swept }
    {
        if let BitRef::Part { cell, .. } = of {
            if let Some(found) = self.cells.get_mut(*cell as usize) {
                found.noted = true;
            }
        }
    }

    /// Puts a cell in front of the list.
    pub(crate) fn add(&mut self, storage: Storage) -> Result<u32, AllocFailed<Storage>>
        requires { IsTight (room_of storage) }
        ensures keeps { Keeps shown Valid self.old.cells self.new.cells }
        ensures vacant { IfOk result (λ n. cell_at self.old.cells n ≡ None) }
        ensures there { IfOk result (λ n. IsSomeAnd (cell_at self.new.cells n) (λ cell. (cell.storage ≡ storage) × (cell.noted ≡ false) × (cell.next ≡ self.old.head))) }
        ensures others { IfOk result (λ n. OnlyCell n self.old.cells self.new.cells) }
        ensures head { IfOk result (λ n. self.new.head ≡ n) }
        ensures more { OnOk result (count_of self.new.cells ≡ count_of self.old.cells + 1) }
        ensures swept { self.new.swept ≡ self.old.swept }
        ensures back { IfErr result (λ failed. failed.value ≡ storage) }
        ensures refused { OnErr result (self.new ≡ self.old) }
    {
        if self.cells.vacant_key() >= MAX_CELLS as usize || self.count >= MAX_CELLS {
            return Err(AllocFailed { value: storage });
        }
        let cell = Cell {
            storage,
            noted: false,
            next: self.head,
            marked: false,
        };
        match self.cells.insert(cell) {
            Ok(key) => {
                self.head = key as u32;
                self.count += 1;
                Ok(key as u32)
            }
            Err(failed) => {
                let Cell { storage, .. } = failed.value;
                Err(AllocFailed { value: storage })
            }
        }
    }

    /// Takes a cell's room out. Until it is put back, the cell has no bits. Takes no memory.
    pub(crate) fn take_room(&mut self, cell: u32) -> Room
        requires { IsSomeAnd (cell_at self.old.cells cell) (λ found. IsRoom found.storage) }
        ensures back { self.old ≡ record self.new { cells = filled self.new.cells cell result } }
        ensures there { IsSome (cell_at self.new.cells cell) }
        ensures tight { IsTight result }
    {
        let alloc = self.alloc;
        match self.cells.get_mut(cell as usize) {
            Some(found) => found.take_room(alloc),
            None => unreachable!(),
        }
    }

    /// Puts a room into a cell.
    pub(crate) fn put_room(&mut self, cell: u32, room: Room)
        requires there { IsSome (cell_at self.old.cells cell) }
        requires tight { IsTight room }
        ensures { self.new ≡ record self.old { cells = filled self.old.cells cell room } }
    {
        match self.cells.get_mut(cell as usize) {
            Some(found) => found.storage = Storage::Room(room),
            None => unreachable!(),
        }
    }
}
