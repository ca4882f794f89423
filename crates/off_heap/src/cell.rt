//! Cells.

ghost use Rattle.std.specs.Prelude.{◌≡◌, ◌↔◌, IsTrue};
ghost use Rattle.write_room.specs.Rooms.{IsTight};
ghost use Rattle.off_heap.specs.Cells.{stored_bits, room_of, IsRoom, IsLatest};
ghost use Rattle.off_heap.specs.Writing.{holding};

use bits_value::{Bits, Frozen};
use std::alloc::Global;
use write_room::Room;

/// What a cell's bytes lie in.
#[derive(Drop)]
pub enum Storage {
    /// Bytes with spare room, which may be appended to in place.
    Room(Room),
    /// Bytes of this heap alone that no call changes.
    Still(Frozen),
}

/// One cell of a heap.
#[derive(Drop)]
pub struct Cell {
    pub(crate) storage: Storage,
    /// Whether a context was made on it since the last append.
    pub(crate) noted: bool,
    /// The number of the cell that follows in the list.
    pub(crate) next: u32,
    pub(crate) marked: bool,
}

impl Storage {
    /// The written bits.
    pub fn bits(&self) -> Bits<'_>
        ensures { result ≡ stored_bits self.now }
    {
        match self {
            Storage::Room(room) => room.look(),
            Storage::Still(bits) => bits.bits(),
        }
    }
}

impl Cell {
    /// Whether a part is the latest result of this cell's room.
    pub fn is_latest(&self, off: u32, len: u32) -> bool
        ensures { IsTrue result ↔ IsLatest self.now off len }
    {
        match &self.storage {
            Storage::Room(room) => !self.noted && off == 0 && len == room.used(),
            Storage::Still(_) => false,
        }
    }

    /// Takes the room out. Until another is put in, the cell has no bits. Takes no memory.
    pub(crate) fn take_room(&mut self, alloc: Global) -> Room
        requires { IsRoom self.old.storage }
        ensures back { self.old ≡ holding self.new result }
        ensures next { self.new.next ≡ self.old.next }
        ensures tight { IsTight (room_of self.new.storage) }
    {
        let nothing = Storage::Still(Frozen::of(Vec::new(alloc), 0));
        match std::mem::replace(&mut self.storage, nothing) {
            Storage::Room(room) => room,
            Storage::Still(_) => unreachable!(),
        }
    }
}
