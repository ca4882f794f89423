//! Bitstrings made of pieces: new ones, and appends.

ghost use Rattle.std.specs.Prelude.{◌≡◌, ◌+◌, ◌*◌, ◌≤◌, ◌<◌, ◌++◌, [], length, All, None, IfOk, OnOk, IfErr, OnErr, IsSomeAnd, MatchOption};
ghost use Rattle.bits_value.specs.Bits.{all_bits};
ghost use Rattle.bits_value.specs.Ledger.{ticked};
ghost use Rattle.bits_value.specs.declared.TheConstants.{MAX_BITS};
ghost use Rattle.bit_store.specs.Pieces.{piece_bits, pieces_bits, HasPiece, IsInside};
ghost use Rattle.bit_store.specs.Stores.{Keeps, RoseBy, Refuses};
ghost use Rattle.write_room.specs.Rooms.{HasTaken, grown_bytes, spare_of};
ghost use Rattle.off_heap.specs.Cells.{cell_at, bits_in, Valid, shown, IsSmall, IsRoom, room_in, room_under, Latest, InPlace, InNewCell, RefusesIn};
ghost use Rattle.off_heap.specs.Writing.{with_room, IsThere, IsOwn, IsOther, HasExtended};

use crate::cell::Storage;
use crate::heap::Heap;
use crate::reference::BitRef;
use bit_store::{Piece, StoreFault, total_bits};
use bits_value::{Bits, MAX_BITS, SmallBits, Steps};
use std::alloc::AllocError;
use write_room::Room;

/// The most bits that lie in a reference.
pub(crate) const SMALL_BITS: u32 = 512;

impl Heap {
    /// A new bitstring of these pieces in their order: small up to 512 bits, else a still cell.
    pub fn fresh(
        &mut self,
        pieces: &[Piece<BitRef>],
        steps: &mut Steps,
    ) -> Result<BitRef, StoreFault>
        requires valid { All (HasPiece (Valid self.old.cells)) pieces.now }
        requires inside { All (IsInside (shown self.old.cells)) pieces.now }
        ensures keeps { Keeps shown Valid self.old.cells self.new.cells }
        ensures valid { IfOk result (λ made. Valid self.new.cells made) }
        ensures shows { IfOk result (λ made. shown self.new.cells made ≡ pieces_bits (shown self.old.cells) pieces.now) }
        ensures small { length (pieces_bits (shown self.old.cells) pieces.now) ≤ 512 → IfOk result IsSmall × (self.new ≡ self.old) × (steps.new ≡ steps.old) }
        ensures large { 512 < length (pieces_bits (shown self.old.cells) pieces.now) → IfOk result (λ made. InNewCell self.old.cells self.new.cells made × (steps.new.moved ≡ ticked steps.old.moved (length (shown self.new.cells made)))) }
        ensures refused { IfErr result (λ fault. Refuses (length (pieces_bits (shown self.old.cells) pieces.now)) fault) }
        ensures stands { OnErr result (self.new ≡ self.old) }
        ensures unmoved { OnErr result (steps.new ≡ steps.old) }
    {
        match total_bits(pieces) {
            None => Err(StoreFault::TooLong),
            Some(total) => {
                if total <= SMALL_BITS {
                    match self.fresh_small(pieces, total) {
                        Ok(made) => Ok(BitRef::Small(made)),
                        Err(_) => Err(StoreFault::NoMemory),
                    }
                } else {
                    match self.fresh_cell(pieces, total, steps) {
                        Ok(made) => Ok(made),
                        Err(_) => Err(StoreFault::NoMemory),
                    }
                }
            }
        }
    }

    /// The pieces' bits, which are `total` together.
    fn fresh_small(&self, pieces: &[Piece<BitRef>], total: u32) -> Result<SmallBits, AllocError>
        requires valid { All (HasPiece (Valid self.now.cells)) pieces.now }
        requires inside { All (IsInside (shown self.now.cells)) pieces.now }
        requires total { total ≡ length (pieces_bits (shown self.now.cells) pieces.now) }
        requires small { total ≤ 512 }
        ensures { IfOk result (λ made. made ≡ pieces_bits (shown self.now.cells) pieces.now) }
    {
        let mut room = Room::with_len(self.alloc, total)?;
        let mut uncounted = Steps::new();
        self.write_pieces(None, &mut room, pieces, &mut uncounted);
        Ok(SmallBits::of(room.look()))
    }

    /// A still cell of the pieces' bits, which are `total` together.
    fn fresh_cell(
        &mut self,
        pieces: &[Piece<BitRef>],
        total: u32,
        steps: &mut Steps,
    ) -> Result<BitRef, AllocError>
        requires valid { All (HasPiece (Valid self.old.cells)) pieces.now }
        requires inside { All (IsInside (shown self.old.cells)) pieces.now }
        requires total { total ≡ length (pieces_bits (shown self.old.cells) pieces.now) }
        requires short { total ≤ MAX_BITS }
        ensures keeps { Keeps shown Valid self.old.cells self.new.cells }
        ensures valid { IfOk result (λ made. Valid self.new.cells made) }
        ensures shows { IfOk result (λ made. shown self.new.cells made ≡ pieces_bits (shown self.old.cells) pieces.now) }
        ensures in_new_cell { IfOk result (λ made. InNewCell self.old.cells self.new.cells made) }
        ensures moved { OnOk result (steps.new.moved ≡ ticked steps.old.moved total) }
        ensures stands { OnErr result (self.new ≡ self.old) }
        ensures unmoved { OnErr result (steps.new ≡ steps.old) }
    {
        let mut room = Room::with_len(self.alloc, total)?;
        let mut written = Steps { moved: steps.moved };
        self.write_pieces(None, &mut room, pieces, &mut written);
        let cell = self.add(Storage::Still(room.into_frozen()))?;
        steps.moved = written.moved;
        Ok(BitRef::Part {
            cell,
            off: 0,
            len: total,
        })
    }

    /// A bitstring of the bits of `to` and then these pieces in their order: written in place where `to` is the latest result
    /// of a room, else into one new room.
    pub fn append(
        &mut self,
        to: &BitRef,
        pieces: &[Piece<BitRef>],
        steps: &mut Steps,
    ) -> Result<BitRef, StoreFault>
        requires has_to { Valid self.old.cells to.now }
        requires valid { All (HasPiece (Valid self.old.cells)) pieces.now }
        requires inside { All (IsInside (shown self.old.cells)) pieces.now }
        ensures keeps { Keeps shown Valid self.old.cells self.new.cells }
        ensures valid { IfOk result (λ made. Valid self.new.cells made) }
        ensures shows { IfOk result (λ made. shown self.new.cells made ≡ shown self.old.cells to.now ++ pieces_bits (shown self.old.cells) pieces.now) }
        ensures latest { IfOk result (λ made. Latest self.new.cells made) }
        ensures in_place { Latest self.old.cells to.now → IfOk result (λ made. InPlace self.old.cells self.new.cells to.now made) }
        ensures in_new_room { (Latest self.old.cells to.now → ⊥) → IfOk result (λ made. InNewCell self.old.cells self.new.cells made) }
        ensures new_size { (Latest self.old.cells to.now → ⊥) → IfOk result (λ made. (room_under self.new.cells made).size ≡ 8 * grown_bytes (length (shown self.new.cells made))) }
        ensures moved { IfOk result (λ made. RoseBy (length (shown self.new.cells made)) steps.old.moved steps.new.moved) }
        ensures moved_in_place { Latest self.old.cells to.now → IfOk result (λ made. HasTaken (room_under self.old.cells to.now) (room_under self.new.cells made) steps.old.moved steps.new.moved (length (pieces_bits (shown self.old.cells) pieces.now))) }
        ensures moved_to_new { (Latest self.old.cells to.now → ⊥) → IfOk result (λ made. steps.new.moved ≡ ticked steps.old.moved (length (shown self.new.cells made))) }
        ensures refused { IfErr result (λ fault. Refuses (length (shown self.old.cells to.now) + length (pieces_bits (shown self.old.cells) pieces.now)) fault) }
        ensures refused_in_place { Latest self.old.cells to.now → IfErr result (λ fault. RefusesIn (room_under self.old.cells to.now) (length (pieces_bits (shown self.old.cells) pieces.now)) fault) }
        ensures stands { OnErr result (self.new ≡ self.old) }
        ensures unmoved { OnErr result (steps.new ≡ steps.old) }
    {
        match self.added_bits(to, pieces) {
            None => Err(StoreFault::TooLong),
            Some(added) => {
                if self.latest(to) {
                    match self.append_in_place(to, pieces, added, steps) {
                        Ok(made) => Ok(made),
                        Err(_) => Err(StoreFault::NoMemory),
                    }
                } else {
                    match self.append_copy(to, pieces, added, steps) {
                        Ok(made) => Ok(made),
                        Err(_) => Err(StoreFault::NoMemory),
                    }
                }
            }
        }
    }

    /// The number of bits of the pieces; None exactly where a bitstring may not have so many behind the bits of `to`.
    fn added_bits(&self, to: &BitRef, pieces: &[Piece<BitRef>]) -> Option<u32>
        requires has_to { Valid self.now.cells to.now }
        requires inside { All (IsInside (shown self.now.cells)) pieces.now }
        ensures { MatchOption result (MAX_BITS < length (shown self.now.cells to.now) + length (pieces_bits (shown self.now.cells) pieces.now)) (λ added. (added ≡ length (pieces_bits (shown self.now.cells) pieces.now)) × (length (shown self.now.cells to.now) + added ≤ MAX_BITS)) }
    {
        match total_bits(pieces) {
            None => None,
            Some(added) => {
                if self.look(to).len() > MAX_BITS - added {
                    None
                } else {
                    Some(added)
                }
            }
        }
    }

    /// Adds the pieces, of `added` bits together, behind the latest result of a room.
    fn append_in_place(
        &mut self,
        to: &BitRef,
        pieces: &[Piece<BitRef>],
        added: u32,
        steps: &mut Steps,
    ) -> Result<BitRef, AllocError>
        requires latest { Latest self.old.cells to.now }
        requires valid { All (HasPiece (Valid self.old.cells)) pieces.now }
        requires inside { All (IsInside (shown self.old.cells)) pieces.now }
        requires added { added ≡ length (pieces_bits (shown self.old.cells) pieces.now) }
        requires short { length (shown self.old.cells to.now) + added ≤ MAX_BITS }
        ensures keeps { Keeps shown Valid self.old.cells self.new.cells }
        ensures valid { IfOk result (λ made. Valid self.new.cells made) }
        ensures shows { IfOk result (λ made. shown self.new.cells made ≡ shown self.old.cells to.now ++ pieces_bits (shown self.old.cells) pieces.now) }
        ensures latest { IfOk result (λ made. Latest self.new.cells made) }
        ensures in_place { IfOk result (λ made. InPlace self.old.cells self.new.cells to.now made) }
        ensures taken { IfOk result (λ made. HasTaken (room_under self.old.cells to.now) (room_under self.new.cells made) steps.old.moved steps.new.moved added) }
        ensures spare { OnErr result (spare_of (room_under self.old.cells to.now) < added) }
        ensures stands { OnErr result (self.new ≡ self.old) }
        ensures unmoved { OnErr result (steps.new ≡ steps.old) }
    {
        match to {
            BitRef::Small(_) => unreachable!(),
            BitRef::Part { cell, .. } => {
                let len = self.extend_room(*cell, pieces, added, steps)?;
                Ok(BitRef::Part {
                    cell: *cell,
                    off: 0,
                    len,
                })
            }
        }
    }

    /// Adds the pieces, of `added` bits together, to a cell's room. The result is how many bits it has then.
    fn extend_room(
        &mut self,
        cell: u32,
        pieces: &[Piece<BitRef>],
        added: u32,
        steps: &mut Steps,
    ) -> Result<u32, AllocError>
        requires room { IsSomeAnd (cell_at self.old.cells cell) (λ found. IsRoom found.storage) }
        requires valid { All (HasPiece (Valid self.old.cells)) pieces.now }
        requires inside { All (IsInside (shown self.old.cells)) pieces.now }
        requires added { added ≡ length (pieces_bits (shown self.old.cells) pieces.now) }
        requires short { length (bits_in (cell_at self.old.cells cell)) + added ≤ MAX_BITS }
        ensures keeps { Keeps shown Valid self.old.cells self.new.cells }
        ensures extended { OnOk result (HasExtended self.old.cells self.new.cells cell (pieces_bits (shown self.old.cells) pieces.now)) }
        ensures size { IfOk result (λ len. len ≡ length (bits_in (cell_at self.new.cells cell))) }
        ensures taken { OnOk result (HasTaken (room_in (cell_at self.old.cells cell)) (room_in (cell_at self.new.cells cell)) steps.old.moved steps.new.moved added) }
        ensures spare { OnErr result (spare_of (room_in (cell_at self.old.cells cell)) < added) }
        ensures stands { OnErr result (self.new ≡ self.old) }
        ensures unmoved { OnErr result (steps.new ≡ steps.old) }
    {
        let mut room = self.take_room(cell);
        match room.make_room(added, steps) {
            Ok(()) => {
                self.write_pieces(Some(cell), &mut room, pieces, steps);
                let len = room.used();
                self.put_room(cell, room);
                Ok(len)
            }
            Err(_) => {
                self.put_room(cell, room);
                Err(AllocError)
            }
        }
    }

    /// The bits of `to` and then the pieces, of `added` bits together, in a new room.
    fn append_copy(
        &mut self,
        to: &BitRef,
        pieces: &[Piece<BitRef>],
        added: u32,
        steps: &mut Steps,
    ) -> Result<BitRef, AllocError>
        requires has_to { Valid self.old.cells to.now }
        requires valid { All (HasPiece (Valid self.old.cells)) pieces.now }
        requires inside { All (IsInside (shown self.old.cells)) pieces.now }
        requires added { added ≡ length (pieces_bits (shown self.old.cells) pieces.now) }
        requires short { length (shown self.old.cells to.now) + added ≤ MAX_BITS }
        ensures keeps { Keeps shown Valid self.old.cells self.new.cells }
        ensures valid { IfOk result (λ made. Valid self.new.cells made) }
        ensures shows { IfOk result (λ made. shown self.new.cells made ≡ shown self.old.cells to.now ++ pieces_bits (shown self.old.cells) pieces.now) }
        ensures latest { IfOk result (λ made. Latest self.new.cells made) }
        ensures in_new_room { IfOk result (λ made. InNewCell self.old.cells self.new.cells made) }
        ensures new_size { IfOk result (λ made. (room_under self.new.cells made).size ≡ 8 * grown_bytes (length (shown self.new.cells made))) }
        ensures moved { OnOk result (steps.new.moved ≡ ticked steps.old.moved (length (shown self.old.cells to.now) + added)) }
        ensures stands { OnErr result (self.new ≡ self.old) }
        ensures unmoved { OnErr result (steps.new ≡ steps.old) }
    {
        let mut written = Steps { moved: steps.moved };
        let mut room = Room::from_bits(self.alloc, self.look(to), added, &mut written)?;
        self.write_pieces(None, &mut room, pieces, &mut written);
        let len = room.used();
        let cell = self.add(Storage::Room(room))?;
        steps.moved = written.moved;
        Ok(BitRef::Part { cell, off: 0, len })
    }

    /// Adds the pieces' bits to a room that has space for them, and that is out of its cell, or not in one.
    fn write_pieces(
        &self,
        own: Option<u32>,
        room: &mut Room,
        pieces: &[Piece<BitRef>],
        steps: &mut Steps,
    )
        requires there { IsThere self.now.cells own }
        requires valid { All (HasPiece (Valid (with_room self.now.cells own room.old))) pieces.now }
        requires inside { All (IsInside (shown (with_room self.now.cells own room.old))) pieces.now }
        requires space { length room.old.bits + length (pieces_bits (shown (with_room self.now.cells own room.old)) pieces.now) ≤ room.old.size }
        requires short { length room.old.bits + length (pieces_bits (shown (with_room self.now.cells own room.old)) pieces.now) ≤ MAX_BITS }
        ensures bits { room.new.bits ≡ room.old.bits ++ pieces_bits (shown (with_room self.now.cells own room.old)) pieces.now }
        ensures size { room.new.size ≡ room.old.size }
        ensures ticks { steps.new.moved ≡ ticked steps.old.moved (length (pieces_bits (shown (with_room self.now.cells own room.old)) pieces.now)) }
    {
        let _moved = steps.moved;
        for piece in pieces {
            self.write_piece(own, room, piece, steps);
        }
    }

    /// Adds one piece's bits.
    fn write_piece(
        &self,
        own: Option<u32>,
        room: &mut Room,
        piece: &Piece<BitRef>,
        steps: &mut Steps,
    )
        requires there { IsThere self.now.cells own }
        requires valid { HasPiece (Valid (with_room self.now.cells own room.old)) piece.now }
        requires inside { IsInside (shown (with_room self.now.cells own room.old)) piece.now }
        requires space { length room.old.bits + length (piece_bits (shown (with_room self.now.cells own room.old)) piece.now) ≤ room.old.size }
        requires short { length room.old.bits + length (piece_bits (shown (with_room self.now.cells own room.old)) piece.now) ≤ MAX_BITS }
        ensures bits { room.new.bits ≡ room.old.bits ++ piece_bits (shown (with_room self.now.cells own room.old)) piece.now }
        ensures size { room.new.size ≡ room.old.size }
        ensures ticks { steps.new.moved ≡ ticked steps.old.moved (length (piece_bits (shown (with_room self.now.cells own room.old)) piece.now)) }
    {
        match piece {
            Piece::Number {
                value,
                bits,
                endian,
            } => room.write_number(*value, *bits, *endian, steps),
            Piece::Character(bytes) => write_bytes(room, bytes, steps),
            Piece::Bytes(text) => write_bytes(room, text.bytes(), steps),
            Piece::Part { of, off, bits } => match own_start(own, of) {
                Some(start) => room.write_own(start + *off, *bits, steps),
                None => room.write(self.look(of).part(*off, *bits), steps),
            },
        }
    }
}

/// Where a reference to the room's own cell begins in it; None where it is to another.
fn own_start(own: Option<u32>, of: &BitRef) -> Option<u32>
    ensures { MatchOption result (IsOther own of.now) (λ start. IsOwn own of.now start) }
{
    match (own, of) {
        (Some(own), BitRef::Part { cell, off, .. }) if own == *cell => Some(*off),
        _ => None,
    }
}

/// Adds the bytes' bits to a room that has space for them.
fn write_bytes(room: &mut Room, bytes: &[u8], steps: &mut Steps)
    requires space { length room.old.bits + length (all_bits bytes.now) ≤ room.old.size }
    requires short { length room.old.bits + length (all_bits bytes.now) ≤ MAX_BITS }
    ensures bits { room.new.bits ≡ room.old.bits ++ all_bits bytes.now }
    ensures size { room.new.size ≡ room.old.size }
    ensures ticks { steps.new.moved ≡ ticked steps.old.moved (length (all_bits bytes.now)) }
{
    let bits = 8 * bytes.len() as u32;
    room.write(Bits::of(bytes, 0, bits), steps);
}
