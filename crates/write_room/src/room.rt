ghost use Rattle.std.specs.Prelude.{◌≡◌, ◌+◌, ◌*◌, ◌<◌, ◌≤◌, ◌++◌, [], length, take, drop, IfOk, OnOk, OnErr, IfErr};
ghost use Rattle.bits_value.specs.Bits.{all_bits};
ghost use Rattle.bits_value.specs.Ledger.{ticked};
ghost use Rattle.bits_value.specs.Number.{spell};
ghost use Rattle.bits_value.specs.declared.TheConstants.{MAX_BITS};
ghost use Rattle.write_room.specs.Rooms.{bytes_for, grown_bytes, spare_of, HasTaken, CauseOf, IsTight};

use crate::RoomFault;
use bits_value::{Bits, Endian, Frozen, MAX_BITS, Steps, copy_bits, copy_own, put};
use std::alloc::{AllocError, Global};
use std::marker::Model;

/// Bytes of which the first bits are written. Contracts see the written bits, and the size.
#[derive(Drop)]
pub struct Room {
    bytes: Vec<u8>,
    used: u32,
}

impl Model for Room {
    ghost use Rattle.std.specs.Prelude.{◌*◌, ◌≤◌, take, length};
    ghost use Rattle.bits_value.specs.Bits.{all_bits};
    ghost use Rattle.bits_value.specs.declared.TheConstants.{MAX_BITS};
    ghost use Rattle.write_room.specs.Rooms.{Seen};

    ghost Value = { Seen };

    ghost view = { λ r. record { bits = take r.used (all_bits r.bytes.items); size = 8 * length r.bytes.items } };

    ghost invariant = { λ r. (r.used ≤ 8 * length r.bytes.items) × (r.used ≤ MAX_BITS) × (length r.bytes.items ≤ 67_108_864) };
}

/// How many bytes hold so many bits.
fn whole_bytes(bits: u32) -> usize
    requires short { bits ≤ MAX_BITS }
    ensures { result ≡ bytes_for bits }
{
    (bits as usize).div_ceil(8)
}

/// How many bytes a room has that is made, or grows, for so many bits.
fn room_bytes(bits: u32) -> usize
    requires short { bits ≤ MAX_BITS }
    ensures { result ≡ grown_bytes bits }
{
    (2 * whole_bytes(bits)).max(256)
}

/// Bytes that are all 0.
fn zeros(alloc: Global, count: usize) -> Result<Vec<u8>, AllocError>
    ensures { IfOk result (λ bytes. length bytes.items ≡ count) }
{
    let mut bytes = Vec::with_capacity(alloc, count)?;
    bytes.resize(count, 0)?;
    Ok(bytes)
}

impl Room {
    /// An empty room for so many bits.
    pub fn with_len(alloc: Global, bits: u32) -> Result<Room, AllocError>
        requires short { bits ≤ MAX_BITS }
        ensures empty { IfOk result (λ room. room.bits ≡ []) }
        ensures size { IfOk result (λ room. room.size ≡ 8 * bytes_for bits) }
    {
        let bytes = zeros(alloc, whole_bytes(bits))?;
        Ok(Room { bytes, used: 0 })
    }

    /// A copy of the source, in a room that is made for `more` bits more.
    pub fn from_bits(
        alloc: Global,
        source: Bits<'_>,
        more: u32,
        steps: &mut Steps,
    ) -> Result<Room, AllocError>
        requires short { length source + more ≤ MAX_BITS }
        ensures bits { IfOk result (λ room. room.bits ≡ source.entry) }
        ensures size { IfOk result (λ room. room.size ≡ 8 * grown_bytes (length source.entry + more)) }
        ensures ticks { OnOk result (steps.new.moved ≡ ticked steps.old.moved (length source.entry)) }
        ensures stands { OnErr result (steps.new ≡ steps.old) }
    {
        let bytes = zeros(alloc, room_bytes(source.len() + more))?;
        let mut room = Room { bytes, used: 0 };
        room.write(source, steps);
        Ok(room)
    }

    /// How many bits are written.
    pub fn used(&self) -> u32
        ensures value { result ≡ length self.now.bits }
        ensures short { length self.now.bits ≤ MAX_BITS }
    {
        self.used
    }

    /// How many bits can be written before the room has to grow.
    pub fn spare(&self) -> u32
        ensures value { result ≡ spare_of self.now }
        ensures inside { length self.now.bits ≤ self.now.size }
    {
        self.size() - self.used
    }

    /// The written bits.
    pub fn look(&self) -> Bits<'_>
        ensures { result ≡ self.now.bits }
    {
        Bits::of(self.bytes.as_slice(), 0, self.used)
    }

    /// The written bits, which no call changes any more. Takes no memory, and moves no bit.
    pub fn into_frozen(self) -> Frozen
        ensures { result ≡ self.bits }
    {
        let Room { bytes, used } = self;
        Frozen::of(bytes, used)
    }

    /// Adds the source's bits.
    pub fn push(&mut self, source: Bits<'_>, steps: &mut Steps) -> Result<(), RoomFault>
        ensures added { OnOk result (self.new.bits ≡ self.old.bits ++ source.entry) }
        ensures taken { OnOk result (HasTaken self.old self.new steps.old.moved steps.new.moved (length source.entry)) }
        ensures stands { OnErr result (self.new ≡ self.old) }
        ensures untouched { OnErr result (steps.new ≡ steps.old) }
        ensures cause { IfErr result (CauseOf self.old (length source.entry)) }
    {
        self.make_room(source.len(), steps)?;
        self.write(source, steps);
        Ok(())
    }

    /// Adds the spelling of the value modulo 2^`bits`.
    pub fn push_number(
        &mut self,
        value: i128,
        bits: u32,
        endian: Endian,
        steps: &mut Steps,
    ) -> Result<(), RoomFault>
        ensures added { OnOk result (self.new.bits ≡ self.old.bits ++ spell bits value endian) }
        ensures taken { OnOk result (HasTaken self.old self.new steps.old.moved steps.new.moved bits) }
        ensures stands { OnErr result (self.new ≡ self.old) }
        ensures untouched { OnErr result (steps.new ≡ steps.old) }
        ensures cause { IfErr result (CauseOf self.old bits) }
    {
        self.make_room(bits, steps)?;
        self.write_number(value, bits, endian, steps);
        Ok(())
    }

    /// Adds a copy of the room's own `bits` bits from `off` on.
    pub fn push_own(&mut self, off: u32, bits: u32, steps: &mut Steps) -> Result<(), RoomFault>
        requires own { off + bits ≤ length self.old.bits }
        ensures added { OnOk result (self.new.bits ≡ self.old.bits ++ take bits (drop off self.old.bits)) }
        ensures taken { OnOk result (HasTaken self.old self.new steps.old.moved steps.new.moved bits) }
        ensures stands { OnErr result (self.new ≡ self.old) }
        ensures untouched { OnErr result (steps.new ≡ steps.old) }
        ensures cause { IfErr result (CauseOf self.old bits) }
    {
        self.make_room(bits, steps)?;
        self.write_own(off, bits, steps);
        Ok(())
    }

    /// Makes sure that so many bits more can be written, one after another, without growth between them.
    pub fn make_room(&mut self, count: u32, steps: &mut Steps) -> Result<(), RoomFault>
        ensures bits { OnOk result (self.new.bits ≡ self.old.bits) }
        ensures short { OnOk result (length self.old.bits + count ≤ MAX_BITS) }
        ensures room { OnOk result (length self.old.bits + count ≤ self.new.size) }
        ensures in_place { OnOk result (count ≤ spare_of self.old → self.new.size ≡ self.old.size) }
        ensures ticks_in_place { OnOk result (count ≤ spare_of self.old → steps.new.moved ≡ steps.old.moved) }
        ensures grown { OnOk result (spare_of self.old < count → self.new.size ≡ 8 * grown_bytes (length self.old.bits + count)) }
        ensures ticks_grown { OnOk result (spare_of self.old < count → steps.new.moved ≡ ticked steps.old.moved (length self.old.bits)) }
        ensures stands { OnErr result (self.new ≡ self.old) }
        ensures untouched { OnErr result (steps.new ≡ steps.old) }
        ensures cause { IfErr result (CauseOf self.old count) }
    {
        if count > MAX_BITS - self.used() {
            return Err(RoomFault::TooLong);
        }
        if count > self.spare() {
            if let Err(_) = self.grow(count, steps) {
                return Err(RoomFault::NoMemory);
            }
        }
        Ok(())
    }

    /// Adds the source's bits, for which there is room.
    pub fn write(&mut self, source: Bits<'_>, steps: &mut Steps)
        requires room { length self.old.bits + length source ≤ self.old.size }
        requires short { length self.old.bits + length source ≤ MAX_BITS }
        ensures added { self.new.bits ≡ self.old.bits ++ source.entry }
        ensures size { self.new.size ≡ self.old.size }
        ensures ticks { steps.new.moved ≡ ticked steps.old.moved (length source.entry) }
    {
        let count = source.len();
        write_at(&mut self.bytes, self.used, source);
        self.used += count;
        steps.add(count);
    }

    /// Adds the spelling of the value modulo 2^`bits`, for which there is room.
    pub fn write_number(&mut self, value: i128, bits: u32, endian: Endian, steps: &mut Steps)
        requires room { length self.old.bits + bits ≤ self.old.size }
        requires short { length self.old.bits + bits ≤ MAX_BITS }
        ensures added { self.new.bits ≡ self.old.bits ++ spell bits value endian }
        ensures size { self.new.size ≡ self.old.size }
        ensures ticks { steps.new.moved ≡ ticked steps.old.moved bits }
    {
        put_at(&mut self.bytes, self.used, bits, value, endian);
        self.used += bits;
        steps.add(bits);
    }

    /// Adds a copy of the room's own `bits` bits from `off` on, for which there is room.
    pub fn write_own(&mut self, off: u32, bits: u32, steps: &mut Steps)
        requires own { off + bits ≤ length self.old.bits }
        requires room { length self.old.bits + bits ≤ self.old.size }
        requires short { length self.old.bits + bits ≤ MAX_BITS }
        ensures added { self.new.bits ≡ self.old.bits ++ take bits (drop off self.old.bits) }
        ensures size { self.new.size ≡ self.old.size }
        ensures ticks { steps.new.moved ≡ ticked steps.old.moved bits }
    {
        copy_at(&mut self.bytes, self.used, off, bits);
        self.used += bits;
        steps.add(bits);
    }

    fn size(&self) -> u32
        ensures size { result ≡ self.now.size }
        ensures inside { length self.now.bits ≤ self.now.size }
    {
        8 * self.bytes.len() as u32
    }

    fn grow(&mut self, count: u32, steps: &mut Steps) -> Result<(), AllocError>
        requires short { length self.old.bits + count ≤ MAX_BITS }
        requires grows { spare_of self.old < count }
        ensures bits { OnOk result (self.new.bits ≡ self.old.bits) }
        ensures size { OnOk result (self.new.size ≡ 8 * grown_bytes (length self.old.bits + count)) }
        ensures ticks { OnOk result (steps.new.moved ≡ ticked steps.old.moved (length self.old.bits)) }
        ensures stands { OnErr result (self.new ≡ self.old) }
        ensures untouched { OnErr result (steps.new ≡ steps.old) }
    {
        self.bytes.resize(room_bytes(self.used + count), 0)?;
        steps.add(self.used);
        Ok(())
    }
}

/// Writes the source's bits at `at`, and leaves all other bits.
fn write_at(bytes: &mut Vec<u8>, at: u32, source: Bits<'_>)
    requires inside { at + length source ≤ 8 * length bytes.old.items }
    ensures bits { all_bits bytes.new.items ≡ take at (all_bits bytes.old.items) ++ (source.entry ++ drop (at + length source.entry) (all_bits bytes.old.items)) }
    ensures size { length bytes.new.items ≡ length bytes.old.items }
{
    copy_bits(bytes, at, source);
}

/// Writes the spelling of the value at `at`, and leaves all other bits.
fn put_at(bytes: &mut Vec<u8>, at: u32, bits: u32, value: i128, endian: Endian)
    requires inside { at + bits ≤ 8 * length bytes.old.items }
    ensures bits { all_bits bytes.new.items ≡ take at (all_bits bytes.old.items) ++ (spell bits value endian ++ drop (at + bits) (all_bits bytes.old.items)) }
    ensures size { length bytes.new.items ≡ length bytes.old.items }
{
    put(bytes, at, bits, value, endian);
}

/// Writes the bytes' own bits from `from` on at `at`, which is past them, and leaves all other bits.
fn copy_at(bytes: &mut Vec<u8>, at: u32, from: u32, bits: u32)
    requires inside { at + bits ≤ 8 * length bytes.old.items }
    requires before { from + bits ≤ at }
    ensures bits { all_bits bytes.new.items ≡ take at (all_bits bytes.old.items) ++ (take bits (drop from (all_bits bytes.old.items)) ++ drop (at + bits) (all_bits bytes.old.items)) }
    ensures size { length bytes.new.items ≡ length bytes.old.items }
{
    copy_own(bytes, at, from, bits);
}
