//! What a comprehension has collected.

ghost use Rattle.std.specs.Prelude.{◌≡◌, IfOk, OnErr};
ghost use Rattle.term_value.specs.Value.{VBits};
ghost use Rattle.term_value.specs.Step.{collect_by, collected};
ghost use Rattle.term_value.specs.Terms.{value_of, seen, IsOver};
ghost use Rattle.code_tree.specs.PlainTerms.{value, IsShort, AnyAtom};
ghost use Rattle.code_tree.specs.Reading.{nothing_of};
ghost use Rattle.code_rows.specs.Gathering.{got_of, step_of, StaysIfRefused};
ghost use Rattle.code_rows.specs.declared.gathered.Gathered.TheVariants.{Bits};
ghost use Rattle.term_value.specs.Tree as t;
ghost use Rattle.bit_store.specs.Stores.{itself};

use crate::bounded_items::BoundedItems;
use bit_store::Window;
use bits_value::Steps;
use code_tree::{Collected, PlainTerm};
use std::alloc::{AllocError, Global};
use term_value::Term;
use write_room::{Room, RoomFault};

/// What a comprehension has collected.
#[derive(Drop)]
pub enum Gathered {
    Items(BoundedItems),
    /// The bits, in a room that grows as they come.
    Bits(Room),
}

/// What comes of collecting a value.
#[derive(Debug, Clone, Copy, PartialEq, Eq, Drop)]
pub enum Collecting {
    /// It is collected; a bitstring of so many bits is made by it.
    Goes { made: u32 },
    /// A bound is passed.
    Limit,
    /// A bit comprehension collects bitstrings alone.
    BadArg,
}

impl Gathered {
    /// Nothing yet.
    pub fn new(alloc: Global, kind: Collected) -> Result<Gathered, AllocError>
        ensures { IfOk result (λ gathered. got_of gathered ≡ nothing_of kind) }
    {
        match kind {
            Collected::Items => Ok(Gathered::Items(BoundedItems::new(alloc))),
            Collected::Bits => Ok(Gathered::Bits(Room::with_len(alloc, 0)?)),
        }
    }

    /// The value behind what was collected. A refused one changes nothing.
    ///
    /// An item takes constant time and a bitstring its own length, but for the growth of a buffer.
    pub fn collect(&mut self, term: PlainTerm) -> Result<Collecting, AllocError>
        ensures is { IfOk result (λ collecting. step_of collecting (got_of self.new) ≡ collect_by (λ got. got) (got_of self.old) (value term)) }
        ensures refused { IfOk result (λ collecting. StaysIfRefused collecting self.old self.new) }
        ensures unchanged { OnErr result (self.new ≡ self.old) }
    {
        match self {
            Gathered::Items(items) => {
                if items.add(term.into_term())? {
                    Ok(Collecting::Goes { made: 0 })
                } else {
                    Ok(Collecting::Limit)
                }
            }
            Gathered::Bits(bits) => Ok(collect_bits(bits, term.into_term())?),
        }
    }

    /// The list or the bitstring that was collected.
    pub fn finish(self, alloc: Global) -> Result<PlainTerm, AllocError>
        ensures { IfOk result (λ term. value term ≡ collected (got_of self)) }
    {
        match self {
            Gathered::Items(items) => items.list(alloc),
            Gathered::Bits(bits) => whole(alloc, bits),
        }
    }
}

// The bits of the term behind the others.
fn collect_bits(bits: &mut Room, term: Term<Window>) -> Result<Collecting, AllocError>
    requires { IsOver IsShort AnyAtom term }
    ensures is { IfOk result (λ collecting. step_of collecting (t.Bits bits.new.bits) ≡ collect_by (λ got. got) (t.Bits bits.old.bits) (value_of itself term)) }
    ensures refused { IfOk result (λ collecting. StaysIfRefused collecting (Bits bits.old) (Bits bits.new)) }
    ensures unchanged { OnErr result (bits.new ≡ bits.old) }
{
    let Term::Bits(behind) = term else {
        return Ok(Collecting::BadArg);
    };
    match bits.push(behind.bits(), &mut Steps::new()) {
        Ok(()) => Ok(Collecting::Goes { made: bits.used() }),
        Err(RoomFault::TooLong) => Ok(Collecting::Limit),
        Err(RoomFault::NoMemory) => Err(AllocError),
    }
}

// The room's bits as a term.
fn whole(alloc: Global, room: Room) -> Result<PlainTerm, AllocError>
    ensures { IfOk result (λ term. value term ≡ VBits room.bits) }
{
    let len = room.used();
    let bits = Window::whole(alloc, room.into_frozen(), len)?;
    Ok(PlainTerm::of(Term::Bits(bits)))
}
