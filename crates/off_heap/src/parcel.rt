//! Parcels: terms that stand alone, as messages are.

ghost use Rattle.std.specs.Prelude.{◌≡◌, [], ◌∷◌, ◌++◌, ◌≤◌, length, IfOk, OnOk, OnErr};
ghost use Rattle.bits_value.specs.Ledger.{ticked};
ghost use Rattle.bits_value.specs.declared.TheConstants.{MAX_BITS};
ghost use Rattle.bit_store.specs.Stores.{Keeps, AnyAtom};
ghost use Rattle.term_value.specs.Value.{VBits, VTuple, VList};
ghost use Rattle.term_value.specs.Seen.{AreKnown, meanings};
ghost use Rattle.term_value.specs.Terms.{value_of, row, row_of, IsOver};
ghost use Rattle.off_heap.specs.Cells.{Valid, shown};
ghost use Rattle.off_heap.specs.Parcels.{large_bits};
ghost use Rattle.off_heap.specs.Packing.{HasPacked};

use crate::heap::Heap;
use crate::reference::BitRef;
use crate::sweeping::Swept;
use crate::writing::SMALL_BITS;
use bits_value::{Bits, Frozen, SmallBits, Steps};
use std::alloc::{AllocError, Global};
use std::marker::Model;
use term_value::{Cells, Term};
use write_room::Room;

/// A part of a value, where the items of a tuple or a list stand before it.
#[derive(Drop)]
pub enum Node {
    Int(i128),
    Atom(u32),
    Pid(u32),
    /// A bitstring of at most 512 bits.
    Small(SmallBits),
    /// A longer one: the next of the pieces.
    Piece,
    /// A tuple of the last so many values that stand in nothing yet.
    Tuple(usize),
    /// A list of them.
    List(usize),
}

/// The nodes of a value, and the bits of its bitstrings of more than 512 bits.
#[derive(Drop)]
pub struct Packed {
    pub(crate) nodes: Vec<Node>,
    pub(crate) pieces: Vec<Frozen>,
}

/// A term that stands alone: it has all its bits in itself and names no heap. Contracts see it as its value.
#[derive(Drop)]
pub struct Parcel {
    pub(crate) packed: Packed,
}

impl Model for Parcel {
    ghost use Rattle.std.specs.Prelude.{◌≡◌};
    ghost use Rattle.term_value.specs.Value.{Value as Meant};
    ghost use Rattle.off_heap.specs.ValueCode.{coded_value};

    ghost Value = { Meant };

    ghost coded = { coded_value };

    ghost use Rattle.off_heap.specs.Parcels.{value_in, nodes_of, large_parts};

    ghost view = { λ p. value_in p.packed.nodes.items p.packed.pieces.items };

    ghost invariant = { λ p. (p.packed.nodes.items ≡ nodes_of (value_in p.packed.nodes.items p.packed.pieces.items))
        × (p.packed.pieces.items ≡ large_parts (value_in p.packed.nodes.items p.packed.pieces.items)) };
}

impl Heap {
    /// A parcel of the term's value. Each part of more than 512 bits is copied into it, and moves its bits.
    pub fn pack(&mut self, term: &Term<BitRef>, steps: &mut Steps) -> Result<Parcel, AllocError>
        requires { IsOver (Valid self.old.cells) AnyAtom term.now }
        ensures packs { IfOk result (λ parcel. parcel ≡ value_of (shown self.old.cells) term.now) }
        ensures moved { IfOk result (λ parcel. steps.new.moved ≡ ticked steps.old.moved (large_bits parcel)) }
        ensures keeps { Keeps shown Valid self.old.cells self.new.cells }
        ensures swept { self.new.swept ≡ self.old.swept }
        ensures unmoved { OnErr result (steps.new ≡ steps.old) }
    {
        let alloc = self.alloc;
        let mut packed = Packed {
            nodes: Vec::new(alloc),
            pieces: Vec::new(alloc),
        };
        let mut written = Steps { moved: steps.moved };
        packed.push_term(self, term, &mut written)?;
        steps.moved = written.moved;
        Ok(Parcel { packed })
    }
}

impl Packed {
    /// Adds a term.
    #[cycle(pack)]
    fn push_term(
        &mut self,
        heap: &Heap,
        term: &Term<BitRef>,
        steps: &mut Steps,
    ) -> Result<(), AllocError>
        requires { IsOver (Valid heap.now.cells) AnyAtom term.now }
        ensures { OnOk result (HasPacked self.old self.new steps.old.moved steps.new.moved (value_of (shown heap.now.cells) term.now)) }
    {
        let _moved = steps.moved;
        match term {
            Term::Int(number) => self.push(Node::Int(*number)),
            Term::Atom(number) => self.push(Node::Atom(*number)),
            Term::Pid(number) => self.push(Node::Pid(*number)),
            Term::Tuple(items) => self.push_tuple(heap, items.get().items(), steps),
            Term::List(items) => self.push_list(heap, items, steps),
            Term::Bits(of) => self.push_bits(heap.alloc, heap.look(of), steps),
        }
    }

    /// Adds a tuple of these items.
    #[cycle(pack)]
    fn push_tuple(
        &mut self,
        heap: &Heap,
        items: &[Term<BitRef>],
        steps: &mut Steps,
    ) -> Result<(), AllocError>
        requires { AreKnown (Valid heap.now.cells) AnyAtom (row items.now) }
        ensures { OnOk result (HasPacked self.old self.new steps.old.moved steps.new.moved (VTuple (meanings (shown heap.now.cells) (row items.now)))) }
    {
        let _moved = steps.moved;
        let mut left = items;
        while let Some((item, rest)) = left.split_first() {
            self.push_term(heap, item, steps)?;
            left = rest;
        }
        self.push(Node::Tuple(items.len()))
    }

    /// Adds a list of these items.
    #[cycle(pack)]
    fn push_list(
        &mut self,
        heap: &Heap,
        items: &Cells<BitRef>,
        steps: &mut Steps,
    ) -> Result<(), AllocError>
        requires { AreKnown (Valid heap.now.cells) AnyAtom (row_of items.now) }
        ensures { OnOk result (HasPacked self.old self.new steps.old.moved steps.new.moved (VList (meanings (shown heap.now.cells) (row_of items.now)))) }
    {
        let _moved = steps.moved;
        let mut count = 0usize;
        let mut left = items;
        while let Some((item, rest)) = left.split() {
            self.push_term(heap, item, steps)?;
            let _longer = self.nodes.len();
            count += 1;
            left = rest;
        }
        self.push(Node::List(count))
    }

    fn push(&mut self, node: Node) -> Result<(), AllocError>
        ensures nodes { OnOk result (self.new.nodes.items ≡ self.old.nodes.items ++ node ∷ []) }
        ensures pieces { self.new.pieces ≡ self.old.pieces }
    {
        self.nodes.push(node)?;
        Ok(())
    }

    /// Adds a bitstring.
    fn push_bits(
        &mut self,
        alloc: Global,
        bits: Bits<'_>,
        steps: &mut Steps,
    ) -> Result<(), AllocError>
        requires { length bits ≤ MAX_BITS }
        ensures { OnOk result (HasPacked self.old self.new steps.old.moved steps.new.moved (VBits bits.entry)) }
    {
        let _moved = steps.moved;
        if bits.len() <= SMALL_BITS {
            return self.push(Node::Small(SmallBits::of(bits)));
        }
        let mut room = Room::with_len(alloc, bits.len())?;
        room.write(bits, steps);
        self.pieces.push(room.into_frozen())?;
        self.push(Node::Piece)
    }
}

/// Gives a parcel up. Takes no memory.
pub fn discard(parcel: Parcel) -> Swept
    ensures left { result.left ≡ 0 }
    ensures dropped { result.dropped ≡ 0 }
    ensures last { result.last ≡ 0 }
{
    drop(parcel);
    Swept {
        left: 0,
        dropped: 0,
        last: 0,
    }
}
