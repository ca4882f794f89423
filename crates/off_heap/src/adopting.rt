//! Terms made of parcels.

ghost use Rattle.std.specs.Prelude.{◌≡◌, ℕ, [], ◌∷◌, ◌++◌, ◌+◌, ◌-◌, ◌≤◌, true, List, Bool, length, take, drop, All, IfOk, OnOk, IfErr, OnErr, IsSomeAnd, None, vec_len, vec_capacity};
ghost use Rattle.bits_value.specs.declared.TheConstants.{MAX_BITS};
ghost use Rattle.bit_store.specs.Stores.{Keeps, AnyAtom};
ghost use Rattle.term_value.specs.Bounds.{is_within};
ghost use Rattle.term_value.specs.Terms.{value_of, IsOver};
ghost use Rattle.term_value.specs.Value.{VTuple, VList, row};
ghost use Rattle.off_heap.specs.declared.reference.BitRef.TheVariants.{Part as PartOf};
ghost use Rattle.off_heap.specs.Cells.{Contents, IsSame, cell_at, count_of, Valid, shown, OnlyCell};
ghost use Rattle.off_heap.specs.Parcels.{IsBounded, large_parts, read, CanBe, CanRead};
ghost use Rattle.off_heap.specs.Adopting.{IsStillOf, IsAdded, InFront, HasPlaced, queue, values_of, HasMade};

use crate::cell::{Cell, Storage};
use crate::heap::Heap;
use crate::parcel::{Node, Packed, Parcel};
use crate::reference::BitRef;
use bits_value::Frozen;
use std::alloc::{AllocError, AllocFailed};
use term_value::{Term, list_of, tuple_of};

impl Heap {
    /// A term of the parcel's value. Each of its bitstrings of more than 512 bits gets a still cell, into which the parcel's
    /// bits are moved, and not copied.
    pub fn adopt(&mut self, parcel: Parcel) -> Result<Term<BitRef>, AllocFailed<Parcel>>
        requires { IsBounded parcel }
        ensures same { IfOk result (λ term. value_of (shown self.new.cells) term ≡ parcel) }
        ensures valid { IfOk result (IsOver (Valid self.new.cells) AnyAtom) }
        ensures cells { OnOk result (count_of self.new.cells ≡ count_of self.old.cells + length (large_parts parcel)) }
        ensures keeps { Keeps shown Valid self.old.cells self.new.cells }
        ensures swept { self.new.swept ≡ self.old.swept }
        ensures back { IfErr result (λ failed. failed.value ≡ parcel) }
        ensures stands { OnErr result (IsSame self.old self.new) }
    {
        let Parcel { packed } = parcel;
        let Packed { nodes, pieces } = packed;
        let mut pieces = pieces;
        match self.adopt_pieces(&nodes, &mut pieces) {
            Ok(term) => Ok(term),
            Err(_) => Err(AllocFailed {
                value: Parcel {
                    packed: Packed { nodes, pieces },
                },
            }),
        }
    }

    /// The term of the nodes. Refused, the pieces are all there again.
    fn adopt_pieces(
        &mut self,
        nodes: &[Node],
        pieces: &mut Vec<Frozen>,
    ) -> Result<Term<BitRef>, AllocError>
        requires can { CanRead nodes.now pieces.old.items [] }
        requires one { length (read nodes.now pieces.old.items []) ≡ 1 }
        requires short { All (λ bits. length bits ≤ MAX_BITS) pieces.old.items }
        ensures same { IfOk result (λ term. value_of (shown self.new.cells) term ∷ [] ≡ read nodes.now pieces.old.items []) }
        ensures valid { IfOk result (IsOver (Valid self.new.cells) AnyAtom) }
        ensures cells { OnOk result (count_of self.new.cells ≡ count_of self.old.cells + length pieces.old.items) }
        ensures keeps { Keeps shown Valid self.old.cells self.new.cells }
        ensures swept { self.new.swept ≡ self.old.swept }
        ensures back { OnErr result (pieces.new.items ≡ pieces.old.items) }
        ensures stands { OnErr result (IsSame self.old self.new) }
    {
        let total = pieces.len();
        let places = self.place(pieces)?;
        match self.read_nodes(nodes, places) {
            Ok(term) => Ok(term),
            Err(_) => {
                self.take_back(pieces, total);
                Err(AllocError)
            }
        }
    }

    /// Puts still cells of the pieces in front of the list, the last piece first. The references to them stand in the order in
    /// which they came.
    fn place(&mut self, pieces: &mut Vec<Frozen>) -> Result<Vec<BitRef>, AllocError>
        requires short { All (λ bits. length bits ≤ MAX_BITS) pieces.old.items }
        ensures placed { IfOk result (λ places. HasPlaced self.old self.new places.items pieces.old.items) }
        ensures empty { OnOk result (pieces.new.items ≡ []) }
        ensures room { vec_capacity pieces.old ≤ vec_capacity pieces.new }
        ensures keeps { Keeps shown Valid self.old.cells self.new.cells }
        ensures swept { self.new.swept ≡ self.old.swept }
        ensures back { OnErr result (pieces.new.items ≡ pieces.old.items) }
        ensures stands { OnErr result (IsSame self.old self.new) }
    {
        let mut places = Vec::with_capacity(self.alloc, pieces.len())?;
        while let Some(bits) = pieces.pop() {
            match self.add_still(bits) {
                Ok(place) => push_reserved(&mut places, place),
                Err(failed) => {
                    push_reserved(pieces, failed.value);
                    self.take_back(pieces, places.len());
                    return Err(AllocError);
                }
            }
        }
        Ok(places)
    }

    /// Puts a still cell of these bits in front of the list.
    fn add_still(&mut self, bits: Frozen) -> Result<BitRef, AllocFailed<Frozen>>
        ensures place { IfOk result (λ place. place ≡ PartOf self.new.head 0 (length bits)) }
        ensures added { OnOk result (IsAdded self.old self.new bits) }
        ensures keeps { Keeps shown Valid self.old.cells self.new.cells }
        ensures swept { self.new.swept ≡ self.old.swept }
        ensures back { IfErr result (λ failed. failed.value ≡ bits) }
        ensures stands { OnErr result (self.new ≡ self.old) }
    {
        let len = bits.bits().len();
        match self.add(Storage::Still(bits)) {
            Ok(cell) => Ok(BitRef::Part { cell, off: 0, len }),
            Err(failed) => match failed.value {
                Storage::Still(bits) => Err(AllocFailed { value: bits }),
                Storage::Room(_) => unreachable!(),
            },
        }
    }

    /// Takes so many still cells off the front of the list, and puts their bits behind the pieces.
    fn take_back(&mut self, pieces: &mut Vec<Frozen>, count: usize)
        requires placed { (first : Contents) × ((parts : List (List Bool)) × ((length parts ≡ count) × InFront first parts self.old)) }
        requires room { vec_len pieces.old + count ≤ vec_capacity pieces.old }
        ensures pieces { (first : Contents) (parts : List (List Bool)) → length parts ≡ count → InFront first parts self.old → pieces.new.items ≡ pieces.old.items ++ parts }
        ensures stands { (first : Contents) (parts : List (List Bool)) → length parts ≡ count → InFront first parts self.old → IsSame first self.new }
        ensures capacity { vec_capacity pieces.old ≤ vec_capacity pieces.new }
    {
        for i in 0..count {
            push_reserved(pieces, self.take_front());
        }
    }

    /// Takes a still cell off the front of the list.
    fn take_front(&mut self) -> Frozen
        requires { (bits : List Bool) × IsStillOf (cell_at self.old.cells self.old.head) bits }
        ensures there { IsSomeAnd (cell_at self.old.cells self.old.head) (λ cell. (cell.next ≡ self.new.head)) }
        ensures bits { IsStillOf (cell_at self.old.cells self.old.head) result }
        ensures gone { cell_at self.new.cells self.old.head ≡ None }
        ensures others { OnlyCell self.old.head self.old.cells self.new.cells }
        ensures fewer { count_of self.new.cells + 1 ≡ count_of self.old.cells }
        ensures swept { self.new.swept ≡ self.old.swept }
    {
        match self.cells.try_remove(self.head as usize) {
            Some(cell) => {
                let Cell { storage, next, .. } = cell;
                self.head = next;
                self.count -= 1;
                match storage {
                    Storage::Still(bits) => bits,
                    Storage::Room(_) => unreachable!(),
                }
            }
            None => unreachable!(),
        }
    }

    /// The term of the nodes; their pieces stand at the places, the first at the last.
    fn read_nodes(&self, nodes: &[Node], places: Vec<BitRef>) -> Result<Term<BitRef>, AllocError>
        requires places { All (Valid self.now.cells) places.items }
        requires can { CanRead nodes.now (queue self.now.cells places.items) [] }
        requires one { length (read nodes.now (queue self.now.cells places.items) []) ≡ 1 }
        ensures same { IfOk result (λ term. value_of (shown self.now.cells) term ∷ [] ≡ read nodes.now (queue self.now.cells places.items) []) }
        ensures valid { IfOk result (IsOver (Valid self.now.cells) AnyAtom) }
    {
        let mut places = places;
        let mut stack = Vec::new(self.alloc);
        for node in nodes {
            let term = self.node_term(node, &mut places, &mut stack)?;
            stack.push(term)?;
        }
        match stack.pop() {
            Some(term) => Ok(term),
            None => unreachable!(),
        }
    }

    /// The term of a node. Its items come off the stack, and its bits are at the last place.
    fn node_term(
        &self,
        node: &Node,
        places: &mut Vec<BitRef>,
        stack: &mut Vec<Term<BitRef>>,
    ) -> Result<Term<BitRef>, AllocError>
        requires places { All (Valid self.now.cells) places.old.items }
        requires stack { All (IsOver (Valid self.now.cells) AnyAtom) stack.old.items }
        requires can { CanBe node.now (queue self.now.cells places.old.items) (values_of self.now.cells stack.old.items) }
        ensures { IfOk result (λ term. HasMade self.now.cells node.now places.old.items stack.old.items places.new.items stack.new.items term) }
    {
        match node {
            Node::Int(number) => Ok(Term::Int(*number)),
            Node::Atom(number) => Ok(Term::Atom(*number)),
            Node::Pid(number) => Ok(Term::Pid(*number)),
            Node::Small(bits) => Ok(Term::Bits(BitRef::Small(bits.copy()))),
            Node::Piece => match places.pop() {
                Some(place) => Ok(Term::Bits(place)),
                None => unreachable!(),
            },
            Node::Tuple(count) => {
                let items = last_items(stack, *count)?;
                self.tuple(items)
            }
            Node::List(count) => {
                let items = last_items(stack, *count)?;
                self.list(items)
            }
        }
    }

    /// The tuple of these items, which is within the bounds.
    fn tuple(&self, items: Vec<Term<BitRef>>) -> Result<Term<BitRef>, AllocError>
        requires over { All (IsOver (Valid self.now.cells) AnyAtom) items.items }
        requires within { is_within (VTuple (row (values_of self.now.cells items.items))) ≡ true }
        ensures over { IfOk result (IsOver (Valid self.now.cells) AnyAtom) }
        ensures value { IfOk result (λ term. value_of (shown self.now.cells) term ≡ VTuple (row (values_of self.now.cells items.items))) }
    {
        match tuple_of(self.alloc, items)? {
            Some(term) => Ok(term),
            None => unreachable!(),
        }
    }

    /// The list of these items, which is within the bounds.
    fn list(&self, items: Vec<Term<BitRef>>) -> Result<Term<BitRef>, AllocError>
        requires over { All (IsOver (Valid self.now.cells) AnyAtom) items.items }
        requires within { is_within (VList (row (values_of self.now.cells items.items))) ≡ true }
        ensures over { IfOk result (IsOver (Valid self.now.cells) AnyAtom) }
        ensures value { IfOk result (λ term. value_of (shown self.now.cells) term ≡ VList (row (values_of self.now.cells items.items))) }
    {
        match list_of(self.alloc, items)? {
            Some(term) => Ok(term),
            None => unreachable!(),
        }
    }
}

/// Takes the last `count` terms off the stack.
fn last_items(stack: &mut Vec<Term<BitRef>>, count: usize) -> Result<Vec<Term<BitRef>>, AllocError>
    requires { count ≤ length stack.old.items }
    ensures left { OnOk result (stack.new.items ≡ take (length stack.old.items - count) stack.old.items) }
    ensures items { IfOk result (λ items. items.items ≡ drop (length stack.old.items - count) stack.old.items) }
{
    let at = stack.len() - count;
    stack.split_off(at)
}

/// Adds an item for which there is room.
fn push_reserved<T: Drop>(items: &mut Vec<T>, item: T)
    requires { vec_len items.old + 1 ≤ vec_capacity items.old }
    ensures items { items.new.items ≡ items.old.items ++ item ∷ [] }
    ensures capacity { vec_capacity items.old ≤ vec_capacity items.new }
{
    match items.push(item) {
        Ok(()) => (),
        Err(_) => unreachable!(),
    }
}
