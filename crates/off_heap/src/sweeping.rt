//! Marks, and giving up the cells that have none.

ghost use Rattle.std.specs.Prelude.{◌≡◌, ℕ, ◌+◌, ◌≤◌, IsSome, IsSomeAnd, false};
ghost use Rattle.bit_store.specs.Stores.{Keeps};
ghost use Rattle.off_heap.specs.Cells.{cell_at, count_of, Valid, shown, OnlyCell, Marks, ClearedCell, SweptCell, KeepsMarked};
ghost use Rattle.off_heap.specs.Walks.{is_left, WalkedCell};

use crate::cell::Cell;
use crate::heap::{END, Heap};
use crate::reference::BitRef;
use slab::Slab;

/// What a sweep did.
#[derive(Debug, Copy, Clone, PartialEq, Eq, Drop)]
pub struct Swept {
    /// The cells that remain.
    pub left: u32,
    /// The cells that were given up.
    pub dropped: u32,
    /// The buffers that were given up with them as their last handle: none, as no cell shares one.
    pub last: u32,
}

/// Which cells a walk along the list leaves.
#[derive(Copy, Clone, Drop)]
pub enum Leaves {
    All,
    Marked,
    Nothing,
}

impl Heap {
    /// Takes all marks away. Takes no memory.
    pub fn clear_marks(&mut self)
        ensures cleared { (n : ℕ) → ClearedCell (cell_at self.old.cells n) (cell_at self.new.cells n) }
        ensures keeps { Keeps shown Valid self.old.cells self.new.cells }
        ensures swept { self.new.swept ≡ self.old.swept }
    {
        self.walk(Leaves::All);
    }

    /// Marks the cell that a reference names. Takes no memory.
    pub fn mark(&mut self, of: &BitRef)
        requires { Valid self.old.cells of.now }
        ensures marks { Marks self.old.cells self.new.cells of.now }
        ensures keeps { Keeps shown Valid self.old.cells self.new.cells }
        ensures swept { self.new.swept ≡ self.old.swept }
    {
        if let BitRef::Part { cell, .. } = of {
            if let Some(found) = self.cells.get_mut(*cell as usize) {
                found.marked = true;
            }
        }
    }

    /// Gives up the cells without a mark, and takes the marks away. Takes no memory.
    pub fn sweep(&mut self) -> Swept
        ensures swept { (n : ℕ) → SweptCell (cell_at self.old.cells n) (cell_at self.new.cells n) }
        ensures keeps { KeepsMarked self.old.cells self.new.cells }
        ensures left { result.left ≡ count_of self.new.cells }
        ensures dropped { result.left + result.dropped ≡ count_of self.old.cells }
        ensures last { result.last ≡ 0 }
        ensures noted { self.new.swept ≡ result.left }
    {
        let before = self.count;
        let left = self.walk(Leaves::Marked);
        self.swept = left;
        Swept {
            left,
            dropped: before - left,
            last: 0,
        }
    }

    /// Gives up all cells. Takes no memory.
    pub fn empty(&mut self) -> Swept
        ensures none { (n : ℕ) → cell_at self.new.cells n ≡ None }
        ensures left { result.left ≡ 0 }
        ensures dropped { result.dropped ≡ count_of self.old.cells }
        ensures last { result.last ≡ 0 }
        ensures noted { self.new.swept ≡ 0 }
    {
        let before = self.count;
        self.walk(Leaves::Nothing);
        self.swept = 0;
        Swept {
            left: 0,
            dropped: before,
            last: 0,
        }
    }

    /// Walks along the list, takes each mark away, and gives up the cells that it isn't to leave. The result is how many are
    /// left.
    fn walk(&mut self, leaves: Leaves) -> u32
        ensures walked { (n : ℕ) → WalkedCell leaves (cell_at self.old.cells n) (cell_at self.new.cells n) }
        ensures left { result ≡ count_of self.new.cells }
        ensures few { result ≤ count_of self.old.cells }
        ensures swept { self.new.swept ≡ self.old.swept }
    {
        let total = self.count;
        let mut at = self.head;
        let mut head = END;
        let mut count = 0;
        for i in 0..total {
            if stays(&self.cells, at, leaves) {
                let next = keep(&mut self.cells, at, head);
                head = at;
                at = next;
                count += 1;
            } else {
                at = give_up(&mut self.cells, at);
            }
        }
        self.head = head;
        self.count = count;
        count
    }
}

/// Whether a walk leaves the cell.
fn stays(cells: &Slab<Cell>, at: u32, leaves: Leaves) -> bool
    requires { IsSome (cell_at cells.now.slots at) }
    ensures { IsSomeAnd (cell_at cells.now.slots at) (λ cell. is_left leaves cell ≡ result) }
{
    match cells.get(at as usize) {
        Some(found) => match leaves {
            Leaves::All => true,
            Leaves::Marked => found.marked,
            Leaves::Nothing => false,
        },
        None => unreachable!(),
    }
}

/// Takes the mark away and puts the cell in front of `head`. The result is the cell that followed.
fn keep(cells: &mut Slab<Cell>, at: u32, head: u32) -> u32
    requires { IsSome (cell_at cells.old.slots at) }
    ensures others { OnlyCell at cells.old.slots cells.new.slots }
    ensures here { IsSomeAnd (cell_at cells.old.slots at) (λ cell. (result ≡ cell.next) × (cell_at cells.new.slots at ≡ Some (record cell { next = head; marked = false }))) }
    ensures total { count_of cells.new.slots ≡ count_of cells.old.slots }
{
    match cells.get_mut(at as usize) {
        Some(found) => {
            let next = found.next;
            found.next = head;
            found.marked = false;
            next
        }
        None => unreachable!(),
    }
}

/// Gives up the cell. The result is the cell that followed.
fn give_up(cells: &mut Slab<Cell>, at: u32) -> u32
    requires { IsSome (cell_at cells.old.slots at) }
    ensures others { OnlyCell at cells.old.slots cells.new.slots }
    ensures gone { cell_at cells.new.slots at ≡ None }
    ensures here { IsSomeAnd (cell_at cells.old.slots at) (λ cell. result ≡ cell.next) }
    ensures total { count_of cells.new.slots + 1 ≡ count_of cells.old.slots }
{
    match cells.try_remove(at as usize) {
        Some(found) => found.next,
        None => unreachable!(),
    }
}
