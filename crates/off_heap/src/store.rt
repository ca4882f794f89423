//! The heap as a store.

ghost use Rattle.off_heap.specs.Cells.{Grows, Valid, shown as shown_by};
ghost use Rattle.off_heap.specs.Short.{valid_is_short};

use crate::heap::Heap;
use crate::reference::BitRef;
use bit_store::{Piece, Store, StoreFault};
use bits_value::{Bits, Steps};
use std::alloc::AllocError;

impl Store<BitRef> for Heap {
    ghost shown = { λ heap of. shown_by heap.cells of };

    ghost has = { λ heap of. Valid heap.cells of };

    ghost grows = { λ heap of other. Grows heap.cells of other };

    fn look<'a>(&'a self, of: &'a BitRef) -> Bits<'a> {
        self.look(of)
    }

    fn part(&self, of: &BitRef, off: u32, bits: u32) -> Result<BitRef, AllocError> {
        Ok(self.part(of, off, bits))
    }

    fn fresh(&mut self, pieces: &[Piece<BitRef>], steps: &mut Steps) -> Result<BitRef, StoreFault> {
        let _moved = steps.moved;
        self.fresh(pieces, steps)
    }

    fn append(
        &mut self,
        to: &BitRef,
        pieces: &[Piece<BitRef>],
        steps: &mut Steps,
    ) -> Result<BitRef, StoreFault> {
        self.append(to, pieces, steps)
    }

    #[tactic(auto, using(crate::proofs::Growth::no_growth))]
    fn still(&mut self, of: &BitRef) {
        self.still(of)
    }

    ghost short = { λ heap of h. valid_is_short heap.cells of h };
}
