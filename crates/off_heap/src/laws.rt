//! A law of appends.

ghost use Rattle.off_heap.specs.Accumulators.{AccumulatorsMoveFew};

/// Appends to one accumulator move at most three times the bits that it has in the end, and 4,096 bits.
#[tactic(auto, using(crate::proofs::Accumulated::accumulators_move_few))]
pub fn accumulators_move_few()
    ensures { AccumulatorsMoveFew }
{}
