ghost use Rattle.std.specs.Prelude.{◌≡◌};
ghost use Rattle.bits_value.specs.Ledger.{ticked};

/// The ledger: a counter of moved bits, which stands still at 2^64 - 1.
#[derive(Debug, Drop)]
pub struct Steps {
    /// The bits that were moved so far.
    pub moved: u64,
}

impl Steps {
    /// A counter at 0.
    pub fn new() -> Steps
        ensures { result.moved ≡ 0 }
    {
        Steps { moved: 0 }
    }

    /// Counts `bits` more.
    pub fn add(&mut self, bits: u32)
        ensures { self.new.moved ≡ ticked self.old.moved bits }
    {
        self.moved = self.moved.saturating_add(bits as u64);
    }
}
