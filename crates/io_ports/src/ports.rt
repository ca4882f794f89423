// What a source and a sink promise.
ghost use Rattle.std.specs.Prelude.{◌≡◌, ◌<◌, ℕ, List, length, IfOk, Option};
ghost use Rattle.std.specs.Io.{ReadsAtMost, WritesAtMost};
ghost use Rattle.std.specs.Io.KnownBytes.{ReadConsumes, WriteAppends};
ghost use Rattle.io_ports.specs.Causes.{HasCause};

/// A read or a write that failed. Its port counted it.
#[derive(Clone, Copy, Debug, PartialEq, Eq)]
pub struct Failed;

/// Bytes that come in, and a count of the reads that failed.
///
/// The count never falls, and it stands still at 2^64-1.
pub trait Source {
    /// The bytes that are left, where the source tells them.
    ghost left: { Self → Option (List ℕ) };

    /// How many reads failed.
    ghost faults: { Self → ℕ };

    /// How many reads failed.
    fn faults(&self) -> u64
        ensures { result ≡ faults self.now };

    /// Fills the front of the piece and tells how many bytes it gave.
    ///
    /// Gives 0 only at the end or for an empty piece.
    ///
    /// # Errors
    ///
    /// `Failed` comes only where the count rose, and then no byte was taken.
    fn read(&mut self, piece: &mut [u8]) -> Result<usize, Failed>
        ensures bound { ReadsAtMost result piece.new }
        ensures bytes { ReadConsumes (left self.old) (left self.new) result piece.new }
        ensures cause { HasCause (faults self.old) (faults self.new) result };
}

/// Bytes that go out, and a count of the writes that failed.
///
/// The count never falls, and it stands still at 2^64-1.
pub trait Sink {
    /// The bytes that were written, where the sink tells them.
    ghost written: { Self → Option (List ℕ) };

    /// How many writes failed.
    ghost faults: { Self → ℕ };

    /// How many writes failed.
    fn faults(&self) -> u64
        ensures { result ≡ faults self.now };

    /// Takes the front of the piece and tells how many bytes it took: at least one, unless the piece is empty.
    ///
    /// # Errors
    ///
    /// `Failed` comes only where the count rose, and then no byte was written.
    fn write(&mut self, piece: &[u8]) -> Result<usize, Failed>
        ensures bound { WritesAtMost result piece.now }
        ensures some { IfOk result (λ n. 0 < length piece.now → 0 < n) }
        ensures bytes { WriteAppends (written self.old) (written self.new) result piece.now }
        ensures cause { HasCause (faults self.old) (faults self.new) result };
}
