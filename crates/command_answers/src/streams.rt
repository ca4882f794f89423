// Reading a source to its end or past a limit, and writing bytes whole.
ghost use Rattle.std.specs.Prelude.{◌≡◌, ◌+◌, ◌++◌, ◌<◌, ◌≤◌, ℕ, List, length, IfOk, OnOk, IsErrOf};
ghost use Rattle.std.specs.Io.KnownBytes.{Appends, Consumes, IsAtEnd};
ghost use Rattle.io_ports.specs.Causes.{HasCause, Rose};
ghost use Rattle.command_answers.specs.Stream.{AppendsPrefix, ConsumesAtMost, ReadsUpTo};
ghost use Rattle.command_answers.specs.declared.streams.ReadError.TheVariants.{Fault, Memory};

use io_ports::{Failed, Sink, Source};
use std::alloc::{AllocError, Global};

/// Why a source was not read.
#[derive(Clone, Copy, Debug, PartialEq, Eq)]
pub enum ReadError {
    /// A read failed: the source's count of faults rose.
    Fault,
    /// No memory was left.
    Memory,
}

impl From<Failed> for ReadError {
    ghost from_gives = { λ _ e. e ≡ Fault };

    fn from(_: Failed) -> Self {
        ReadError::Fault
    }
}

impl From<AllocError> for ReadError {
    ghost from_gives = { λ _ e. e ≡ Memory };

    fn from(_: AllocError) -> Self {
        ReadError::Memory
    }
}

const PIECE: usize = 4096;

// Reads a piece of at most so many bytes behind the bytes.
fn read_piece<S: Source>(
    source: &mut S,
    bytes: &mut Vec<u8>,
    most: usize,
) -> Result<usize, ReadError>
    requires { 0 < most }
    ensures taken { IfOk result (λ n. (front : List ℕ) × (length front ≡ n) × (bytes.new.items ≡ bytes.old.items ++ front)
        × Consumes (S.left source.old) (S.left source.new) front) }
    ensures bound { IfOk result (λ n. n ≤ most) }
    ensures takes { ConsumesAtMost (S.left source.old) (S.left source.new) most }
    ensures end { IfOk result (λ n. n ≡ 0 → IsAtEnd (S.left source.new)) }
    ensures later { S.faults source.old ≤ S.faults source.new }
    ensures failed { IsErrOf result ReadError.Fault → Rose (S.faults source.old) (S.faults source.new) }
{
    let mut piece = [0u8; PIECE];
    let room = most.min(PIECE);
    let count = source.read(&mut piece[..room])?;
    bytes.extend_from_slice(&piece[..count])?;
    Ok(count)
}

/// The bytes of the source to its end, or one byte past the limit (both in bytes).
///
/// # Errors
///
/// `Fault` where a read failed, `Memory` for want of memory.
// Each turn takes at least a byte.
pub fn read_all<S: Source>(alloc: Global, source: &mut S, limit: u32) -> Result<Vec<u8>, ReadError>
    ensures read { IfOk result (λ bytes. ReadsUpTo (S.left source.old) (S.left source.new) limit bytes.items) }
    ensures takes { ConsumesAtMost (S.left source.old) (S.left source.new) (limit + 1) }
    ensures later { S.faults source.old ≤ S.faults source.new }
    ensures failed { IsErrOf result ReadError.Fault → Rose (S.faults source.old) (S.faults source.new) }
{
    let most = limit as usize + 1;
    let mut bytes = Vec::new(alloc);
    while bytes.len() < most {
        let missing = most - bytes.len();
        if read_piece(source, &mut bytes, missing)? == 0 {
            return Ok(bytes);
        }
    }
    Ok(bytes)
}

/// Writes the bytes whole, or a prefix of them where the sink fails.
pub fn write_all<K: Sink>(sink: &mut K, bytes: &[u8]) -> Result<(), Failed>
    ensures done { OnOk result (Appends (K.written sink.old) (K.written sink.new) bytes.now) }
    ensures prefix { AppendsPrefix (K.written sink.old) (K.written sink.new) bytes.now }
    ensures cause { HasCause (K.faults sink.old) (K.faults sink.new) result }
{
    let mut at = 0;
    while at < bytes.len() {
        at += sink.write(&bytes[at..])?;
    }
    Ok(())
}
