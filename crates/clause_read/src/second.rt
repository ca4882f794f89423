ghost use Rattle.std.specs.Prelude.{◌≡◌, ◌<◌, ◌+◌, ◌^◌, ◌⊎◌, min, length, drop, Some};
ghost use Rattle.erl_syntax.specs.Grammar.{strict};
ghost use Rattle.pattern_read.specs.Reading.{IsRefused};
ghost use Rattle.pattern_read.specs.declared.fault.Cause.TheVariants.{Undecided};
ghost use Rattle.clause_read.specs.ReadText.{IsTold, told};
ghost use Rattle.clause_read.specs.WantedForms.{anything, forms_in};
ghost use Rattle.clause_read.specs.declared.read.ReadCause.TheVariants.{NoMemory, TooDeep};

use crate::forms::read_forms;
use crate::read::ReadCause;
use pattern_read::cursor::Cursor;
use pattern_read::fault::{Cause, Fault};
use std::alloc::Global;

/// A refused token's cause as it is told. If it is open, that memory ran out.
fn decided(cause: Cause) -> ReadCause
    ensures { (result ≡ NoMemory) ⊎ (told cause ≡ Some result) }
{
    match cause {
        Cause::Syntax => ReadCause::Syntax,
        Cause::TooDeep => ReadCause::TooDeep,
        Cause::UnknownAttribute => ReadCause::UnknownAttribute,
        Cause::UnknownSegmentType => ReadCause::UnknownSegmentType,
        Cause::Undecided => ReadCause::NoMemory,
    }
}

/// Too deep, if the token of that index is one of so many. If it is the end, that memory ran out.
fn behind(at: usize, count: usize) -> ReadCause
    ensures { (result ≡ NoMemory) ⊎ ((result ≡ TooDeep) × (at < count)) }
{
    if at < count {
        ReadCause::TooDeep
    } else {
        ReadCause::NoMemory
    }
}

/// How many of so many tokens stand up to that index.
fn count_to(at: usize, count: usize) -> usize
    ensures { result ≡ min (at + 1) count }
{
    if at < count { at + 1 } else { count }
}

/// The cause at a token that the limits left open: a reading that they cut off further left may be one that goes on with it.
/// So the tokens up to it are read again, however deep. They were read within the limits but for the one reading that was cut
/// off, so this reading goes no deeper than about twice the limits (which isn't proved).
///
/// Two things are not proved, and in place of each the answer is that memory ran out: that this reading doesn't leave the cause
/// open too (that would take trees or brackets of 2^32 levels), and that no text which ends where the cause is open is a module
/// past the limits.
fn read_again(alloc: Global, cursor: Cursor, at: usize) -> ReadCause
    requires short { length cursor.words < 2 ^ 32 }
    requires limits { cursor.limits ≡ strict }
    requires open_ { IsRefused strict anything forms_in cursor.words (drop at cursor.words) Undecided }
    ensures { (result ≡ NoMemory) ⊎ IsTold cursor.words (drop at cursor.words) result }
{
    let count = cursor.len();
    let front = cursor.front(count_to(at, count));
    match read_forms(alloc, &front) {
        Ok(_) => behind(at, count),
        Err(Fault::Memory) => ReadCause::NoMemory,
        Err(Fault::Refused(place, why)) => {
            if place == at {
                decided(why)
            } else {
                behind(at, count)
            }
        }
    }
}

/// The cause that is told of the token of that index, with which no module goes on.
pub(crate) fn told_of(alloc: Global, cursor: Cursor, at: usize, why: Cause) -> ReadCause
    requires short { length cursor.words < 2 ^ 32 }
    requires limits { cursor.limits ≡ strict }
    requires refused { IsRefused strict anything forms_in cursor.words (drop at cursor.words) why }
    ensures { (result ≡ NoMemory) ⊎ IsTold cursor.words (drop at cursor.words) result }
{
    match why {
        Cause::Undecided => read_again(alloc, cursor, at),
        cause => decided(cause),
    }
}
