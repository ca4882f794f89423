//! Laws of numbers and their spellings.

ghost use Rattle.std.specs.Prelude.{◌≡◌, ◌++◌, List, Bool, take, drop, length, pos};
ghost use Rattle.bits_value.specs.Number.{number, spell, residue, InBits};
ghost use Rattle.bits_value.specs.declared.Sign.TheVariants.{Unsigned};

use crate::{Endian, Sign};

/// A number within the bits of its sign is read back from its spelling, whatever bits follow.
pub fn number_reads_back(value: i128, bits: u32, sign: Sign, endian: Endian)
    requires { InBits sign bits value }
    ensures number { (rest : List Bool) → number (take bits (spell bits value endian ++ rest)) sign endian ≡ value }
    ensures rest { (rest : List Bool) → drop bits (spell bits value endian ++ rest) ≡ rest }
{}

/// The spelling is the one list of `bits` bits whose unsigned number is the value modulo 2^`bits`.
pub fn one_spelling(value: i128, bits: u32, endian: Endian)
    ensures long { length (spell bits value endian) ≡ bits }
    ensures number { number (spell bits value endian) Unsigned endian ≡ pos (residue bits value) }
    ensures alone { (other : List Bool) → length other ≡ bits → number other Unsigned endian ≡ pos (residue bits value) → other ≡ spell bits value endian }
{}
