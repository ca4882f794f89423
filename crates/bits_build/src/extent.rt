//! How many bits a segment has.

ghost use Rattle.std.specs.Prelude.{◌<◌, List, Bool, Option, Some, option_map, option_copied};
ghost use Rattle.term_value.specs.Extent.{extent, written};
ghost use Rattle.term_value.specs.Value.{VInt};
ghost use Rattle.term_value.specs.Terms.{value_of};
ghost use Rattle.bits_build.specs.Extents.{IsExtent, HasUnit};

use crate::part::Part;
use bits_value::MAX_BITS;
use erl_syntax::{SizeUse, Typed};
use term_value::Term;

/// How many bits a segment has.
#[derive(Debug, Copy, Clone, Drop)]
pub enum Extent {
    Bits(u32),
    /// More than a bitstring may have.
    TooLong,
    /// The whole value, in units of so many bits.
    InUnits(u16),
    /// As many as the character's spelling has.
    Spelled,
    /// The size is no integer, or negative.
    BadSize,
}

/// How many bits the part has by its type and its size.
pub fn extent_of<R>(part: &Part<R>) -> Extent
    ensures unit { 0 < part.now.typed.unit → HasUnit result }
    ensures is { (shown : R → List Bool) → IsExtent (extent part.now.typed.size part.now.typed.unit (option_map (value_of shown) part.now.size)) result }
{
    reach(&part.typed, part.size.as_ref())
}

/// How many bits a segment of this type has by the value of its size.
pub fn reach<R>(typed: &Typed, size: Option<&Term<R>>) -> Extent
    ensures unit { 0 < typed.now.unit → HasUnit result }
    ensures is { (shown : R → List Bool) → IsExtent (extent typed.now.size typed.now.unit (option_map (value_of shown) (option_copied size.entry))) result }
{
    let unit = typed.unit;
    match typed.size {
        SizeUse::Default(count) => in_units(i128::from(count), unit),
        SizeUse::Given => match size {
            Some(Term::Int(count)) => in_units(*count, unit),
            _ => Extent::BadSize,
        },
        SizeUse::Whole => Extent::InUnits(unit),
        SizeUse::NoSize => Extent::Spelled,
    }
}

fn in_units(count: i128, unit: u16) -> Extent
    ensures is { IsExtent (written unit (Some (VInt count))) result }
    ensures unit { HasUnit result }
{
    if count < 0 {
        return Extent::BadSize;
    }
    let bits = count.unsigned_abs().saturating_mul(u128::from(unit));
    if bits <= u128::from(MAX_BITS) {
        Extent::Bits(bits as u32)
    } else {
        Extent::TooLong
    }
}
