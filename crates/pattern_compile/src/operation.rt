//! The operations of programs.

ghost use Rattle.std.specs.Prelude.{◌≡◌};
ghost use Rattle.pattern_compile.specs.Meaning.{typed_of, wants, size_form, sized_typed, sized_wants, kind_of};

use crate::pattern::{SizeForm, Target, Want};
use bits_value::{Endian, Sign, UtfKind};
use erl_syntax::{Kind, Listed, SizeUse, Typed};

/// What is done with so many bits.
#[derive(Clone, Copy, Debug, PartialEq, Eq, Drop)]
pub enum SizedOperation {
    /// Takes them and binds the variable to the number, or to the part where `bits`.
    Take {
        sign: Sign,
        endian: Endian,
        bits: bool,
        var: u32,
    },
    /// Takes them.
    Skip,
    /// Takes them and compares the number, or the part where `bits`, with what is wanted.
    Compare {
        sign: Sign,
        endian: Endian,
        bits: bool,
        want: Want,
    },
}

/// An operation of a program: what it takes off the front of bits.
#[derive(Clone, Copy, Debug, PartialEq, Eq, Drop)]
pub enum Operation {
    /// Sets the length for the operation that it has: the size times the unit. A bad size does not match.
    SizeOf {
        size: SizeForm,
        unit: u16,
        then: SizedOperation,
    },
    /// Takes what remains, where that is a multiple of the unit.
    Rest {
        unit: u16,
        target: Target,
    },
    /// Takes one character.
    Utf {
        kind: UtfKind,
        endian: Endian,
        target: Target,
    },
}

/// A program, made of a bit pattern.
#[derive(Debug, Drop)]
pub struct MatchProgram {
    pub ops: Listed<Operation>,
    /// Whether nothing may remain behind the last operation.
    pub whole: bool,
}

fn kind_of(bits: bool) -> Kind
    ensures { result ≡ kind_of bits }
{
    if bits { Kind::Bitstring } else { Kind::Int }
}

impl SizedOperation {
    /// The type of the segment that it takes, in units of so many bits.
    pub fn typed(&self, unit: u16) -> Typed
        ensures { result ≡ sized_typed unit self.now }
    {
        let (kind, sign, endian) = match *self {
            SizedOperation::Take {
                sign,
                endian,
                bits,
                ..
            } => (kind_of(bits), sign, endian),
            SizedOperation::Skip => (Kind::Bitstring, Sign::Unsigned, Endian::Big),
            SizedOperation::Compare {
                sign,
                endian,
                bits,
                ..
            } => (kind_of(bits), sign, endian),
        };
        Typed {
            kind,
            sign,
            endian,
            size: SizeUse::Given,
            unit,
        }
    }

    /// What it wants of the value.
    pub fn target(&self) -> Target
        ensures { result ≡ sized_wants self.now }
    {
        match *self {
            SizedOperation::Take { var, .. } => Target::Bind(var),
            SizedOperation::Skip => Target::Any,
            SizedOperation::Compare { want, .. } => Target::Same(want),
        }
    }
}

impl Operation {
    /// The type of the segment that it takes.
    pub fn typed(&self) -> Typed
        ensures { result ≡ typed_of self.now }
    {
        match *self {
            Operation::SizeOf { unit, then, .. } => then.typed(unit),
            Operation::Rest { unit, .. } => Typed {
                kind: Kind::Bitstring,
                sign: Sign::Unsigned,
                endian: Endian::Big,
                size: SizeUse::Whole,
                unit,
            },
            Operation::Utf { kind, endian, .. } => Typed {
                kind: Kind::Utf(kind),
                sign: Sign::Unsigned,
                endian,
                size: SizeUse::NoSize,
                unit: 1,
            },
        }
    }

    /// What it wants of the value.
    pub fn target(&self) -> Target
        ensures { result ≡ wants self.now }
    {
        match *self {
            Operation::SizeOf { then, .. } => then.target(),
            Operation::Rest { target, .. } => target,
            Operation::Utf { target, .. } => target,
        }
    }

    /// The size, in units, where it has one.
    pub fn size(&self) -> Option<SizeForm>
        ensures { result ≡ size_form self.now }
    {
        match *self {
            Operation::SizeOf { size, .. } => Some(size),
            Operation::Rest { .. } => None,
            Operation::Utf { .. } => None,
        }
    }
}
