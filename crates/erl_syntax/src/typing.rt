use bits_value::{Endian, Sign, UtfKind};

/// Where a segment stands: in a bit expression, in a pattern that is matched, or in the pattern of a bit generator.
#[derive(Clone, Copy, Debug, PartialEq, Eq)]
pub enum SideUse {
    Build,
    Match,
    Generator,
}

/// What a segment has as its value (Erlang Reference Manual, "Bit Syntax Expressions").
#[derive(Clone, Copy, Debug, PartialEq, Eq)]
pub enum Kind {
    /// A number.
    Int,
    /// A bitstring, by default in bytes.
    Binary,
    /// A bitstring, by default in bits.
    Bitstring,
    /// A character.
    Utf(UtfKind),
}

/// How long a segment is.
#[derive(Clone, Copy, Debug, PartialEq, Eq)]
pub enum SizeUse {
    /// No size is written: that many units.
    Default(u32),
    /// The size that is written, in units.
    Given,
    /// No size is written: the whole value, or what remains.
    Whole,
    /// As long as the character's spelling.
    NoSize,
}

/// The type of a segment.
///
/// A sign and an endianness that the kind doesn't use are `Unsigned` and `Big`, and the unit of a character is 1.
#[derive(Clone, Copy, Debug, PartialEq, Eq)]
pub struct Typed {
    pub kind: Kind,
    pub sign: Sign,
    pub endian: Endian,
    pub size: SizeUse,
    /// In bits, 1 to 256.
    pub unit: u16,
}

/// The kinds of words in a segment's type. A segment has one word of each kind at most.
#[derive(Clone, Copy, Debug, PartialEq, Eq)]
pub enum SpecKind {
    Type,
    Sign,
    Endian,
    Unit,
}

/// Why a segment has no type, in the order in which the faults of one segment are told.
#[derive(Clone, Copy, Debug, PartialEq, Eq)]
pub enum SegFault {
    /// Two words of a kind that differ.
    TwoOfAKind,
    /// A unit outside 1 to 256.
    UnitRange,
    /// The word `float`.
    FloatType,
    /// A character with a size.
    SizeOnUtf,
    /// A character with a unit.
    UnitOnUtf,
    /// A number with a unit and without a size.
    UnitWithoutSize,
    /// A string literal that isn't to be numbers or characters.
    StringType,
    /// In a pattern, a bitstring without a size before other segments.
    OpenNotLast,
    /// A bitstring without a size in a generator's pattern.
    OpenInGenerator,
}
