//! Types of segments, and segments, by what they look like in a pattern.

use bits_value::{Endian, Sign, UtfKind};
use erl_syntax::{Kind, SizeUse, Typed};
use pattern_compile::{PatSegment, SizeForm, Target, Want};

/// `X`.
pub(crate) const BYTE: Typed = Typed {
    kind: Kind::Int,
    sign: Sign::Unsigned,
    endian: Endian::Big,
    size: SizeUse::Default(8),
    unit: 1,
};

/// `X:Size`.
pub(crate) const NUMBER: Typed = Typed {
    kind: Kind::Int,
    sign: Sign::Unsigned,
    endian: Endian::Big,
    size: SizeUse::Given,
    unit: 1,
};

/// `X:Size/signed`.
pub(crate) const SIGNED: Typed = Typed {
    kind: Kind::Int,
    sign: Sign::Signed,
    endian: Endian::Big,
    size: SizeUse::Given,
    unit: 1,
};

/// `X:Size/little`.
pub(crate) const LITTLE: Typed = Typed {
    kind: Kind::Int,
    sign: Sign::Unsigned,
    endian: Endian::Little,
    size: SizeUse::Given,
    unit: 1,
};

/// `X:Size/signed-little`.
pub(crate) const SIGNED_LITTLE: Typed = Typed {
    kind: Kind::Int,
    sign: Sign::Signed,
    endian: Endian::Little,
    size: SizeUse::Given,
    unit: 1,
};

/// `X:Size/little-unit:16`.
pub(crate) const SIXTEENS: Typed = Typed {
    kind: Kind::Int,
    sign: Sign::Unsigned,
    endian: Endian::Little,
    size: SizeUse::Given,
    unit: 16,
};

/// `X:Size/binary`.
pub(crate) const BINARY: Typed = Typed {
    kind: Kind::Binary,
    sign: Sign::Unsigned,
    endian: Endian::Big,
    size: SizeUse::Given,
    unit: 8,
};

/// `X:Size/binary-unit:4`.
pub(crate) const NIBBLES: Typed = Typed {
    kind: Kind::Binary,
    sign: Sign::Unsigned,
    endian: Endian::Big,
    size: SizeUse::Given,
    unit: 4,
};

/// `X:Size/bits`.
pub(crate) const BITS: Typed = Typed {
    kind: Kind::Bitstring,
    sign: Sign::Unsigned,
    endian: Endian::Big,
    size: SizeUse::Given,
    unit: 1,
};

/// `X/binary`.
pub(crate) const REST: Typed = Typed {
    kind: Kind::Binary,
    sign: Sign::Unsigned,
    endian: Endian::Big,
    size: SizeUse::Whole,
    unit: 8,
};

/// `X/bits`.
pub(crate) const REST_BITS: Typed = Typed {
    kind: Kind::Bitstring,
    sign: Sign::Unsigned,
    endian: Endian::Big,
    size: SizeUse::Whole,
    unit: 1,
};

/// `X/binary-unit:3`.
pub(crate) const REST_TRIPLES: Typed = Typed {
    kind: Kind::Binary,
    sign: Sign::Unsigned,
    endian: Endian::Big,
    size: SizeUse::Whole,
    unit: 3,
};

/// `X/utf8`.
pub(crate) const UTF_8: Typed = Typed {
    kind: Kind::Utf(UtfKind::Utf8),
    sign: Sign::Unsigned,
    endian: Endian::Big,
    size: SizeUse::NoSize,
    unit: 1,
};

/// `X/utf16`.
pub(crate) const UTF_16: Typed = Typed {
    kind: Kind::Utf(UtfKind::Utf16),
    sign: Sign::Unsigned,
    endian: Endian::Big,
    size: SizeUse::NoSize,
    unit: 1,
};

/// `X/utf16-little`.
pub(crate) const UTF_16_LITTLE: Typed = Typed {
    kind: Kind::Utf(UtfKind::Utf16),
    sign: Sign::Unsigned,
    endian: Endian::Little,
    size: SizeUse::NoSize,
    unit: 1,
};

/// `X/utf32`.
pub(crate) const UTF_32: Typed = Typed {
    kind: Kind::Utf(UtfKind::Utf32),
    sign: Sign::Unsigned,
    endian: Endian::Big,
    size: SizeUse::NoSize,
    unit: 1,
};

/// `X/utf32-little`.
pub(crate) const UTF_32_LITTLE: Typed = Typed {
    kind: Kind::Utf(UtfKind::Utf32),
    sign: Sign::Unsigned,
    endian: Endian::Little,
    size: SizeUse::NoSize,
    unit: 1,
};

/// A segment that binds the variable of this number.
pub(crate) fn binds(var: u32, typed: Typed, size: Option<SizeForm>) -> PatSegment {
    PatSegment {
        typed,
        target: Target::Bind(var),
        size,
        used: false,
    }
}

/// The same, of a variable that a size further right uses.
pub(crate) fn sizes(var: u32, typed: Typed, size: Option<SizeForm>) -> PatSegment {
    PatSegment {
        typed,
        target: Target::Bind(var),
        size,
        used: true,
    }
}

/// A segment that is compared with the variable of this number.
pub(crate) fn same(var: u32, typed: Typed, size: Option<SizeForm>) -> PatSegment {
    PatSegment {
        typed,
        target: Target::Same(Want::Var(var)),
        size,
        used: false,
    }
}

/// A segment that is compared with a number.
pub(crate) fn literal(number: i128, typed: Typed, size: Option<SizeForm>) -> PatSegment {
    PatSegment {
        typed,
        target: Target::Same(Want::Literal(number)),
        size,
        used: false,
    }
}

/// `_`.
pub(crate) fn any(typed: Typed, size: Option<SizeForm>) -> PatSegment {
    PatSegment {
        typed,
        target: Target::Any,
        size,
        used: false,
    }
}

/// A size that is written as a number.
pub(crate) fn fixed(count: u32) -> Option<SizeForm> {
    Some(SizeForm::Fixed(count))
}

/// The size expression of this number.
pub(crate) fn given(expr: u32) -> Option<SizeForm> {
    Some(SizeForm::Given(expr))
}
