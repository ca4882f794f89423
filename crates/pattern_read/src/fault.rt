use std::alloc::{AllocError, AllocFailed};

/// Why no module goes on with a token.
#[derive(Clone, Copy, Debug, PartialEq, Eq)]
pub enum Cause {
    /// No module goes on so, however deep.
    Syntax,
    /// Only a module with deeper trees or more open brackets goes on so.
    TooDeep,
    /// An atom stands where an attribute's name has to, and is none.
    UnknownAttribute,
    /// An atom stands where a word of a segment's type has to, and is none.
    UnknownSegmentType,
    /// No module within the limits goes on so. A reading that is none within the limits was left further left, so it isn't
    /// decided whether another module goes on so.
    Undecided,
}

/// Why a part is not read.
#[derive(Clone, Copy, Debug, PartialEq, Eq)]
pub enum Fault {
    Memory,
    /// The token of that index is refused; the index may be that of the end.
    Refused(usize, Cause),
}

impl From<AllocError> for Fault {
    ghost use Rattle.pattern_read.specs.declared.fault.Fault.TheVariants.{Memory};
    ghost use Rattle.std.specs.Prelude.{◌≡◌};

    ghost from_gives = { λ _ e. e ≡ Memory };

    fn from(_: AllocError) -> Fault {
        Fault::Memory
    }
}

impl<T: Drop> From<AllocFailed<T>> for Fault {
    ghost use Rattle.pattern_read.specs.declared.fault.Fault.TheVariants.{Memory};
    ghost use Rattle.std.specs.Prelude.{◌≡◌};

    ghost from_gives = { λ _ e. e ≡ Memory };

    fn from(_: AllocFailed<T>) -> Fault {
        Fault::Memory
    }
}
