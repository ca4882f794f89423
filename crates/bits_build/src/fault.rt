ghost use Rattle.std.specs.Prelude.{◌≡◌};
ghost use Rattle.bits_build.specs.Parts.{fault_of};

use bit_store::StoreFault;
use std::alloc::{AllocError, AllocFailed};

/// Why no bitstring was built.
#[derive(Debug, Copy, Clone, PartialEq, Eq, Drop)]
pub enum BuildFault {
    /// A segment's value or size is wrong: the reason `badarg`.
    BadArg,
    /// A segment, or the bits up to it, would have more bits than a bitstring may have: the reason `system_limit`.
    Limit,
    NoMemory,
}

impl From<AllocError> for BuildFault {
    ghost use Rattle.bits_build.specs.declared.fault.BuildFault.TheVariants.{NoMemory};

    ghost from_gives = { λ _ fault. fault ≡ NoMemory };

    fn from(_error: AllocError) -> BuildFault {
        BuildFault::NoMemory
    }
}

impl<T: Drop> From<AllocFailed<T>> for BuildFault {
    ghost use Rattle.bits_build.specs.declared.fault.BuildFault.TheVariants.{NoMemory};

    ghost from_gives = { λ _ fault. fault ≡ NoMemory };

    fn from(_error: AllocFailed<T>) -> BuildFault {
        BuildFault::NoMemory
    }
}

impl From<StoreFault> for BuildFault {
    ghost from_gives = { λ fault made. made ≡ fault_of fault };

    fn from(fault: StoreFault) -> BuildFault {
        match fault {
            StoreFault::TooLong => BuildFault::Limit,
            StoreFault::NoMemory => BuildFault::NoMemory,
        }
    }
}
