//! Why there are no intervals.

ghost use Rattle.std.specs.Prelude.{◌≡◌};
ghost use Rattle.first_front.specs.declared.fault.WalkFault.TheVariants.{Memory};

use std::alloc::{AllocError, AllocFailed};

/// Why there are no intervals.
#[derive(Clone, Copy, Debug, PartialEq, Eq)]
pub enum WalkFault {
    /// With some first prediction a run ends after cycle 2^64 - 1.
    TooLong,
    /// Want of memory.
    Memory,
}

impl From<text_base::pos::Memory> for WalkFault {
    ghost from_gives = { λ _ e. e ≡ Memory };

    fn from(_: text_base::pos::Memory) -> WalkFault {
        WalkFault::Memory
    }
}

impl From<AllocError> for WalkFault {
    ghost from_gives = { λ _ e. e ≡ Memory };

    fn from(_: AllocError) -> WalkFault {
        WalkFault::Memory
    }
}

impl<T: Drop> From<AllocFailed<T>> for WalkFault {
    ghost from_gives = { λ _ e. e ≡ Memory };

    fn from(_: AllocFailed<T>) -> WalkFault {
        WalkFault::Memory
    }
}
