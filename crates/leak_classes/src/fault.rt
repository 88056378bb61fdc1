//! Why a walk ends before its last run.

ghost use Rattle.std.specs.Prelude.{◌≡◌};
ghost use Rattle.leak_classes.specs.declared.fault.WalkFault.TheVariants.{Memory};

use std::alloc::{AllocError, AllocFailed};

/// Why a walk ends before its last run.
#[derive(Clone, Copy, Debug, PartialEq, Eq)]
pub enum WalkFault {
    /// The run of the start with the number, counted from 1, has not halted by the limit, and this is its clock.
    Unfinished { number: u64, cycle: u64 },
    /// The different sequences up to and with that of a run have so many events together, more than 16,777,216.
    TooMuch { count: u64 },
    /// Want of memory.
    Memory,
}

impl From<text_base::pos::Memory> for WalkFault {
    ghost from_gives = { λ _ e. e ≡ Memory };

    fn from(_: text_base::pos::Memory) -> WalkFault {
        WalkFault::Memory
    }
}

impl From<AllocError> for WalkFault {
    ghost from_gives = { λ _ e. e ≡ Memory };

    fn from(_: AllocError) -> WalkFault {
        WalkFault::Memory
    }
}

impl<T: Drop> From<AllocFailed<T>> for WalkFault {
    ghost from_gives = { λ _ e. e ≡ Memory };

    fn from(_: AllocFailed<T>) -> WalkFault {
        WalkFault::Memory
    }
}
