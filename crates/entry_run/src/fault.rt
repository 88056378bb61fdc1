//! Why a run gives no entries.

ghost use Rattle.std.specs.Prelude.{◌≡◌};
ghost use Rattle.entry_run.specs.declared.fault.RunFault.TheVariants.{Memory};

use std::alloc::{AllocError, AllocFailed};

/// Why a run gives no entries.
#[derive(Clone, Copy, Debug, PartialEq, Eq)]
pub enum RunFault {
    /// Even without the waits of its mitigations it does not halt within the limit.
    Unfinished,
    /// Want of memory.
    Memory,
}

impl From<text_base::pos::Memory> for RunFault {
    ghost from_gives = { λ _ e. e ≡ Memory };

    fn from(_: text_base::pos::Memory) -> RunFault {
        RunFault::Memory
    }
}

impl From<AllocError> for RunFault {
    ghost from_gives = { λ _ e. e ≡ Memory };

    fn from(_: AllocError) -> RunFault {
        RunFault::Memory
    }
}

impl<T: Drop> From<AllocFailed<T>> for RunFault {
    ghost from_gives = { λ _ e. e ≡ Memory };

    fn from(_: AllocFailed<T>) -> RunFault {
        RunFault::Memory
    }
}
