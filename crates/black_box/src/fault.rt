//! Why a file of ready cycles is refused.

ghost use Rattle.black_box.specs.declared.fault.ReadyFault.TheVariants.{Memory};
ghost use Rattle.std.specs.Prelude.{◌≡◌};

use std::alloc::{AllocError, AllocFailed};
use thiserror::Error;

/// Why a file of ready cycles is refused, in the order of the checks. The numbers of the errors are the order
/// of the variants.
#[derive(Clone, Copy, Debug, PartialEq, Eq, Error)]
pub enum ReadyFault {
    /// The first line, counted from 1 with the empty ones, that is neither empty nor `run` nor a cycle, or
    /// that is a cycle before any `run`.
    #[error("bad line {0}")]
    BadLine(u32),
    /// Each line is empty.
    #[error("no runs")]
    NoRuns,
    /// There are more than 4,096 runs: this many.
    #[error("too many runs: {0}")]
    TooMany(u32),
    /// Memory was not there.
    #[error("out of memory")]
    Memory,
}

impl<T: Drop> From<AllocFailed<T>> for ReadyFault {
    ghost from_gives = { λ _ e. e ≡ Memory };

    fn from(_: AllocFailed<T>) -> ReadyFault {
        ReadyFault::Memory
    }
}

impl From<AllocError> for ReadyFault {
    ghost from_gives = { λ _ e. e ≡ Memory };

    fn from(_: AllocError) -> ReadyFault {
        ReadyFault::Memory
    }
}
