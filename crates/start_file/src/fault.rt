//! Why a start file is refused.

ghost use Rattle.start_file.specs.declared.fault.StartFault.TheVariants.{Memory};
ghost use Rattle.std.specs.Prelude.{◌≡◌};

use std::alloc::{AllocError, AllocFailed};
use thiserror::Error;

/// Why a start file is refused, in the order of the checks. The numbers of the errors are the order of
/// the variants. Runs are numbered from 1, and the top level has the number 0.
#[derive(Clone, Copy, Debug, PartialEq, Eq, Error)]
pub enum StartFault {
    /// The bytes are no TOML document.
    #[error("not TOML")]
    NotToml,
    /// The version is neither 1 nor 2.
    #[error("version")]
    Version,
    /// A key that stands here is unknown, or this run is no table.
    #[error("run {0}: unknown key")]
    UnknownKey(u32),
    /// There is no array of runs, or it is empty.
    #[error("no runs")]
    NoRuns,
    /// There are more than 4,096 runs: this many.
    #[error("too many runs: {0}")]
    TooMany(u64),
    /// A value of this run's memory is no integer, or no array of integers that fits.
    #[error("run {0}: not a number")]
    NotNumber(u32),
    /// A touch of this run is none.
    #[error("run {0}: bad touch")]
    BadTouch(u32),
    /// Memory was not there.
    #[error("out of memory")]
    Memory,
}

impl<T: Drop> From<AllocFailed<T>> for StartFault {
    ghost from_gives = { λ _ e. e ≡ Memory };

    fn from(_: AllocFailed<T>) -> StartFault {
        StartFault::Memory
    }
}

impl From<AllocError> for StartFault {
    ghost from_gives = { λ _ e. e ≡ Memory };

    fn from(_: AllocError) -> StartFault {
        StartFault::Memory
    }
}
