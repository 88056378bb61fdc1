//! Why a file gives no space of starts.

ghost use Rattle.space_file.specs.declared.fault.SpaceFault.TheVariants.{Memory};
ghost use Rattle.std.specs.Prelude.{◌≡◌};

use std::alloc::{AllocError, AllocFailed};
use thiserror::Error;

/// Why a file gives no space of starts, in the order of the checks.
#[derive(Clone, Copy, Debug, PartialEq, Eq, Error)]
pub enum SpaceFault {
    /// The bytes are no TOML document.
    #[error("not TOML")]
    NotToml,
    /// The version is not 3.
    #[error("version")]
    Version,
    /// A key that stands at the top, in the space or in its memory is unknown.
    #[error("space: unknown key")]
    UnknownKey,
    /// There is no table `space`.
    #[error("no space")]
    NoSpace,
    /// A value of the memory is no integer and no list of ranges, or no array of these that fits.
    #[error("space: not a range")]
    NotRange,
    /// A variable has a value twice.
    #[error("space: a value twice")]
    ValueTwice,
    /// A touch is none.
    #[error("space: bad touch")]
    BadTouch,
    /// There are more than 2^40 starts.
    #[error("space: too many starts")]
    TooMany,
    /// Memory was not there.
    #[error("out of memory")]
    Memory,
}

impl<T: Drop> From<AllocFailed<T>> for SpaceFault {
    ghost from_gives = { λ _ e. e ≡ Memory };

    fn from(_: AllocFailed<T>) -> SpaceFault {
        SpaceFault::Memory
    }
}

impl From<AllocError> for SpaceFault {
    ghost from_gives = { λ _ e. e ≡ Memory };

    fn from(_: AllocError) -> SpaceFault {
        SpaceFault::Memory
    }
}
