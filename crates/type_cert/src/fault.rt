//! Why a certificate is not accepted.

ghost use Rattle.std.specs.Prelude.{◌≡◌};
ghost use Rattle.type_cert.specs.declared.fault.CertFault.TheVariants.{Memory};

use std::alloc::{AllocError, AllocFailed};

/// Why a certificate is not accepted.
#[derive(Clone, Copy, Debug, PartialEq, Eq)]
pub enum CertFault {
    /// The first wrong line, from 1.
    Line(u32),
    /// Want of memory.
    Memory,
}

impl From<AllocError> for CertFault {
    ghost from_gives = { λ _ f. f ≡ Memory };

    fn from(_: AllocError) -> CertFault {
        CertFault::Memory
    }
}

impl<T: Drop> From<AllocFailed<T>> for CertFault {
    ghost from_gives = { λ _ f. f ≡ Memory };

    fn from(_: AllocFailed<T>) -> CertFault {
        CertFault::Memory
    }
}
