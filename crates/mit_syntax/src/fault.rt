//! Why a text has no tokens.

ghost use Rattle.mit_syntax.specs.declared.fault.TextFault.TheVariants.{Memory};
ghost use Rattle.std.specs.Prelude.{◌≡◌};

use std::alloc::{AllocError, AllocFailed};
use text_base::pos::Pos;
use thiserror::Error;

/// Why a text has no tokens. The numbers of the errors are the order of the variants.
#[derive(Clone, Copy, Debug, PartialEq, Eq, Error)]
pub enum TextFault {
    /// The text is not UTF-8. The number is that of the bytes of its longest front that is UTF-8, at
    /// most 2^31 - 2.
    #[error("not UTF-8 at byte {0}")]
    NotUtf8(u32),
    /// Neither white space nor a comment nor a token begins here.
    #[error("bad byte at {}:{}", .0.line, .0.column)]
    BadByte(Pos),
    /// A number above 9223372036854775807 begins here.
    #[error("wide number at {}:{}", .0.line, .0.column)]
    WideNumber(Pos),
    /// A name of more than 32 bytes begins here.
    #[error("long name at {}:{}", .0.line, .0.column)]
    LongName(Pos),
    /// Memory was not there.
    #[error("out of memory")]
    Memory,
}

impl<T: Drop> From<AllocFailed<T>> for TextFault {
    ghost from_gives = { λ _ e. e ≡ Memory };

    fn from(_: AllocFailed<T>) -> TextFault {
        TextFault::Memory
    }
}

impl From<AllocError> for TextFault {
    ghost from_gives = { λ _ e. e ≡ Memory };

    fn from(_: AllocError) -> TextFault {
        TextFault::Memory
    }
}
