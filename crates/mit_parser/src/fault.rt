//! Why tokens spell no program.

ghost use Rattle.mit_parser.specs.declared.fault.ParseFault.TheVariants.{Memory};
ghost use Rattle.std.specs.Prelude.{◌≡◌};

use label_lattice::fault::LatticeFault;
use std::alloc::{AllocError, AllocFailed};
use text_base::pos::Pos;
use thiserror::Error;

/// Why tokens spell no program.
#[derive(Clone, Copy, Debug, PartialEq, Eq, Error)]
pub enum ParseFault {
    /// With the token here the text begins no program, and with those before it it does.
    #[error("unexpected at {}:{}", .0.line, .0.column)]
    Unexpected(Pos),
    /// The token here opens the 101st bracket, or is the 257th operator of one expression.
    #[error("too deep at {}:{}", .0.line, .0.column)]
    TooDeep(Pos),
    /// There are more declarations than a program may have: this many.
    #[error("too many variables: {0}")]
    TooMany(u32),
    /// The name here is declared nowhere.
    #[error("unknown name at {}:{}", .0.line, .0.column)]
    Unknown(Pos),
    /// The name here is declared a second time.
    #[error("name twice at {}:{}", .0.line, .0.column)]
    Twice(Pos),
    /// The labels and their order make no lattice.
    #[error("no lattice")]
    Lattice(LatticeFault),
    /// Memory was not there.
    #[error("out of memory")]
    Memory,
    /// The length here is 0, or with it the lengths of all arrays so far sum up to more than 2,048.
    #[error("array size at {}:{}", .0.line, .0.column)]
    Size(Pos),
    /// The name here is an array's and has no index, or is a scalar's and has one.
    #[error("wrong use of a name at {}:{}", .0.line, .0.column)]
    Misuse(Pos),
}

impl<T: Drop> From<AllocFailed<T>> for ParseFault {
    ghost from_gives = { λ _ e. e ≡ Memory };

    fn from(_: AllocFailed<T>) -> ParseFault {
        ParseFault::Memory
    }
}

impl From<AllocError> for ParseFault {
    ghost from_gives = { λ _ e. e ≡ Memory };

    fn from(_: AllocError) -> ParseFault {
        ParseFault::Memory
    }
}
