//! Why a command stops before its own text.

ghost use Rattle.std.specs.Prelude.{◌≡◌};
ghost use Rattle.tool_texts.specs.declared.status.Status.TheVariants as status;
ghost use Rattle.tool_texts.specs.declared.stop.Stop.TheVariants as stop;
ghost use Rattle.tool_texts.specs.Texts.{memory_line};

use crate::lines;
use crate::status::Status;
use tim_base::line::Line;

/// Why a command stops before its own text.
#[derive(Drop)]
pub enum Stop {
    /// The words ask for nothing: the usage text is written.
    Usage,
    /// A word names nothing: the lines that are written.
    Misnamed(Vec<u8>),
    /// A status, and the one line that is written.
    With { status: Status, line: Line },
}

/// The stop where memory was wanting.
pub fn no_memory() -> Stop
    ensures { result ≡ stop.With status.Memory memory_line }
{
    Stop::With {
        status: Status::Memory,
        line: lines::memory(),
    }
}
