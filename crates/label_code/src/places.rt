//! Where instructions and variables lie in memory.

ghost use Rattle.std.specs.Prelude.{◌≡◌, ◌+◌, ◌*◌, ◌/◌, ◌^◌, ◌<◌, ◌≤◌, ℕ};

use crate::image::MAX_INSTRUCTIONS;
use mit_syntax::declarations::MAX_CELLS;

/// How many bytes an instruction takes. The first one lies at address 0.
pub const INSTRUCTION_BYTES: u32 = 4;

/// The address of the first variable: 2^20.
pub const DATA_START: u32 = 1_048_576;

/// How many bytes a variable takes.
pub const CELL_BYTES: u32 = 8;

/// The address of an instruction, by its place in the code.
#[inline(always)]
pub fn code_address(place: u32) -> u32
    requires { place < 2 ^ 30 }
    ensures { result ≡ 4 * place }
{
    INSTRUCTION_BYTES * place
}

/// The address of a variable, by its number.
#[inline(always)]
pub fn data_address(variable: u32) -> u32
    requires { variable < 2 ^ 28 }
    ensures { result ≡ 2 ^ 20 + 8 * variable }
{
    DATA_START + CELL_BYTES * variable
}

/// Says nothing at run time: the instructions of an image and its variables share no byte and no page of 1,024 bytes,
/// no two variables share a byte, and all lie below 2^32.
pub fn code_and_data_lie_apart()
    ensures pages { (a x : ℕ) → a < MAX_INSTRUCTIONS → (4 * a + 3) / 1024 < (2 ^ 20 + 8 * x) / 1024 }
    ensures cells { (x y : ℕ) → x < y → 2 ^ 20 + 8 * x + 8 ≤ 2 ^ 20 + 8 * y }
    ensures fits { (x : ℕ) → x < MAX_CELLS → 2 ^ 20 + 8 * x + 8 < 2 ^ 32 }
{}
