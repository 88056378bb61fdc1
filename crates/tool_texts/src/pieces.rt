//! Texts that are written as one piece.

pub mod audits;
pub mod boxes;

ghost use Rattle.std.specs.Prelude.{◌≡◌, ◌≤◌, ◌++◌, OnOk, length};
ghost use Rattle.tool_texts.specs.Texts.{number_line};

use crate::lines::number;
use std::alloc::AllocError;
use tim_base::line::Line;

// Appends a line.
fn put(text: &mut Vec<u8>, line: &Line) -> Result<(), AllocError>
    ensures { OnOk result (text.new.items ≡ text.old.items ++ line.now) }
{
    text.extend_from_slice(line.bytes())
}

// Appends words, a number and the end of the line.
fn put_number(text: &mut Vec<u8>, words: &[u8], n: u64) -> Result<(), AllocError>
    requires { length words.now ≤ 64 }
    ensures { OnOk result (text.new.items ≡ text.old.items ++ number_line words.now n) }
{
    put(text, &number(words, n))
}
