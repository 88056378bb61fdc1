//! The object of a program that is accepted.

ghost use Rattle.std.specs.Prelude.{◌≡◌, IfOk};
ghost use Rattle.found_print.specs.Plain.{accepted_object};

use crate::members::{put_end, put_found};
use json_text::put::{put_key, put_number};
use std::alloc::{AllocError, Global};
use tool_texts::lines::accepted;

/// The object of an accepted program that has so many commands and mitigates.
///
/// # Errors
/// `AllocError` is want of memory.
pub fn accepted_object(alloc: Global, commands: u32, mitigates: u32) -> Result<Vec<u8>, AllocError>
    ensures { IfOk result (λ v. v.items ≡ accepted_object commands mitigates) }
{
    let mut out = Vec::new(alloc);
    let line = accepted(commands, mitigates);
    put_found(&mut out, b"accepted", line.bytes())?;
    put_key(&mut out, b"commands")?;
    put_number(&mut out, u64::from(commands))?;
    put_key(&mut out, b"mitigates")?;
    put_number(&mut out, u64::from(mitigates))?;
    put_end(&mut out)?;
    Ok(out)
}
