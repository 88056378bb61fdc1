//! The canonical text of a program.

ghost use Rattle.std.specs.Prelude.{◌≡◌, IfOk};
ghost use Rattle.mit_syntax.specs.Layout.{canonical};

mod chunks;
mod commands;
mod expressions;
mod header;

use crate::print::chunks::put_line;
use crate::print::commands::put_commands;
use crate::print::header::{put_declarations, put_labels, put_order};
use crate::program::Program;
use std::alloc::{AllocError, Global};
use text_base::pos::Memory;

/// The canonical text of a program: its header, a line for each declaration, and its commands.
///
/// # Errors
/// `Memory` where memory runs out.
pub fn print_program(alloc: Global, program: &Program) -> Result<Vec<u8>, Memory>
    ensures { IfOk result (λ v. v.items ≡ canonical program.now) }
{
    match text_of(alloc, program) {
        Ok(text) => Ok(text),
        Err(_) => Err(Memory),
    }
}

fn text_of(alloc: Global, program: &Program) -> Result<Vec<u8>, AllocError>
    ensures { IfOk result (λ v. v.items ≡ canonical program.now) }
{
    let labels = program.lattice();
    let variables = program.declarations();
    let body = program.body();
    let mut out = Vec::new(alloc);
    put_labels(&mut out, labels)?;
    put_order(&mut out, labels, program.pairs())?;
    put_declarations(&mut out, labels, variables)?;
    put_commands(&mut out, labels, variables, body, 0)?;
    put_line(&mut out)?;
    Ok(out)
}
