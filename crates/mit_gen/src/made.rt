//! Making a program.

ghost use Rattle.std.specs.Prelude.{◌≡◌, ◌≤◌, ◌++◌, length, IfOk, OnOk, string_bytes};
ghost use Rattle.mit_gen.specs.Made.{separator, units, program_text, starts_text};

use crate::draws::Draws;
use crate::starts::starts;
use crate::unit::put_unit;
use std::alloc::{AllocError, Global};
use text_base::pos::Memory;

/// The texts of a made program and of its starts.
#[derive(Debug, Drop)]
pub struct Made {
    pub program: Vec<u8>,
    pub starts: Vec<u8>,
}

const DECLARATIONS: &str =
    "var l0 : L;\nvar l1 : L;\nvar l2 : L;\nvar l3 : L;\nvar h0 : H;\nvar h1 : H;\nvar h2 : H;\nvar h3 : H;\n";

/// A program of 1 to 10,000 units with four starts, from the first state of the draws, a number of at most
/// 2,147,483,647.
///
/// # Errors
/// `Memory` where memory runs out.
pub fn make(alloc: Global, size: u32, number: u32) -> Result<Made, Memory>
    requires some { 1 ≤ size }
    requires few { size ≤ 10000 }
    requires number { number ≤ 2147483647 }
    ensures program { IfOk result (λ m. m.program.items ≡ program_text size number) }
    ensures starts { IfOk result (λ m. m.starts.items ≡ starts_text) }
    ensures short { IfOk result (λ m. (length m.program.items ≤ 1048576) × (length m.starts.items ≤ 1048576)) }
{
    let program = program(alloc, size, number)?;
    let starts = starts(alloc)?;
    Ok(Made {
        program: program.into_bytes(),
        starts: starts.into_bytes(),
    })
}

fn program(alloc: Global, size: u32, number: u32) -> Result<String, AllocError>
    ensures { IfOk result (λ s. string_bytes s ≡ program_text size number) }
{
    let mut text = String::from_str(alloc, DECLARATIONS)?;
    put_units(&mut text, size, number)?;
    text.push_str("\n")?;
    Ok(text)
}

fn put_units(text: &mut String, size: u32, number: u32) -> Result<(), AllocError>
    ensures { OnOk result (string_bytes text.new ≡ string_bytes text.old ++ units number size) }
{
    let mut draws = Draws::new(number);
    for k in 0..size {
        put_separator(text, k)?;
        put_unit(text, draws.unit())?;
    }
    Ok(())
}

// Appends what stands before the unit after k others.
fn put_separator(text: &mut String, k: u32) -> Result<(), AllocError>
    ensures { OnOk result (string_bytes text.new ≡ string_bytes text.old ++ separator k) }
{
    if k > 0 {
        text.push_str(";\n")?;
    }
    Ok(())
}
