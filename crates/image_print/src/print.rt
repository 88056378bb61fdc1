//! Printing an image.

ghost use Rattle.std.specs.Prelude.{◌≡◌, ◌≤◌, IfOk};
ghost use Rattle.mit_syntax.specs.Declarations.{variables};
ghost use Rattle.image_print.specs.ImageText.{image_text};

use crate::instr::put_instr;
use label_code::image::Image;
use mit_syntax::program::Program;
use std::alloc::Global;
use text_base::pos::Memory;

/// The text of an image, with the names of a program: a line for each instruction, of its number from 0,
/// its name, its operand if it has one, and its labels as `[READ, WRITE]`. The program has as many variables
/// as the image, and a label for each of its labels.
///
/// # Errors
/// `Memory` where memory runs out.
pub fn print_image(alloc: Global, i: &Image, p: &Program) -> Result<Vec<u8>, Memory>
    requires variables { i.now.variables ≡ variables p.now.declarations }
    requires labels { i.now.order.size ≤ p.now.order.size }
    ensures { IfOk result (λ v. v.items ≡ image_text p.now i.now) }
{
    i.laws();
    let labels = p.lattice();
    let declared = p.declarations();
    let mut out = Vec::new(alloc);
    for place in 0..i.len() {
        put_instr(&mut out, labels, declared, place, i.at(place))?;
    }
    Ok(out)
}
