//! The line of an instruction.

ghost use Rattle.std.specs.Prelude.{◌≡◌, ◌<◌, ◌++◌, OnOk};
ghost use Rattle.label_code.specs.Shaped.{InRange};
ghost use Rattle.mit_syntax.specs.Declarations.{variables};
ghost use Rattle.image_print.specs.ImageText.{labels_text, work_text, line_text};
ghost use Rattle.image_print.specs.Named.{IsNamed};

use crate::operand::put_operand;
use crate::words::{mnemonic, put_label, put_natural};
use label_code::code::{Instr, Work};
use label_lattice::label::Label;
use label_lattice::lattice::Lattice;
use mit_syntax::declarations::Variables;
use std::alloc::AllocError;

// Puts the name of an instruction, and its operand if it has one.
fn put_work(
    out: &mut Vec<u8>,
    labels: &Lattice,
    declared: &Variables,
    work: Work,
) -> Result<(), AllocError>
    requires { InRange (variables declared.now) labels.now.size work }
    ensures { OnOk result (out.new.items ≡ out.old.items ++ work_text labels.now declared.now work) }
{
    out.extend_from_slice(mnemonic(work))?;
    put_operand(out, labels, declared, work)?;
    Ok(())
}

// Puts a read label and a write label.
fn put_labels(out: &mut Vec<u8>, labels: &Lattice, er: Label, ew: Label) -> Result<(), AllocError>
    requires er { er.number < labels.now.size }
    requires ew { ew.number < labels.now.size }
    ensures { OnOk result (out.new.items ≡ out.old.items ++ labels_text labels.now er ew) }
{
    out.extend_from_slice(b" [")?;
    put_label(out, labels, er)?;
    out.extend_from_slice(b", ")?;
    put_label(out, labels, ew)?;
    out.extend_from_slice(b"]\n")?;
    Ok(())
}

/// Puts the line of the instruction at a place.
pub fn put_instr(
    out: &mut Vec<u8>,
    labels: &Lattice,
    declared: &Variables,
    place: u32,
    instr: Instr,
) -> Result<(), AllocError>
    requires { IsNamed labels.now declared.now instr }
    ensures { OnOk result (out.new.items ≡ out.old.items ++ line_text labels.now declared.now place instr) }
{
    put_natural(out, place)?;
    out.push(b' ')?;
    put_work(out, labels, declared, instr.work)?;
    put_labels(out, labels, instr.er, instr.ew)?;
    Ok(())
}
