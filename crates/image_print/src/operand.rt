//! The operand of an instruction.

ghost use Rattle.std.specs.Prelude.{◌≡◌, ◌<◌, ◌++◌, OnOk, codes, decimal};
ghost use Rattle.std.specs.Fmt.{signed_decimal};
ghost use Rattle.label_code.specs.Shaped.{InRange};
ghost use Rattle.mit_syntax.specs.Declarations.{variables, cell_at};
ghost use Rattle.image_print.specs.ImageText.{level_text, operand_text};

use crate::words::{put_label, put_natural, put_signed};
use label_code::code::Work;
use label_lattice::label::Label;
use label_lattice::lattice::Lattice;
use mit_syntax::declarations::Variables;
use mit_syntax::operators::op_sign;
use std::alloc::AllocError;

fn put_target(out: &mut Vec<u8>, target: u32) -> Result<(), AllocError>
    ensures { OnOk result (out.new.items ≡ out.old.items ++ (codes " " ++ decimal target)) }
{
    out.push(b' ')?;
    put_natural(out, target)?;
    Ok(())
}

fn put_value(out: &mut Vec<u8>, value: i64) -> Result<(), AllocError>
    ensures { OnOk result (out.new.items ≡ out.old.items ++ (codes " " ++ signed_decimal value)) }
{
    out.push(b' ')?;
    put_signed(out, value)?;
    Ok(())
}

fn put_word(out: &mut Vec<u8>, word: &[u8]) -> Result<(), AllocError>
    ensures { OnOk result (out.new.items ≡ out.old.items ++ (codes " " ++ word.now)) }
{
    out.push(b' ')?;
    out.extend_from_slice(word)?;
    Ok(())
}

// Puts the name of a variable; an element has its array's name.
fn put_variable(out: &mut Vec<u8>, declared: &Variables, variable: u32) -> Result<(), AllocError>
    requires { variable < variables declared.now }
    ensures { OnOk result (out.new.items ≡ out.old.items ++ (codes " " ++ (cell_at declared.now variable).name)) }
{
    let name = declared.name(variable);
    put_word(out, name.bytes())
}

fn put_level(out: &mut Vec<u8>, labels: &Lattice, level: Label, mark: u32) -> Result<(), AllocError>
    requires { level.number < labels.now.size }
    ensures { OnOk result (out.new.items ≡ out.old.items ++ level_text labels.now level mark) }
{
    out.push(b' ')?;
    put_label(out, labels, level)?;
    put_target(out, mark)?;
    Ok(())
}

/// Puts a space and the operand of an instruction, if it has one.
pub fn put_operand(
    out: &mut Vec<u8>,
    labels: &Lattice,
    declared: &Variables,
    work: Work,
) -> Result<(), AllocError>
    requires { InRange (variables declared.now) labels.now.size work }
    ensures { OnOk result (out.new.items ≡ out.old.items ++ operand_text labels.now declared.now work) }
{
    match work {
        Work::Push(value) => put_value(out, value),
        Work::Load(x) | Work::Store(x) => put_variable(out, declared, x),
        Work::LoadAt { first, .. } | Work::StoreAt { first, .. } => {
            put_variable(out, declared, first)
        }
        Work::Apply(op) => put_word(out, op_sign(op).text()),
        Work::Brz(target) | Work::Brnz(target) | Work::Jmp(target) => put_target(out, target),
        Work::Mitb { level, mark } => put_level(out, labels, level, mark),
        Work::Sleep | Work::Mite | Work::Nop | Work::Halt => Ok(()),
    }
}
