//! Pieces of lines.

ghost use Rattle.std.specs.Prelude.{◌≡◌, ◌++◌, OnOk, decimal};
ghost use Rattle.flow_print.specs.Lines.{label_text, variable_text};
ghost use Rattle.lab_steady.specs.Text.{at_text, begin_text, flow_text, reason_text};

use itoa::Buffer;
use label_lattice::label::Label;
use mit_syntax::program::Program;
use std::alloc::AllocError;
use steady_code::fault::Reason;
use text_base::pos::Pos;

/// Puts a number in decimal digits.
pub(crate) fn put_natural(out: &mut Vec<u8>, n: u32) -> Result<(), AllocError>
    ensures { OnOk result (out.new.items ≡ out.old.items ++ decimal n) }
{
    let mut buffer = Buffer::new();
    out.extend_from_slice(buffer.format(n).as_bytes())
}

/// Puts the name of a label.
pub(crate) fn put_label(out: &mut Vec<u8>, p: &Program, label: Label) -> Result<(), AllocError>
    ensures { OnOk result (out.new.items ≡ out.old.items ++ label_text p.now.order label.number) }
{
    let lattice = p.lattice();
    if u32::from(label.number) < lattice.size() {
        out.extend_from_slice(lattice.name(label).bytes())?;
    }
    Ok(())
}

/// Puts the name of a variable.
pub(crate) fn put_variable(out: &mut Vec<u8>, p: &Program, x: u32) -> Result<(), AllocError>
    ensures { OnOk result (out.new.items ≡ out.old.items ++ variable_text p.now x) }
{
    if x < p.variables() {
        out.extend_from_slice(p.variable_name(x).bytes())?;
    }
    Ok(())
}

/// What a reason is called.
fn reason_words(reason: Reason) -> &'static [u8]
    ensures { result.now ≡ reason_text reason }
{
    match reason {
        Reason::Felt => b"read label".as_slice(),
        Reason::Guard => b"guard".as_slice(),
        Reason::Index => b"index".as_slice(),
        Reason::Assigned => b"assigned".as_slice(),
        Reason::Left | Reason::Right => b"operand".as_slice(),
        Reason::Wait => b"sleep".as_slice(),
        Reason::Estimate => b"estimate".as_slice(),
        Reason::Target => b"jump".as_slice(),
        Reason::Seen => b"shown".as_slice(),
    }
}

/// Puts the place of a command.
fn put_at(out: &mut Vec<u8>, at: Option<Pos>) -> Result<(), AllocError>
    ensures { OnOk result (out.new.items ≡ out.old.items ++ at_text at) }
{
    let Some(pos) = at else {
        return out.extend_from_slice(b"end");
    };
    put_natural(out, pos.line)?;
    out.extend_from_slice(b":")?;
    put_natural(out, pos.column)?;
    Ok(())
}

/// Puts the reason and the place of a fault.
pub(crate) fn put_begin(
    out: &mut Vec<u8>,
    reason: Reason,
    at: Option<Pos>,
) -> Result<(), AllocError>
    ensures { OnOk result (out.new.items ≡ out.old.items ++ begin_text reason at) }
{
    out.extend_from_slice(b"unsteady ")?;
    out.extend_from_slice(reason_words(reason))?;
    out.extend_from_slice(b" at ")?;
    put_at(out, at)?;
    Ok(())
}

/// Puts that a label does not flow to another one.
pub(crate) fn put_flow(
    out: &mut Vec<u8>,
    p: &Program,
    have: Label,
    allowed: Label,
) -> Result<(), AllocError>
    ensures { OnOk result (out.new.items ≡ out.old.items ++ flow_text p.now have.number allowed.number) }
{
    out.extend_from_slice(b": ")?;
    put_label(out, p, have)?;
    out.extend_from_slice(b" does not flow to ")?;
    put_label(out, p, allowed)?;
    out.extend_from_slice(b"\n")?;
    Ok(())
}
