//! The text of a no.

ghost use Rattle.std.specs.Prelude.{◌≡◌, ◌<◌, ◌++◌, OnOk, IfOk, length};
ghost use Rattle.label_infer.specs.Least.{IsLeast};
ghost use Rattle.code_lower.specs.Lowered.{lowered};
ghost use Rattle.lab_steady.specs.Blame.{blamed_of};
ghost use Rattle.lab_steady.specs.Text.{blame_lines, felt_lines, is_felt as tells_read_label, no_text as text_of_no, reason_lines};
ghost use Rattle.lab_steady.specs.Why.{TellsNo};

use crate::blame::blamed_for;
use crate::mend::{kind_there, mend_line};
use crate::owner::owner_of;
use crate::variable::blamed_lines;
use crate::words::{put_begin, put_flow, put_label};
use label_code::code::Instr;
use label_code::image::Image;
use label_lattice::label::Label;
use mit_syntax::token::Token;
use std::alloc::{AllocError, Global};
use steady_code::costing::Costing;
use steady_code::fault::{Fault, Reason};
use text_base::pos::Memory;
use timing_types::labelled::Labelled;

/// Puts the label of what is not seen, and the lines that tell of the variable.
fn put_blame(
    out: &mut Vec<u8>,
    p: &Labelled,
    observer: Label,
    lines: &[u8],
    variable: Option<u32>,
) -> Result<(), AllocError>
    ensures { OnOk result (out.new.items ≡ out.old.items ++ blame_lines p.now observer.number lines.now variable) }
{
    let Some(x) = variable else {
        return out.extend_from_slice(b"\n");
    };
    let label = p.labels().variable(x, p.program().lattice());
    put_flow(out, p.program(), label, observer)?;
    out.extend_from_slice(lines)?;
    Ok(())
}

/// Puts the label of what environments keep.
fn put_felt(out: &mut Vec<u8>, p: &Labelled, parts: Label, label: Label) -> Result<(), AllocError>
    ensures { OnOk result (out.new.items ≡ out.old.items ++ felt_lines p.now parts.number label.number) }
{
    put_flow(out, p.program(), label, parts)?;
    out.extend_from_slice(b"what environments keep for ")?;
    put_label(out, p.program(), label)?;
    out.extend_from_slice(b" need not agree\n")?;
    Ok(())
}

/// Whether it is the read label that does not flow.
fn is_felt(reason: Reason) -> bool
    ensures { result ≡ tells_read_label reason }
{
    match reason {
        Reason::Felt => true,
        Reason::Guard
        | Reason::Index
        | Reason::Assigned
        | Reason::Left
        | Reason::Right
        | Reason::Wait
        | Reason::Estimate
        | Reason::Target
        | Reason::Seen => false,
    }
}

/// Puts what follows the place of a fault.
fn put_reason(
    out: &mut Vec<u8>,
    p: &Labelled,
    observer: Label,
    parts: Label,
    lines: &[u8],
    variable: Option<u32>,
    instr: Instr,
    reason: Reason,
) -> Result<(), AllocError>
    ensures { OnOk result (out.new.items ≡ out.old.items ++ reason_lines p.now observer.number parts.number lines.now variable instr reason) }
{
    if is_felt(reason) {
        put_felt(out, p, parts, instr.er)
    } else {
        put_blame(out, p, observer, lines, variable)
    }
}

/// The text of a no, where these lines tell of the variable to blame.
fn no_lines(
    alloc: Global,
    p: &Labelled,
    image: &Image,
    observer: Label,
    parts: Label,
    costing: Costing,
    tokens: &[Token],
    lines: &[u8],
    variable: Option<u32>,
    fault: Fault,
) -> Result<Vec<u8>, AllocError>
    requires image { image.now ≡ lowered p.now }
    requires place { fault.place < length image.now.instrs }
    requires variable { variable ≡ blamed_of p.now observer.number fault }
    ensures { IfOk result (λ v. v.items ≡ text_of_no costing p.now observer.number parts.number tokens.now lines.now fault) }
{
    let mut out = Vec::new(alloc);
    let at = owner_of(p.program(), fault.place);
    put_begin(&mut out, fault.reason, at)?;
    let instr = image.at(fault.place);
    put_reason(
        &mut out,
        p,
        observer,
        parts,
        lines,
        variable,
        instr,
        fault.reason,
    )?;
    out.extend_from_slice(mend_line(costing, kind_there(tokens, at), fault.reason))?;
    Ok(out)
}

/// The text of a no, by the fault that is told, of a program that is spelled by the tokens of a text.
///
/// # Errors
/// `Memory` is want of memory.
pub(crate) fn no_text(
    alloc: Global,
    p: &Labelled,
    image: &Image,
    observer: Label,
    parts: Label,
    costing: Costing,
    text: &[u8],
    tokens: &[Token],
    fault: Fault,
) -> Result<Vec<u8>, Memory>
    requires least { IsLeast p.now.program p.now.labels }
    requires image { image.now ≡ lowered p.now }
    requires place { fault.place < length image.now.instrs }
    ensures { IfOk result (λ v. TellsNo costing text.now tokens.now p.now observer.number parts.number fault v.items) }
{
    let variable = blamed_for(p, observer, image, fault);
    let lines = blamed_lines(alloc, p, text, tokens, variable)?;
    Ok(no_lines(
        alloc,
        p,
        image,
        observer,
        parts,
        costing,
        tokens,
        lines.as_slice(),
        variable,
        fault,
    )?)
}
