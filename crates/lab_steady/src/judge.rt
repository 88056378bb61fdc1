//! From a labelled program to the answer.

ghost use Rattle.std.specs.Prelude.{◌≡◌, ◌≤◌, ◌<◌, ◌^◌, Some, IfOk, IfErr, length};
ghost use Rattle.label_infer.specs.Least.{IsLeast};
ghost use Rattle.code_lower.specs.Lowered.{lowered, IsLowerFault};
ghost use Rattle.lab_steady.specs.Judged.{IsJudged, is_one_command, join_below, told as fault_told, top_of};
ghost use Rattle.lab_steady.specs.Answer.{IsAnswered, IsNo};
ghost use Rattle.lab_steady.specs.Told.{status_told, text_told};

use crate::no::no_text;
use crate::owner::{is_one_place, owner_of};
use crate::yes::yes_text;
use code_lower::lower::LowerFault;
use label_code::image::Image;
use label_lattice::label::Label;
use label_lattice::lattice::Lattice;
use mit_syntax::tokens::tokens;
use std::alloc::Global;
use steady_code::costing::Costing;
use steady_code::fault::Fault;
use steady_program::steady::steady;
use timing_types::labelled::Labelled;

/// What is told of a program.
#[derive(Drop)]
pub(crate) enum Verdict {
    /// It is steady.
    Steady(Vec<u8>),
    /// It may not be.
    Unsteady(Vec<u8>),
}

/// The label to which all flow.
fn top(lattice: &Lattice) -> Label
    ensures { result.number ≡ top_of lattice.now }
{
    lattice.laws();
    let mut top = lattice.bottom();
    for number in 0..lattice.size() {
        top = lattice.join(top, Label::new(number as u8));
    }
    top
}

/// Whether two places are in the own code of one command.
fn is_one_command_in(p: &Labelled, a: u32, b: u32) -> bool
    ensures { result ≡ is_one_command p.now a b }
{
    let program = p.program();
    is_one_place(owner_of(program, a), owner_of(program, b))
}

/// The fault that is told.
fn told(p: &Labelled, first: Fault, plain: Option<Fault>) -> Fault
    ensures { result ≡ fault_told p.now first plain }
{
    match plain {
        Some(fault) if is_one_command_in(p, first.place, fault.place) => fault,
        _ => first,
    }
}

/// The answer of a program with a first fault.
fn refused(
    alloc: Global,
    p: &Labelled,
    image: &Image,
    observer: Label,
    parts: Label,
    costing: Costing,
    whole: bool,
    text: &[u8],
    first: Fault,
) -> Result<Vec<u8>, LowerFault>
    requires least { IsLeast p.now.program p.now.labels }
    requires size { length text.now < 2 ^ 31 }
    requires image { image.now ≡ lowered p.now }
    requires first { IsJudged costing p.now observer.number parts.number whole (Some first) }
    ensures ok { IfOk result (λ v. IsNo costing text.now p.now observer.number parts.number whole v.items) }
    ensures fault { IfErr result (IsLowerFault p.now) }
{
    let top = top(p.program().lattice());
    let plain = steady(alloc, p, observer, top, costing, whole)?;
    let fault = told(p, first, plain.fault);
    // The text spells the program, so it has tokens.
    let Ok(tokens) = tokens(alloc, text) else {
        return Err(LowerFault::Memory);
    };
    match no_text(
        alloc,
        p,
        image,
        observer,
        parts,
        costing,
        text,
        tokens.as_slice(),
        fault,
    ) {
        Ok(lines) => Ok(lines),
        Err(_) => Err(LowerFault::Memory),
    }
}

/// Whether a program with its least labels, which a text spells, is steady, and the text that tells it.
///
/// # Errors
/// Those of `lower_labelled`.
pub(crate) fn judge(
    alloc: Global,
    p: &Labelled,
    observer: Label,
    parts: Label,
    costing: Costing,
    whole: bool,
    text: &[u8],
) -> Result<Verdict, LowerFault>
    requires least { IsLeast p.now.program p.now.labels }
    requires size { length text.now < 2 ^ 31 }
    ensures ok { IfOk result (λ a. IsAnswered costing text.now p.now observer.number parts.number whole (status_told a) (text_told a)) }
    ensures short { IfOk result (λ a. length (lowered p.now).instrs ≤ 200000) }
    ensures fault { IfErr result (IsLowerFault p.now) }
{
    let answer = steady(alloc, p, observer, parts, costing, whole)?;
    match answer.fault {
        None => Ok(Verdict::Steady(yes_text(alloc, p, observer, parts, costing, whole)?)),
        Some(first) => Ok(Verdict::Unsteady(refused(
            alloc,
            p,
            &answer.image,
            observer,
            parts,
            costing,
            whole,
            text,
            first,
        )?)),
    }
}
