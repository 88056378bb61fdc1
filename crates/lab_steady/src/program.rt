//! From a file to the answer.

ghost use Rattle.std.specs.Prelude.{◌≤◌, ◌∷◌, [], IfOk, IfErr, length, option_map};
ghost use Rattle.tim_base.specs.Kept.{KeepsFiles, NoCountFalls};
ghost use Rattle.tim_base.specs.Faults.{Rose};
ghost use Rattle.tool_texts.specs.Ends.{IsStop};
ghost use Rattle.tool_stages.specs.Fetches.{Fetches};
ghost use Rattle.tool_stages.specs.Stages.{ImageStops};
ghost use Rattle.tim_base.specs.Told.{limit};
ghost use Rattle.code_lower.specs.Lowered.{IsLowerFault};
ghost use Rattle.timing_types.specs.Labelled.{LabelledProgram};
ghost use Rattle.lab_steady.specs.Answer.{OfProgram, Steadies, SteadiesBy};
ghost use Rattle.lab_steady.specs.Told.{status_told, text_told};

use crate::constant::costing_named;
use crate::judge::{Verdict, judge};
use code_lower::lower::LowerFault;
use lab_runs::label::label_named;
use lab_why::source::{Source, read_source};
use label_infer::infer::infer;
use mit_syntax::program::Program;
use std::alloc::Global;
use steady_code::costing::Costing;
use tim_base::shelf::Shelf;
use tool_texts::lines;
use tool_texts::status::Status;
use tool_texts::stop::{Stop, no_memory};

// The stop where there is no image.
fn image_stop(fault: LowerFault) -> Stop
    ensures { (q : LabelledProgram) → IsLowerFault q fault → IsStop (ImageStops q) result }
{
    match fault {
        LowerFault::TooLong(count) => Stop::With {
            status: Status::TooLong,
            line: lines::too_long_image(count),
        },
        LowerFault::Memory => no_memory(),
    }
}

// What is told of a program that a text spells, for two labels by their names.
fn program_told(
    alloc: Global,
    program: Program,
    text: &[u8],
    observer: &str,
    parts: &str,
    costing: Costing,
    whole: bool,
) -> Result<Verdict, Stop>
    requires { length text.now ≤ limit }
    ensures ok { IfOk result (λ x. OfProgram costing text.now program observer.now parts.now whole (status_told x) (text_told x)) }
    ensures stop { IfErr result (IsStop (OfProgram costing text.now program observer.now parts.now whole)) }
{
    let lattice = program.lattice();
    let observer = label_named(alloc, lattice, b"observer", observer)?;
    let parts = match label_named(alloc, lattice, b"parts", parts) {
        Ok(label) => label,
        Err(stop) => return Err(stop),
    };
    let Ok(labelled) = infer(alloc, program) else {
        return Err(no_memory());
    };
    match judge(alloc, &labelled, observer, parts, costing, whole, text) {
        Ok(told) => Ok(told),
        Err(fault) => Err(image_stop(fault)),
    }
}

/// What is told of the program of a file.
///
/// # Errors
/// Stops with the first refusal, or with `Memory`.
pub(crate) fn steady_told<S: Shelf>(
    alloc: Global,
    shelf: &mut S,
    file: &str,
    observer: &str,
    parts: &str,
    costing: Costing,
    whole: bool,
) -> Result<Verdict, Stop>
    ensures same { KeepsFiles (S.content shelf.old) (S.content shelf.new) }
    ensures later { NoCountFalls (S.faults shelf.old) (S.faults shelf.new) }
    ensures log { Fetches (file.now ∷ []) (S.log shelf.old) (S.log shelf.new) result }
    ensures told { IfOk result (λ x. Steadies costing (λ name. Rose (S.faults shelf.old name) (S.faults shelf.new name)) (S.content shelf.old) file.now
        observer.now parts.now whole (status_told x) (text_told x)) }
    ensures stop { IfErr result (IsStop (Steadies costing (λ name. Rose (S.faults shelf.old name) (S.faults shelf.new name)) (S.content shelf.old) file.now
        observer.now parts.now whole)) }
{
    let Source { text, program } = read_source(alloc, shelf, file)?;
    match program_told(
        alloc,
        program,
        text.as_slice(),
        observer,
        parts,
        costing,
        whole,
    ) {
        Ok(told) => Ok(told),
        Err(stop) => Err(stop),
    }
}

/// What is told of the program of a file, by the costs of operators for which a word asks.
///
/// # Errors
/// Stops with the first refusal, or with `Memory`.
pub(crate) fn steady_by<S: Shelf>(
    alloc: Global,
    shelf: &mut S,
    file: &str,
    observer: &str,
    parts: &str,
    constant: Option<&str>,
    whole: bool,
) -> Result<Verdict, Stop>
    ensures same { KeepsFiles (S.content shelf.old) (S.content shelf.new) }
    ensures later { NoCountFalls (S.faults shelf.old) (S.faults shelf.new) }
    ensures log { Fetches (file.now ∷ []) (S.log shelf.old) (S.log shelf.new) result }
    ensures told { IfOk result (λ x. SteadiesBy (option_map (λ s. s.now) constant.entry)
        (λ name. Rose (S.faults shelf.old name) (S.faults shelf.new name)) (S.content shelf.old) file.now observer.now parts.now whole
        (status_told x) (text_told x)) }
    ensures stop { IfErr result (IsStop (SteadiesBy (option_map (λ s. s.now) constant.entry)
        (λ name. Rose (S.faults shelf.old name) (S.faults shelf.new name)) (S.content shelf.old) file.now observer.now parts.now whole)) }
{
    let costing = match costing_named(alloc, constant) {
        Ok(costing) => costing,
        Err(stop) => return Err(stop),
    };
    match steady_told(alloc, shelf, file, observer, parts, costing, whole) {
        Ok(told) => Ok(told),
        Err(stop) => Err(stop),
    }
}
