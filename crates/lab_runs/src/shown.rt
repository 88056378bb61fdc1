//! From files to what runs, and the starts of its runs.

ghost use Rattle.std.specs.Prelude.{◌≡◌, ◌∷◌, [], false, IfOk, IfErr, OnOk, IsTrue, map, option_map};
ghost use Rattle.tim_base.specs.Kept.{KeepsFiles, NoCountFalls};
ghost use Rattle.tim_base.specs.Faults.{Rose};
ghost use Rattle.timing_types.specs.Labelled.{LabelledProgram};
ghost use Rattle.code_lower.specs.Lowered.{IsLowerFault};
ghost use Rattle.start_file.specs.Starts.{seen};
ghost use Rattle.tool_texts.specs.Ends.{IsStop, status_of};
ghost use Rattle.tool_stages.specs.Accepted.{is_past_typing, IsAccepted};
ghost use Rattle.tool_stages.specs.Fetches.{Fetches};
ghost use Rattle.tool_stages.specs.Stages.{ImageStops};
ghost use Rattle.lab_runs.specs.CanRun.{CanRun};
ghost use Rattle.lab_runs.specs.Shown.{IsShown, HasShown, HasRuns, ProgramShowStops, FileShowStops, RunsStop};
ghost use Rattle.lab_runs.specs.ShownViews.{shown_of};

use crate::label::observer_named;
use crate::least::{LeastLabelled, least_labelled};
use code_lower::lower::{LowerFault, lower_labelled};
use label_code::image::Image;
use label_lattice::label::Label;
use mit_syntax::program::Program;
use space_stage::listed::listed;
use start_file::start::Start;
use std::alloc::Global;
use tim_base::shelf::Shelf;
use tool_stages::program::read_program;
use tool_texts::lines;
use tool_texts::status::Status;
use tool_texts::stop::{Stop, no_memory};

/// What runs of a program with its image, and the label of an observer where one is named.
#[derive(Drop)]
pub struct ShownProgram {
    pub labels: LeastLabelled,
    pub image: Image,
    pub observer: Option<Label>,
}

/// The same, and starts.
#[derive(Drop)]
pub struct ShownRuns {
    pub program: ShownProgram,
    pub starts: Vec<Start>,
}

// The stop where there is no image.
fn image_stop(fault: LowerFault) -> Stop
    ensures { (q : LabelledProgram) → IsLowerFault q fault → IsStop (ImageStops q) result }
{
    match fault {
        LowerFault::TooLong(count) => Stop::With {
            status: Status::TooLong,
            line: lines::too_long_image(count),
        },
        LowerFault::Memory => no_memory(),
    }
}

// From a program to what runs, and from an observer's name to a label.
fn shown_program(
    alloc: Global,
    program: Program,
    name: Option<&str>,
    refused_too: bool,
) -> Result<ShownProgram, Stop>
    ensures ok { IfOk result (λ r. IsShown refused_too program (option_map (λ s. s.now) name.entry) (shown_of r.labels) r.observer r.image) }
    ensures stop { IfErr result (IsStop (ProgramShowStops refused_too program (option_map (λ s. s.now) name.entry))) }
{
    let observer = observer_named(alloc, program.lattice(), name)?;
    let labels = match least_labelled(alloc, program, refused_too) {
        Ok(labels) => labels,
        Err(stop) => return Err(stop),
    };
    match lower_labelled(alloc, labels.labelled()) {
        Ok(image) => Ok(ShownProgram {
            labels,
            image,
            observer,
        }),
        Err(fault) => Err(image_stop(fault)),
    }
}

/// What runs of the program of a file, and the label of an observer that is named. With `refused_too` a program runs also where
/// no labels type it.
///
/// # Errors
/// Stops with the first refusal, or with `Memory`.
pub fn shown_file<S: Shelf>(
    alloc: Global,
    shelf: &mut S,
    file: &str,
    name: Option<&str>,
    refused_too: bool,
) -> Result<ShownProgram, Stop>
    ensures same { KeepsFiles (S.content shelf.old) (S.content shelf.new) }
    ensures later { NoCountFalls (S.faults shelf.old) (S.faults shelf.new) }
    ensures log { Fetches (file.now ∷ []) (S.log shelf.old) (S.log shelf.new) result }
    ensures ok { IfOk result (λ r. HasShown refused_too (S.content shelf.old) file.now (option_map (λ s. s.now) name.entry)
        (shown_of r.labels) r.observer r.image) }
    ensures stop { IfErr result (IsStop (FileShowStops refused_too (λ name. Rose (S.faults shelf.old name) (S.faults shelf.new name)) (S.content shelf.old)
        file.now (option_map (λ s. s.now) name.entry))) }
{
    let program = read_program(alloc, shelf, file)?;
    match shown_program(alloc, program, name, refused_too) {
        Ok(shown) => Ok(shown),
        Err(stop) => Err(stop),
    }
}

/// What runs of the program of a file, the label of an observer that is named, and the starts that another file gives, as
/// a list or as a space.
/// With `refused_too` a program runs also where no labels type it.
///
/// # Errors
/// Stops with the first refusal, or with `Memory`.
pub fn shown_runs<S: Shelf>(
    alloc: Global,
    shelf: &mut S,
    file: &str,
    starts: &str,
    name: Option<&str>,
    refused_too: bool,
) -> Result<ShownRuns, Stop>
    ensures same { KeepsFiles (S.content shelf.old) (S.content shelf.new) }
    ensures later { NoCountFalls (S.faults shelf.old) (S.faults shelf.new) }
    ensures log { Fetches (file.now ∷ starts.now ∷ []) (S.log shelf.old) (S.log shelf.new) result }
    ensures ok { IfOk result (λ r. HasRuns refused_too (S.content shelf.old) file.now starts.now (option_map (λ s. s.now) name.entry)
        (shown_of r.program.labels) r.program.observer r.program.image (map seen r.starts.items)) }
    ensures fit { IfOk result (λ r. CanRun (shown_of r.program.labels).labelled r.program.observer r.program.image (map seen r.starts.items)) }
    ensures stop { IfErr result (IsStop (RunsStop refused_too (λ name. Rose (S.faults shelf.old name) (S.faults shelf.new name)) (S.content shelf.old)
        file.now starts.now (option_map (λ s. s.now) name.entry))) }
    ensures accepted { refused_too ≡ false → OnOk result (IsAccepted (S.content shelf.old file.now)) }
    ensures accepted_stop { refused_too ≡ false
        → IfErr result (λ e. IsTrue (is_past_typing (status_of e)) → IsAccepted (S.content shelf.old file.now)) }
{
    let shown = match shown_file(alloc, shelf, file, name, refused_too) {
        Ok(shown) => shown,
        Err(stop) => return Err(stop),
    };
    match listed(alloc, shelf, starts, shown.labels.labelled().program()) {
        Ok(starts) => Ok(ShownRuns {
            program: shown,
            starts,
        }),
        Err(stop) => Err(stop),
    }
}
