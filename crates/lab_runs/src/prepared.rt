//! What questions about an accepted program begin with. A word that names no label is told with the labels that there are.

ghost use Rattle.std.specs.Prelude.{◌≡◌, ◌∷◌, [], Some, IfOk, IfErr, OnOk, IsTrue, map, option_map};
ghost use Rattle.tim_base.specs.Kept.{KeepsFiles, NoCountFalls};
ghost use Rattle.tim_base.specs.Faults.{Rose};
ghost use Rattle.start_file.specs.Starts.{seen};
ghost use Rattle.tool_texts.specs.Ends.{IsStop, status_of};
ghost use Rattle.tool_stages.specs.Fetches.{Fetches};
ghost use Rattle.tool_stages.specs.Begins.{IsCompiled, HasCompiled, CanAudit};
ghost use Rattle.tool_stages.specs.Accepted.{is_past_typing, IsAccepted};
ghost use Rattle.lab_runs.specs.Labels.{HasPrepared, NamedProgramStops, NamedCompileStops, NamedPrepareStops};

use crate::label::observer_named;
use mit_syntax::program::Program;
use space_stage::listed::listed;
use std::alloc::Global;
use tim_base::shelf::Shelf;
use tool_stages::compiled::Compiled;
use tool_stages::image::image;
use tool_stages::prepared::Prepared;
use tool_stages::program::read_program;
use tool_stages::types::typed;
use tool_texts::stop::Stop;

// From a program to its image, and from an observer's name to a label.
#[inline(never)]
fn compile_program(alloc: Global, program: Program, name: Option<&str>) -> Result<Compiled, Stop>
    ensures ok { IfOk result (λ r. IsCompiled program (option_map (λ s. s.now) name.entry) r.typed.labelled r.observer r.image) }
    ensures stop { IfErr result (IsStop (NamedProgramStops program (option_map (λ s. s.now) name.entry))) }
{
    let observer = observer_named(alloc, program.lattice(), name)?;
    let typed = typed(alloc, program)?;
    match image(alloc, &typed) {
        Ok(image) => Ok(Compiled {
            typed,
            image,
            observer,
        }),
        Err(stop) => Err(stop),
    }
}

/// From a file to an image, and from an observer's name to a label.
///
/// # Errors
/// Stops with the first refusal, or with `Memory`.
#[inline(never)]
pub fn compile<S: Shelf>(
    alloc: Global,
    shelf: &mut S,
    file: &str,
    name: &str,
) -> Result<Compiled, Stop>
    ensures same { KeepsFiles (S.content shelf.old) (S.content shelf.new) }
    ensures later { NoCountFalls (S.faults shelf.old) (S.faults shelf.new) }
    ensures log { Fetches (file.now ∷ []) (S.log shelf.old) (S.log shelf.new) result }
    ensures ok { IfOk result (λ r. HasCompiled (S.content shelf.old) file.now (Some name.now) r.typed.labelled r.observer r.image) }
    ensures stop { IfErr result (IsStop (NamedCompileStops (λ name. Rose (S.faults shelf.old name) (S.faults shelf.new name)) (S.content shelf.old) file.now
        (Some name.now))) }
    ensures accepted { OnOk result (IsAccepted (S.content shelf.old file.now)) }
{
    let program = read_program(alloc, shelf, file)?;
    match compile_program(alloc, program, Some(name)) {
        Ok(compiled) => Ok(compiled),
        Err(stop) => Err(stop),
    }
}

/// An accepted program of a file, the label of an observer, and the starts that another file gives, as
/// a list or as a space.
///
/// # Errors
/// Stops with the first refusal, or with `Memory`.
pub fn prepare<S: Shelf>(
    alloc: Global,
    shelf: &mut S,
    file: &str,
    starts: &str,
    name: &str,
) -> Result<Prepared, Stop>
    ensures same { KeepsFiles (S.content shelf.old) (S.content shelf.new) }
    ensures later { NoCountFalls (S.faults shelf.old) (S.faults shelf.new) }
    ensures log { Fetches (file.now ∷ starts.now ∷ []) (S.log shelf.old) (S.log shelf.new) result }
    ensures ok { IfOk result (λ r. HasPrepared (S.content shelf.old) file.now name.now (S.content shelf.old starts.now) r.compiled.typed.labelled r.observer
        r.compiled.image (map seen r.starts.items)) }
    ensures observed { IfOk result (λ r. r.compiled.observer ≡ Some r.observer) }
    ensures fit { IfOk result (λ r. CanAudit r.compiled.typed.labelled r.observer r.compiled.image (map seen r.starts.items)) }
    ensures stop { IfErr result (IsStop (NamedPrepareStops (λ name. Rose (S.faults shelf.old name) (S.faults shelf.new name)) (S.content shelf.old) file.now
        name.now (Rose (S.faults shelf.old starts.now) (S.faults shelf.new starts.now)) (S.content shelf.old starts.now))) }
    ensures accepted { OnOk result (IsAccepted (S.content shelf.old file.now)) }
    ensures accepted_stop { IfErr result (λ e. IsTrue (is_past_typing (status_of e)) → IsAccepted (S.content shelf.old file.now)) }
{
    let compiled = match compile(alloc, shelf, file, name) {
        Ok(compiled) => compiled,
        Err(stop) => return Err(stop),
    };
    let observer = compiled.observer.unwrap();
    match listed(alloc, shelf, starts, compiled.typed.labelled().program()) {
        Ok(starts) => Ok(Prepared {
            compiled,
            observer,
            starts,
        }),
        Err(stop) => Err(stop),
    }
}
