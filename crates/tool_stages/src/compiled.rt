//! From a file to an image.

ghost use Rattle.std.specs.Prelude.{◌∷◌, [], IfOk, IfErr, OnOk, option_map};
ghost use Rattle.tim_base.specs.Kept.{KeepsFiles, NoCountFalls};
ghost use Rattle.tim_base.specs.Faults.{Rose};
ghost use Rattle.tool_texts.specs.Ends.{IsStop};
ghost use Rattle.tool_stages.specs.Fetches.{Fetches};
ghost use Rattle.tool_stages.specs.Begins.{IsCompiled, ProgramCompileStops, HasCompiled, CompileStops};
ghost use Rattle.tool_stages.specs.Accepted.{IsAccepted};

use crate::image::image;
use crate::observer::observer;
use crate::program::read_program;
use crate::types::typed;
use label_code::image::Image;
use label_lattice::label::Label;
use mit_syntax::program::Program;
use std::alloc::Global;
use tim_base::shelf::Shelf;
use timing_types::typed::Typed;
use tool_texts::stop::Stop;

/// An accepted program with its image, and the label of an observer where one is named.
#[derive(Drop)]
pub struct Compiled {
    pub typed: Typed,
    pub image: Image,
    pub observer: Option<Label>,
}

/// From a program to its image, and from an observer's name to a label.
///
/// # Errors
/// Stops with the first refusal, or with `Memory`.
#[inline(never)]
pub fn compile_program(
    alloc: Global,
    program: Program,
    name: Option<&str>,
) -> Result<Compiled, Stop>
    ensures ok { IfOk result (λ r. IsCompiled program (option_map (λ s. s.now) name.entry) r.typed.labelled r.observer r.image) }
    ensures stop { IfErr result (IsStop (ProgramCompileStops program (option_map (λ s. s.now) name.entry))) }
{
    let observer = observer(program.lattice(), name)?;
    let typed = typed(alloc, program)?;
    match image(alloc, &typed) {
        Ok(image) => Ok(Compiled {
            typed,
            image,
            observer,
        }),
        Err(stop) => Err(stop),
    }
}

/// From a file to an image, and from an observer's name to a label.
///
/// # Errors
/// Stops with the first refusal, or with `Memory`.
#[inline(never)]
pub fn compile<S: Shelf>(
    alloc: Global,
    shelf: &mut S,
    file: &str,
    name: Option<&str>,
) -> Result<Compiled, Stop>
    ensures same { KeepsFiles (S.content shelf.old) (S.content shelf.new) }
    ensures later { NoCountFalls (S.faults shelf.old) (S.faults shelf.new) }
    ensures log { Fetches (file.now ∷ []) (S.log shelf.old) (S.log shelf.new) result }
    ensures ok { IfOk result (λ r. HasCompiled (S.content shelf.old) file.now (option_map (λ s. s.now) name.entry) r.typed.labelled r.observer r.image) }
    ensures stop { IfErr result (IsStop (CompileStops (λ name. Rose (S.faults shelf.old name) (S.faults shelf.new name)) (S.content shelf.old) file.now
        (option_map (λ s. s.now) name.entry))) }
    ensures accepted { OnOk result (IsAccepted (S.content shelf.old file.now)) }
{
    let program = read_program(alloc, shelf, file)?;
    match compile_program(alloc, program, name) {
        Ok(compiled) => Ok(compiled),
        Err(stop) => Err(stop),
    }
}
