//! What runs begin with: a program and its first start.

ghost use Rattle.std.specs.Prelude.{◌∷◌, IfOk, IfErr, OnOk, IsTrue, option_map};
ghost use Rattle.tim_base.specs.Kept.{KeepsFiles, NoCountFalls};
ghost use Rattle.tim_base.specs.Faults.{Rose};
ghost use Rattle.start_file.specs.Starts.{seen, IsFor};
ghost use Rattle.tool_texts.specs.Ends.{IsStop, status_of};
ghost use Rattle.tool_stages.specs.Fetches.{Fetches, named};
ghost use Rattle.tool_stages.specs.Begins.{IsReady, RunStops, HasSource, MeaningStops};
ghost use Rattle.tool_stages.specs.Accepted.{is_past_typing, IsAccepted};

use crate::compiled::{Compiled, compile};
use crate::program::read_program;
use crate::starts::first_start;
use mit_syntax::program::Program;
use start_file::start::Start;
use std::alloc::Global;
use tim_base::shelf::Shelf;
use tool_texts::stop::Stop;

/// What a run begins with: a program and its first start.
///
/// # Errors
/// Stops with the first refusal, or with `Memory`.
pub fn ready<S: Shelf>(
    alloc: Global,
    shelf: &mut S,
    file: &str,
    starts: Option<&str>,
    name: Option<&str>,
) -> Result<(Compiled, Start), Stop>
    ensures same { KeepsFiles (S.content shelf.old) (S.content shelf.new) }
    ensures later { NoCountFalls (S.faults shelf.old) (S.faults shelf.new) }
    ensures log { Fetches (file.now ∷ named (option_map (λ s. s.now) starts.entry)) (S.log shelf.old) (S.log shelf.new) result }
    ensures ok { IfOk result (λ r. IsReady (S.content shelf.old) file.now (option_map (λ s. s.now) starts.entry) (option_map (λ s. s.now) name.entry)
        r.0.typed.labelled r.0.observer r.0.image (seen r.1)) }
    ensures valid { IfOk result (λ r. IsFor r.0.typed.labelled.program (seen r.1)) }
    ensures stop { IfErr result (IsStop (RunStops (λ name. Rose (S.faults shelf.old name) (S.faults shelf.new name)) (S.content shelf.old) file.now
        (option_map (λ s. s.now) starts.entry) (option_map (λ s. s.now) name.entry))) }
    ensures accepted { OnOk result (IsAccepted (S.content shelf.old file.now)) }
    ensures accepted_stop { IfErr result (λ e. IsTrue (is_past_typing (status_of e)) → IsAccepted (S.content shelf.old file.now)) }
{
    let compiled = match compile(alloc, shelf, file, name) {
        Ok(compiled) => compiled,
        Err(stop) => return Err(stop),
    };
    match first_start(alloc, shelf, starts, compiled.typed.labelled().program()) {
        Ok(start) => Ok((compiled, start)),
        Err(stop) => Err(stop),
    }
}

/// What a run without its time begins with: a program and its first start.
///
/// # Errors
/// Stops with the first refusal, or with `Memory`.
pub fn source<S: Shelf>(
    alloc: Global,
    shelf: &mut S,
    file: &str,
    starts: Option<&str>,
) -> Result<(Program, Start), Stop>
    ensures same { KeepsFiles (S.content shelf.old) (S.content shelf.new) }
    ensures later { NoCountFalls (S.faults shelf.old) (S.faults shelf.new) }
    ensures log { Fetches (file.now ∷ named (option_map (λ s. s.now) starts.entry)) (S.log shelf.old) (S.log shelf.new) result }
    ensures ok { IfOk result (λ r. HasSource (S.content shelf.old) file.now (option_map (λ s. s.now) starts.entry) r.0 (seen r.1)) }
    ensures valid { IfOk result (λ r. IsFor r.0 (seen r.1)) }
    ensures stop { IfErr result (IsStop (MeaningStops (λ name. Rose (S.faults shelf.old name) (S.faults shelf.new name)) (S.content shelf.old) file.now
        (option_map (λ s. s.now) starts.entry))) }
{
    let program = match read_program(alloc, shelf, file) {
        Ok(program) => program,
        Err(stop) => return Err(stop),
    };
    match first_start(alloc, shelf, starts, &program) {
        Ok(start) => Ok((program, start)),
        Err(stop) => Err(stop),
    }
}
