//! `infer`: the canonical text of a program with all its labels.

ghost use Rattle.std.specs.Prelude.{IfOk, IfErr, ◌∷◌, []};
ghost use Rattle.tim_base.specs.Kept.{KeepsFiles, NoCountFalls};
ghost use Rattle.tim_base.specs.Faults.{Rose};
ghost use Rattle.tool_words.specs.WordsAsked.{infer};
ghost use Rattle.tool_texts.specs.Ends.{IsStop};
ghost use Rattle.tool_stages.specs.Fetches.{Fetches};
ghost use Rattle.mit_tool.specs.Commands.{IsAnswer};

use label_write::write::print_labelled;
use std::alloc::Global;
use tim_base::shelf::Shelf;
use tool_stages::program::read_program;
use tool_stages::types::typed;
use tool_texts::status::Status;
use tool_texts::stop::{Stop, no_memory};

/// The canonical text of the program of a file, in which every label of its least labelling is written.
///
/// # Errors
/// Stops with the first refusal, or with `Memory`.
pub fn infer_text<S: Shelf>(alloc: Global, shelf: &mut S, file: &str) -> Result<Vec<u8>, Stop>
    ensures same { KeepsFiles (S.content shelf.old) (S.content shelf.new) }
    ensures later { NoCountFalls (S.faults shelf.old) (S.faults shelf.new) }
    ensures log { Fetches (file.now ∷ []) (S.log shelf.old) (S.log shelf.new) result }
    ensures text { IfOk result (λ v. IsAnswer (λ name. Rose (S.faults shelf.old name) (S.faults shelf.new name)) (S.content shelf.old)
        (infer file.now) Status.Done v.items) }
    ensures stop { IfErr result (IsStop (IsAnswer (λ name. Rose (S.faults shelf.old name) (S.faults shelf.new name)) (S.content shelf.old) (infer file.now))) }
{
    let program = read_program(alloc, shelf, file)?;
    let typed = typed(alloc, program)?;
    match print_labelled(alloc, typed.labelled()) {
        Ok(text) => Ok(text),
        Err(_) => Err(no_memory()),
    }
}
