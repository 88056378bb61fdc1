//! `certify`: a certificate of a program's least labelling.

ghost use Rattle.std.specs.Prelude.{IfOk, IfErr, ◌∷◌, []};
ghost use Rattle.tim_base.specs.Kept.{KeepsFiles, NoCountFalls};
ghost use Rattle.tim_base.specs.Faults.{Rose};
ghost use Rattle.tool_words.specs.WordsAsked.{certify};
ghost use Rattle.tool_texts.specs.Ends.{IsStop};
ghost use Rattle.tool_stages.specs.Fetches.{Fetches};
ghost use Rattle.mit_tool.specs.Commands.{IsAnswer};

use std::alloc::Global;
use tim_base::shelf::Shelf;
use tool_stages::program::read_program;
use tool_stages::types::typed;
use tool_texts::status::Status;
use tool_texts::stop::{Stop, no_memory};
use type_cert::certificate::certificate;
use type_cert::laws::derived_texts_are_certificates;

/// The certificate of the program of a file with its least labelling.
///
/// # Errors
/// Stops with the first refusal, or with `Memory`.
pub fn certify_text<S: Shelf>(alloc: Global, shelf: &mut S, file: &str) -> Result<Vec<u8>, Stop>
    ensures same { KeepsFiles (S.content shelf.old) (S.content shelf.new) }
    ensures later { NoCountFalls (S.faults shelf.old) (S.faults shelf.new) }
    ensures log { Fetches (file.now ∷ []) (S.log shelf.old) (S.log shelf.new) result }
    ensures text { IfOk result (λ v. IsAnswer (λ name. Rose (S.faults shelf.old name) (S.faults shelf.new name)) (S.content shelf.old)
        (certify file.now) Status.Done v.items) }
    ensures stop { IfErr result (IsStop (IsAnswer (λ name. Rose (S.faults shelf.old name) (S.faults shelf.new name)) (S.content shelf.old)
        (certify file.now))) }
{
    let program = read_program(alloc, shelf, file)?;
    program.laws();
    let typed = typed(alloc, program)?;
    derived_texts_are_certificates();
    match certificate(alloc, typed.labelled()) {
        Ok(text) => Ok(text),
        Err(_) => Err(no_memory()),
    }
}
