//! `compile`: the text of a program's image.

ghost use Rattle.std.specs.Prelude.{IfOk, IfErr, ◌∷◌, []};
ghost use Rattle.tim_base.specs.Kept.{KeepsFiles, NoCountFalls};
ghost use Rattle.tim_base.specs.Faults.{Rose};
ghost use Rattle.tool_words.specs.WordsAsked.{compile};
ghost use Rattle.tool_texts.specs.Ends.{IsStop};
ghost use Rattle.tool_stages.specs.Fetches.{Fetches};
ghost use Rattle.mit_tool.specs.Commands.{IsAnswer};

use image_print::print::print_image;
use std::alloc::Global;
use tim_base::shelf::Shelf;
use tool_stages::compiled::compile;
use tool_texts::status::Status;
use tool_texts::stop::{Stop, no_memory};

/// The text of the image of the program of a file.
///
/// # Errors
/// Stops with the first refusal, or with `Memory`.
pub fn compile_text<S: Shelf>(alloc: Global, shelf: &mut S, file: &str) -> Result<Vec<u8>, Stop>
    ensures same { KeepsFiles (S.content shelf.old) (S.content shelf.new) }
    ensures later { NoCountFalls (S.faults shelf.old) (S.faults shelf.new) }
    ensures log { Fetches (file.now ∷ []) (S.log shelf.old) (S.log shelf.new) result }
    ensures text { IfOk result (λ v. IsAnswer (λ name. Rose (S.faults shelf.old name) (S.faults shelf.new name)) (S.content shelf.old)
        (compile file.now) Status.Done v.items) }
    ensures stop { IfErr result (IsStop (IsAnswer (λ name. Rose (S.faults shelf.old name) (S.faults shelf.new name)) (S.content shelf.old)
        (compile file.now))) }
{
    let compiled = match compile(alloc, shelf, file, None) {
        Ok(compiled) => compiled,
        Err(stop) => return Err(stop),
    };
    let program = compiled.typed.labelled().program();
    match print_image(alloc, &compiled.image, program) {
        Ok(text) => Ok(text),
        Err(_) => Err(no_memory()),
    }
}
