//! From a file to the answer: the program is accepted, or why it is refused.

ghost use Rattle.std.specs.Prelude.{◌≡◌, ◌≤◌, ◌∷◌, [], ℕ, List, Option, length, IfOk, IfErr};
ghost use Rattle.tim_base.specs.Kept.{KeepsFiles, NoCountFalls};
ghost use Rattle.tim_base.specs.Faults.{Rose};
ghost use Rattle.tim_base.specs.Told.{limit, IsTold};
ghost use Rattle.tool_texts.specs.Ends.{IsStop};
ghost use Rattle.tool_texts.specs.Texts.{program};
ghost use Rattle.tool_stages.specs.Fetches.{Fetches, FileStops};
ghost use Rattle.tool_stages.specs.Stages.{Reads};
ghost use Rattle.lab_why.specs.Explained.{IsExplained};

use crate::faulty::{Spelled, spelling};
use crate::refused::refusal_text;
use flow_path::why::check_why;
use label_infer::infer::infer;
use mit_syntax::program::Program;
use mit_syntax::tokens::tokens;
use std::alloc::Global;
use text_base::pos::Memory;
use tim_base::shelf::Shelf;
use timing_types::typed::Typed;
use tool_stages::file::bytes_of;
use tool_texts::stop::{Stop, no_memory};

/// What is told of a program.
#[derive(Drop)]
pub enum Explained {
    /// It is accepted: the program with its least labels.
    Accepted(Typed),
    /// It is refused: the lines that tell why.
    Refused(Vec<u8>),
    /// The text is no program: the lines that tell why.
    Faulty(Vec<u8>),
}

// Tells of the program of a text that it is accepted, or why it is refused.
fn explain_program(alloc: Global, text: &[u8], program: Program) -> Result<Explained, Memory>
    requires { length text.now ≤ limit }
    ensures { IfOk result (λ x. (content : Option (Option (List ℕ))) (reads : Reads content program) → reads.bytes ≡ text.now
        → IsExplained content x) }
{
    let Ok(labelled) = infer(alloc, program) else {
        return Err(Memory);
    };
    let Ok(checked) = check_why(alloc, labelled) else {
        return Err(Memory);
    };
    let refusal = match checked {
        Ok(typed) => return Ok(Explained::Accepted(typed)),
        Err(refusal) => refusal,
    };
    // The text spells a program, so it has tokens.
    let Ok(tokens) = tokens(alloc, text) else {
        return Err(Memory);
    };
    match refusal_text(alloc, text, tokens.as_slice(), &refusal) {
        Ok(lines) => Ok(Explained::Refused(lines)),
        Err(fault) => Err(fault),
    }
}

/// Tells of the program of a file that it is accepted, or why it is refused; or what is wrong with the file's text.
///
/// # Errors
/// Stops where the file is not read or too long, or with `Memory`.
pub fn explain<S: Shelf>(alloc: Global, shelf: &mut S, file: &str) -> Result<Explained, Stop>
    ensures same { KeepsFiles (S.content shelf.old) (S.content shelf.new) }
    ensures later { NoCountFalls (S.faults shelf.old) (S.faults shelf.new) }
    ensures log { Fetches (file.now ∷ []) (S.log shelf.old) (S.log shelf.new) result }
    ensures told { IfOk result (IsExplained (S.content shelf.old file.now)) }
    ensures stop { IfErr result (IsStop (FileStops (Rose (S.faults shelf.old file.now) (S.faults shelf.new file.now)) (S.content shelf.old file.now)
        program)) }
{
    let text = match bytes_of(alloc, shelf, file, b"program") {
        Ok(text) => text,
        Err(stop) => return Err(stop),
    };
    match explain_text(alloc, text.as_slice()) {
        Ok(told) => Ok(told),
        Err(_) => Err(no_memory()),
    }
}

// Tells of a text what it spells.
fn explain_text(alloc: Global, text: &[u8]) -> Result<Explained, Memory>
    requires { length text.now ≤ limit }
    ensures { IfOk result (λ x. (content : Option (Option (List ℕ))) → IsTold content text.now → IsExplained content x) }
{
    match spelling(alloc, text) {
        Ok(Spelled::Spells(program)) => explain_program(alloc, text, program),
        Ok(Spelled::Faulty(lines)) => Ok(Explained::Faulty(lines)),
        Err(fault) => Err(fault),
    }
}
