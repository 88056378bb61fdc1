//! From a file to the answer.

ghost use Rattle.std.specs.Prelude.{◌≡◌, ◌≢◌, ◌≤◌, ◌∷◌, [], ℕ, List, Option, length, IfOk, IfErr};
ghost use Rattle.tim_base.specs.Kept.{KeepsFiles, NoCountFalls};
ghost use Rattle.tim_base.specs.Faults.{Rose};
ghost use Rattle.tim_base.specs.Told.{limit, IsTold};
ghost use Rattle.tool_texts.specs.Ends.{IsStop};
ghost use Rattle.tool_texts.specs.Texts.{program};
ghost use Rattle.tool_stages.specs.Fetches.{Fetches, FileStops};
ghost use Rattle.tool_stages.specs.Stages.{Reads};
ghost use Rattle.lab_check.specs.Answers.{IsFound, IsCheckAnswer};
ghost use Rattle.lab_check.specs.Found.{IsTextAnswer};
ghost use Rattle.found_print.specs.Refused.{refused_object};

use crate::answer::Answer;
use crate::faulty::{Spelled, spelling};
use flow_path::why::{Refusal, check_why};
use found_print::accepted::accepted_object;
use found_print::refused::refused_object;
use label_infer::infer::infer;
use mit_syntax::program::Program;
use mit_syntax::token::Token;
use mit_syntax::tokens::tokens;
use std::alloc::Global;
use text_base::pos::Memory;
use tim_base::shelf::Shelf;
use tool_stages::file::bytes_of;
use tool_texts::status::Status;
use tool_texts::stop::{Stop, no_memory};

// The object of a refusal, for a program that is spelled by the tokens of a text.
fn refusal_object(
    alloc: Global,
    text: &[u8],
    tokens: &[Token],
    refusal: &Refusal,
) -> Result<Vec<u8>, Memory>
    ensures { IfOk result (λ v. v.items
        ≡ refused_object text.now tokens.now refusal.now.labelled.program refusal.now.fault refusal.now.chain.items) }
{
    let program = refusal.labelled.program();
    let chain = refusal.chain.as_slice();
    let object = refused_object(alloc, text, tokens, program, refusal.fault, chain)?;
    Ok(object)
}

// The answer for the program of a text.
fn program_answer(alloc: Global, text: &[u8], program: Program) -> Result<Answer, Memory>
    requires { length text.now ≤ limit }
    ensures { IfOk result (λ x. (content : Option (Option (List ℕ))) (reads : Reads content program) → reads.bytes ≡ text.now
        → IsFound content program x.status x.text.items) }
{
    let object = accepted_object(alloc, program.commands(), program.mitigates())?;
    let Ok(labelled) = infer(alloc, program) else {
        return Err(Memory);
    };
    let Ok(checked) = check_why(alloc, labelled) else {
        return Err(Memory);
    };
    let Err(refusal) = checked else {
        return Ok(Answer {
            status: Status::Done,
            text: object,
        });
    };
    // The text spells a program, so it has tokens.
    let Ok(tokens) = tokens(alloc, text) else {
        return Err(Memory);
    };
    match refusal_object(alloc, text, tokens.as_slice(), &refusal) {
        Ok(text) => Ok(Answer {
            status: Status::Refused,
            text,
        }),
        Err(fault) => Err(fault),
    }
}

// The answer for a text.
fn text_answer(alloc: Global, text: &[u8]) -> Result<Answer, Memory>
    requires { length text.now ≤ limit }
    ensures { IfOk result (λ x. (content : Option (Option (List ℕ))) → IsTold content text.now → IsTextAnswer content x) }
{
    match spelling(alloc, text) {
        Ok(Spelled::Spells(program)) => program_answer(alloc, text, program),
        Ok(Spelled::Faulty(object)) => Ok(Answer {
            status: Status::Syntax,
            text: object,
        }),
        Err(fault) => Err(fault),
    }
}

/// The answer for the program of a file, made before it is written.
///
/// # Errors
/// Stops where the file is not read or too long, or with `Memory`.
pub(crate) fn checked<S: Shelf>(alloc: Global, shelf: &mut S, file: &str) -> Result<Answer, Stop>
    ensures same { KeepsFiles (S.content shelf.old) (S.content shelf.new) }
    ensures later { NoCountFalls (S.faults shelf.old) (S.faults shelf.new) }
    ensures log { Fetches (file.now ∷ []) (S.log shelf.old) (S.log shelf.new) result }
    ensures told { IfOk result (λ x. IsCheckAnswer (λ name. Rose (S.faults shelf.old name) (S.faults shelf.new name)) (S.content shelf.old) file.now
        x.status x.text.items) }
    ensures read { IfOk result (λ x. x.status ≢ Status.ReadFault) }
    ensures stop { IfErr result (IsStop (FileStops (Rose (S.faults shelf.old file.now) (S.faults shelf.new file.now)) (S.content shelf.old file.now)
        program)) }
{
    let text = match bytes_of(alloc, shelf, file, b"program") {
        Ok(text) => text,
        Err(stop) => return Err(stop),
    };
    match text_answer(alloc, text.as_slice()) {
        Ok(answer) => Ok(answer),
        Err(_) => Err(no_memory()),
    }
}
