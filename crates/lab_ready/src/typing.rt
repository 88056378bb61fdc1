//! From a program to its least labels, or to why no labels type it.

ghost use Rattle.std.specs.Prelude.{◌≡◌, ◌≤◌, ℕ, List, Option, length, IfOk};
ghost use Rattle.tim_base.specs.Told.{limit};
ghost use Rattle.tool_stages.specs.Stages.{Reads};
ghost use Rattle.lab_ready.specs.Begun.{IsTyping};

use flow_path::why::check_why;
use lab_why::refused::refusal_text;
use label_infer::infer::infer;
use mit_syntax::program::Program;
use mit_syntax::tokens::tokens;
use std::alloc::Global;
use text_base::pos::Memory;
use timing_types::typed::Typed;

/// What typing a program comes to.
#[derive(Drop)]
pub enum Typing {
    /// It is accepted: the program with its least labels.
    Accepted(Typed),
    /// It is refused: the lines that tell why.
    Refused(Vec<u8>),
}

/// Tells of the program of a text that it is accepted, or why it is refused.
///
/// # Errors
/// `Memory` is want of memory.
pub(crate) fn type_program(alloc: Global, text: &[u8], program: Program) -> Result<Typing, Memory>
    requires { length text.now ≤ limit }
    ensures { IfOk result (λ x. (content : Option (Option (List ℕ))) (reads : Reads content program) → reads.bytes ≡ text.now
        → IsTyping content program x) }
{
    let Ok(labelled) = infer(alloc, program) else {
        return Err(Memory);
    };
    let Ok(checked) = check_why(alloc, labelled) else {
        return Err(Memory);
    };
    let refusal = match checked {
        Ok(typed) => return Ok(Typing::Accepted(typed)),
        Err(refusal) => refusal,
    };
    // The text spells a program, so it has tokens.
    let Ok(tokens) = tokens(alloc, text) else {
        return Err(Memory);
    };
    match refusal_text(alloc, text, tokens.as_slice(), &refusal) {
        Ok(lines) => Ok(Typing::Refused(lines)),
        Err(fault) => Err(fault),
    }
}
