//! From a file to a program.

ghost use Rattle.std.specs.Prelude.{◌≤◌, ◌∷◌, [], ℕ, List, Option, length, IfOk, IfErr};
ghost use Rattle.tim_base.specs.Kept.{KeepsFiles, NoCountFalls};
ghost use Rattle.tim_base.specs.Faults.{Rose};
ghost use Rattle.tim_base.specs.Told.{limit, IsTold};
ghost use Rattle.mit_syntax.specs.Cut.{AreTokens, IsFault};
ghost use Rattle.mit_parser.specs.Words.{told};
ghost use Rattle.mit_parser.specs.Spells.{Refuses};
ghost use Rattle.tool_texts.specs.Ends.{IsStop};
ghost use Rattle.tool_stages.specs.Fetches.{Fetches};
ghost use Rattle.tool_stages.specs.Stages.{Reads, ProgramStops};

use crate::file::bytes_of;
use mit_parser::fault::ParseFault;
use mit_parser::parse::parse;
use mit_syntax::fault::TextFault;
use mit_syntax::program::Program;
use mit_syntax::token::Token;
use mit_syntax::tokens::tokens;
use std::alloc::Global;
use tim_base::shelf::Shelf;
use tool_texts::lines;
use tool_texts::status::Status;
use tool_texts::stop::{Stop, no_memory};

// The stop for a text that has no tokens.
fn text_stop(fault: TextFault) -> Stop
    ensures { (content : Option (Option (List ℕ))) (text : List ℕ) → IsTold content text → length text ≤ limit → IsFault text fault
        → IsStop (ProgramStops ⊥ content) result }
{
    match fault {
        TextFault::Memory => no_memory(),
        _ => Stop::With {
            status: Status::Syntax,
            line: lines::text_fault(fault),
        },
    }
}

// The stop for tokens of a text that are no program.
fn parse_stop(text: &[u8], tokens: &[Token], fault: ParseFault) -> Stop
    requires short { length text.now ≤ limit }
    requires tokens { AreTokens text.now tokens.now }
    requires fault { Refuses (told text.now tokens.now) fault }
    ensures { (content : Option (Option (List ℕ))) → IsTold content text.now → IsStop (ProgramStops ⊥ content) result }
{
    match fault {
        ParseFault::Memory => no_memory(),
        _ => Stop::With {
            status: Status::Syntax,
            line: lines::parse_fault(text, tokens, fault),
        },
    }
}

/// The program that a text spells.
///
/// # Errors
/// Stops with `Syntax` or `Memory`.
pub fn program_of(alloc: Global, text: &[u8]) -> Result<Program, Stop>
    requires { length text.now ≤ limit }
    ensures ok { IfOk result (λ p. (content : Option (Option (List ℕ))) → IsTold content text.now → Reads content p) }
    ensures stop { IfErr result (λ e. (content : Option (Option (List ℕ))) → IsTold content text.now → IsStop (ProgramStops ⊥ content) e) }
{
    let list = match tokens(alloc, text) {
        Ok(list) => list,
        Err(fault) => return Err(text_stop(fault)),
    };
    match parse(alloc, &list, text) {
        Ok(program) => Ok(program),
        Err(fault) => Err(parse_stop(text, &list, fault)),
    }
}

/// Reads the program that a file holds.
///
/// # Errors
/// Stops with `ReadFault`, `TooLong`, `Syntax` or `Memory`.
#[inline(never)]
pub fn read_program<S: Shelf>(alloc: Global, shelf: &mut S, file: &str) -> Result<Program, Stop>
    ensures same { KeepsFiles (S.content shelf.old) (S.content shelf.new) }
    ensures later { NoCountFalls (S.faults shelf.old) (S.faults shelf.new) }
    ensures log { Fetches (file.now ∷ []) (S.log shelf.old) (S.log shelf.new) result }
    ensures ok { IfOk result (Reads (S.content shelf.old file.now)) }
    ensures stop { IfErr result (IsStop (ProgramStops (Rose (S.faults shelf.old file.now) (S.faults shelf.new file.now)) (S.content shelf.old file.now))) }
{
    let bytes = match bytes_of(alloc, shelf, file, b"program") {
        Ok(bytes) => bytes,
        Err(stop) => return Err(stop),
    };
    match program_of(alloc, &bytes) {
        Ok(program) => Ok(program),
        Err(stop) => Err(stop),
    }
}
