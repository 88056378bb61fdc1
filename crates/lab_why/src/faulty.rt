//! From a text to the program that it spells, or to what is told of its fault.

ghost use Rattle.std.specs.Prelude.{◌≡◌, ◌≢◌, ◌≤◌, ◌++◌, ℕ, List, Option, length, IfOk};
ghost use Rattle.tim_base.specs.Told.{limit, IsTold};
ghost use Rattle.mit_syntax.specs.Cut.{AreTokens, IsFault};
ghost use Rattle.mit_parser.specs.Words.{told};
ghost use Rattle.mit_parser.specs.Spells.{Refuses};
ghost use Rattle.lab_why.specs.Faulty.{HasTextTold, HasTokensTold, IsSpelled};

use fault_print::faults::{parse_lines, text_lines};
use mit_parser::fault::ParseFault;
use mit_parser::parse::parse;
use mit_syntax::fault::TextFault;
use mit_syntax::program::Program;
use mit_syntax::token::Token;
use mit_syntax::tokens::tokens;
use std::alloc::Global;
use text_base::pos::Memory;
use tool_texts::lines;

/// What a text spells.
#[derive(Drop)]
pub enum Spelled {
    /// A program.
    Spells(Program),
    /// No program: the lines that tell why.
    Faulty(Vec<u8>),
}

/// A line, and what stands behind it.
///
/// # Errors
/// `Memory` is want of memory.
pub fn joined(alloc: Global, line: &[u8], more: &[u8]) -> Result<Vec<u8>, Memory>
    ensures { IfOk result (λ v. v.items ≡ line.now ++ more.now) }
{
    let mut whole = Vec::new(alloc);
    whole.extend_from_slice(line)?;
    whole.extend_from_slice(more)?;
    Ok(whole)
}

// What is told of a text that has no tokens.
fn text_told(alloc: Global, text: &[u8], fault: TextFault) -> Result<Vec<u8>, Memory>
    requires short { length text.now ≤ limit }
    requires fault { IsFault text.now fault }
    requires none { fault ≢ TextFault.Memory }
    ensures { IfOk result (λ v. (content : Option (Option (List ℕ))) → IsTold content text.now → HasTextTold content v.items) }
{
    let more = text_lines(alloc, text, fault)?;
    let line = lines::text_fault(fault);
    joined(alloc, line.bytes(), more.as_slice())
}

// What is told of tokens that are no program.
fn tokens_told(
    alloc: Global,
    text: &[u8],
    tokens: &[Token],
    fault: ParseFault,
) -> Result<Vec<u8>, Memory>
    requires short { length text.now ≤ limit }
    requires tokens { AreTokens text.now tokens.now }
    requires fault { Refuses (told text.now tokens.now) fault }
    requires none { fault ≢ ParseFault.Memory }
    ensures { IfOk result (λ v. (content : Option (Option (List ℕ))) → IsTold content text.now → HasTokensTold content v.items) }
{
    let more = parse_lines(alloc, text, tokens, fault)?;
    let line = lines::parse_fault(text, tokens, fault);
    joined(alloc, line.bytes(), more.as_slice())
}

// A text that has no tokens.
fn faulty_text(alloc: Global, text: &[u8], fault: TextFault) -> Result<Spelled, Memory>
    requires short { length text.now ≤ limit }
    requires fault { IsFault text.now fault }
    ensures { IfOk result (λ x. (content : Option (Option (List ℕ))) → IsTold content text.now → IsSpelled content text.now x) }
{
    match fault {
        TextFault::Memory => Err(Memory),
        _ => Ok(Spelled::Faulty(text_told(alloc, text, fault)?)),
    }
}

// Tokens that are no program.
fn faulty_tokens(
    alloc: Global,
    text: &[u8],
    tokens: &[Token],
    fault: ParseFault,
) -> Result<Spelled, Memory>
    requires short { length text.now ≤ limit }
    requires tokens { AreTokens text.now tokens.now }
    requires fault { Refuses (told text.now tokens.now) fault }
    ensures { IfOk result (λ x. (content : Option (Option (List ℕ))) → IsTold content text.now → IsSpelled content text.now x) }
{
    match fault {
        ParseFault::Memory => Err(Memory),
        _ => Ok(Spelled::Faulty(tokens_told(alloc, text, tokens, fault)?)),
    }
}

/// The program that a text spells, or the lines that tell why it spells none.
///
/// # Errors
/// `Memory` is want of memory.
pub fn spelling(alloc: Global, text: &[u8]) -> Result<Spelled, Memory>
    requires { length text.now ≤ limit }
    ensures { IfOk result (λ x. (content : Option (Option (List ℕ))) → IsTold content text.now → IsSpelled content text.now x) }
{
    let list = match tokens(alloc, text) {
        Ok(list) => list,
        Err(fault) => return faulty_text(alloc, text, fault),
    };
    match parse(alloc, &list, text) {
        Ok(program) => Ok(Spelled::Spells(program)),
        Err(fault) => faulty_tokens(alloc, text, &list, fault),
    }
}
