//! From a text to the program that it spells, or to the object of its fault.

ghost use Rattle.std.specs.Prelude.{◌≢◌, ◌≤◌, ℕ, List, Option, length, IfOk};
ghost use Rattle.tim_base.specs.Told.{limit, IsTold};
ghost use Rattle.mit_syntax.specs.Cut.{AreTokens, IsFault};
ghost use Rattle.mit_parser.specs.Words.{told};
ghost use Rattle.mit_parser.specs.Spells.{Refuses};
ghost use Rattle.lab_check.specs.Faults.{HasTextFound, HasTokensFound, Reached, TextCould, TokensCould};
ghost use Rattle.lab_check.specs.Found.{IsSpelled};

use fault_print::faults::{parse_lines, text_lines};
use fault_print::marked::before_place;
use fault_print::text::could_follow;
use found_print::fault::fault_object;
use found_print::place::{parse_place, text_place};
use mit_parser::fault::ParseFault;
use mit_parser::parse::parse;
use mit_syntax::fault::TextFault;
use mit_syntax::program::Program;
use mit_syntax::token::Token;
use mit_syntax::tokens::tokens;
use next_tokens::reach::reach_of;
use next_tokens::sort::Sort;
use std::alloc::Global;
use text_base::pos::Memory;
use tool_texts::lines;

/// What a text spells.
#[derive(Drop)]
pub(crate) enum Spelled {
    /// A program.
    Spells(Program),
    /// No program: the object of its fault.
    Faulty(Vec<u8>),
}

// What could stand at the place of a byte.
fn text_could(alloc: Global, text: &[u8], fault: TextFault) -> Result<Vec<Sort>, Memory>
    requires { length text.now ≤ limit }
    ensures { IfOk result (λ v. TextCould text.now fault v.items) }
{
    match fault {
        TextFault::BadByte(pos) => could_follow(alloc, before_place(text, pos)),
        _ => Ok(Vec::new(alloc)),
    }
}

// What could stand in place of the first token that can't stand where it stands.
fn sorts_there(alloc: Global, tokens: &[Token]) -> Result<Vec<Sort>, Memory>
    ensures { IfOk result (λ v. (text : List ℕ) → Reached (told text tokens.now) v.items) }
{
    let reach = reach_of(alloc, tokens)?;
    Ok(reach.sorts)
}

fn tokens_could(alloc: Global, tokens: &[Token], fault: ParseFault) -> Result<Vec<Sort>, Memory>
    ensures { IfOk result (λ v. (text : List ℕ) → TokensCould text tokens.now fault v.items) }
{
    match fault {
        ParseFault::Unexpected(_) => sorts_there(alloc, tokens),
        _ => Ok(Vec::new(alloc)),
    }
}

// The object of a text that has no tokens.
fn text_found(alloc: Global, text: &[u8], fault: TextFault) -> Result<Vec<u8>, Memory>
    requires short { length text.now ≤ limit }
    requires fault { IsFault text.now fault }
    requires none { fault ≢ TextFault.Memory }
    ensures { IfOk result (λ v. (content : Option (Option (List ℕ))) → IsTold content text.now → HasTextFound content v.items) }
{
    let more = text_lines(alloc, text, fault)?;
    let could = text_could(alloc, text, fault)?;
    let line = lines::text_fault(fault);
    let place = text_place(text, fault);
    let object = fault_object(
        alloc,
        line.bytes(),
        place,
        could.as_slice(),
        more.as_slice(),
    )?;
    Ok(object)
}

// The object of tokens that are no program.
fn tokens_found(
    alloc: Global,
    text: &[u8],
    tokens: &[Token],
    fault: ParseFault,
) -> Result<Vec<u8>, Memory>
    requires short { length text.now ≤ limit }
    requires tokens { AreTokens text.now tokens.now }
    requires fault { Refuses (told text.now tokens.now) fault }
    requires none { fault ≢ ParseFault.Memory }
    ensures { IfOk result (λ v. (content : Option (Option (List ℕ))) → IsTold content text.now → HasTokensFound content v.items) }
{
    let more = parse_lines(alloc, text, tokens, fault)?;
    let could = tokens_could(alloc, tokens, fault)?;
    let line = lines::parse_fault(text, tokens, fault);
    let place = parse_place(text, tokens, fault);
    let object = fault_object(
        alloc,
        line.bytes(),
        place,
        could.as_slice(),
        more.as_slice(),
    )?;
    Ok(object)
}

// A text that has no tokens.
fn faulty_text(alloc: Global, text: &[u8], fault: TextFault) -> Result<Spelled, Memory>
    requires short { length text.now ≤ limit }
    requires fault { IsFault text.now fault }
    ensures { IfOk result (λ x. (content : Option (Option (List ℕ))) → IsTold content text.now → IsSpelled content text.now x) }
{
    match fault {
        TextFault::Memory => Err(Memory),
        _ => Ok(Spelled::Faulty(text_found(alloc, text, fault)?)),
    }
}

// Tokens that are no program.
fn faulty_tokens(
    alloc: Global,
    text: &[u8],
    tokens: &[Token],
    fault: ParseFault,
) -> Result<Spelled, Memory>
    requires short { length text.now ≤ limit }
    requires tokens { AreTokens text.now tokens.now }
    requires fault { Refuses (told text.now tokens.now) fault }
    ensures { IfOk result (λ x. (content : Option (Option (List ℕ))) → IsTold content text.now → IsSpelled content text.now x) }
{
    match fault {
        ParseFault::Memory => Err(Memory),
        _ => Ok(Spelled::Faulty(tokens_found(alloc, text, tokens, fault)?)),
    }
}

/// The program that a text spells, or the object of its fault.
///
/// # Errors
/// `Memory` is want of memory.
pub(crate) fn spelling(alloc: Global, text: &[u8]) -> Result<Spelled, Memory>
    requires { length text.now ≤ limit }
    ensures { IfOk result (λ x. (content : Option (Option (List ℕ))) → IsTold content text.now → IsSpelled content text.now x) }
{
    let list = match tokens(alloc, text) {
        Ok(list) => list,
        Err(fault) => return faulty_text(alloc, text, fault),
    };
    match parse(alloc, &list, text) {
        Ok(program) => Ok(Spelled::Spells(program)),
        Err(fault) => faulty_tokens(alloc, text, &list, fault),
    }
}
