//! What is told of a fault of a text, behind the tool's own line.

ghost use Rattle.std.specs.Prelude.{◌≡◌, ◌++◌, ◌^◌, ◌<◌, drop, length, IfOk};
ghost use Rattle.mit_syntax.specs.Cut.{AreTokens};
ghost use Rattle.fault_print.specs.Marked.{marked};
ghost use Rattle.fault_print.specs.Faults.{TellsToken, TellsText, TellsTokens, place_lines, word_there, byte_at};
ghost use Rattle.fault_print.specs.Names.{name_lines};
ghost use Rattle.fault_print.specs.Hints.{long_hint, utf8_hint, deep_hint};

use crate::hints;
use crate::marked::{behind, put_marked};
use crate::names::name_text;
use crate::text::{byte_lines, put_byte_at, put_place, word_there};
use crate::token::put_token;
use mit_parser::fault::ParseFault;
use mit_syntax::fault::TextFault;
use mit_syntax::token::Token;
use next_tokens::reach::reach_of;
use std::alloc::Global;
use text_base::pos::{Memory, Pos};

// The lines on the first of the tokens that can't stand at its place.
fn token_lines(alloc: Global, text: &[u8], tokens: &[Token]) -> Result<Vec<u8>, Memory>
    requires { AreTokens text.now tokens.now }
    ensures { IfOk result (λ v. TellsToken text.now tokens.now v.items) }
{
    let reach = reach_of(alloc, tokens)?;
    let mut out = Vec::new(alloc);
    put_token(&mut out, text, tokens, reach.taken, reach.sorts.as_slice())?;
    Ok(out)
}

// A sentence alone.
fn hint_lines(alloc: Global, hint: &[u8]) -> Result<Vec<u8>, Memory>
    ensures { IfOk result (λ v. v.items ≡ hint.now) }
{
    let mut out = Vec::new(alloc);
    out.extend_from_slice(hint)?;
    Ok(out)
}

// A place, and a sentence.
fn marked_lines(alloc: Global, text: &[u8], pos: Pos, hint: &[u8]) -> Result<Vec<u8>, Memory>
    ensures { IfOk result (λ v. v.items ≡ marked text.now pos ++ hint.now) }
{
    let mut out = Vec::new(alloc);
    put_marked(&mut out, text, pos)?;
    out.extend_from_slice(hint)?;
    Ok(out)
}

// A place, the word that stands there, and a sentence.
fn place_lines(alloc: Global, text: &[u8], pos: Pos, hint: &[u8]) -> Result<Vec<u8>, Memory>
    ensures { IfOk result (λ v. v.items ≡ place_lines text.now pos hint.now) }
{
    let mut out = Vec::new(alloc);
    put_place(&mut out, text, pos, hint)?;
    Ok(out)
}

// A name that is too long.
fn long_lines(alloc: Global, text: &[u8], pos: Pos) -> Result<Vec<u8>, Memory>
    ensures { IfOk result (λ v. v.items ≡ place_lines text.now pos (long_hint (length (word_there text.now pos)))) }
{
    let mut hint = Vec::new(alloc);
    hints::put_long_hint(&mut hint, word_there(text, pos).len())?;
    place_lines(alloc, text, pos, hint.as_slice())
}

// A name that is declared nowhere.
fn name_lines(alloc: Global, text: &[u8], tokens: &[Token], pos: Pos) -> Result<Vec<u8>, Memory>
    requires { AreTokens text.now tokens.now }
    ensures { IfOk result (λ v. v.items ≡ place_lines text.now pos (name_lines text.now tokens.now (word_there text.now pos) pos)) }
{
    let hint = name_text(alloc, text, tokens, word_there(text, pos), pos)?;
    place_lines(alloc, text, pos, hint.as_slice())
}

// The byte with a number, with which no text in UTF-8 goes on.
fn utf8_lines(alloc: Global, text: &[u8], n: u32) -> Result<Vec<u8>, Memory>
    ensures { IfOk result (λ v. v.items ≡ byte_at (drop n text.now) ++ utf8_hint) }
{
    let mut out = Vec::new(alloc);
    put_byte_at(&mut out, behind(text, n as usize))?;
    out.extend_from_slice(hints::utf8_hint())?;
    Ok(out)
}

/// The lines on a text that has no tokens: its line with a mark under the place, what stands there, what could stand there, the limit
/// that is passed, and a sentence on a mistake that is often made.
///
/// # Errors
/// `Memory` is want of memory.
pub fn text_lines(alloc: Global, text: &[u8], fault: TextFault) -> Result<Vec<u8>, Memory>
    requires { length text.now < 2 ^ 31 }
    ensures { IfOk result (λ v. TellsText text.now fault v.items) }
{
    match fault {
        TextFault::NotUtf8(n) => utf8_lines(alloc, text, n),
        TextFault::BadByte(pos) => byte_lines(alloc, text, pos),
        TextFault::WideNumber(pos) => place_lines(alloc, text, pos, hints::wide_hint()),
        TextFault::LongName(pos) => long_lines(alloc, text, pos),
        TextFault::Memory => Ok(Vec::new(alloc)),
    }
}

/// The lines on tokens of a text that are no program: the line of the text with a mark under the place, what stands there, what could
/// stand there, the limit that is passed, and a sentence on a mistake that is often made.
///
/// # Errors
/// `Memory` is want of memory.
pub fn parse_lines(
    alloc: Global,
    text: &[u8],
    tokens: &[Token],
    fault: ParseFault,
) -> Result<Vec<u8>, Memory>
    requires { AreTokens text.now tokens.now }
    ensures { IfOk result (λ v. TellsTokens text.now tokens.now fault v.items) }
{
    match fault {
        ParseFault::Unexpected(_) => token_lines(alloc, text, tokens),
        ParseFault::TooDeep(pos) => marked_lines(alloc, text, pos, hints::deep_hint()),
        ParseFault::TooMany(_) => hint_lines(alloc, hints::many_hint()),
        ParseFault::Unknown(pos) => name_lines(alloc, text, tokens, pos),
        ParseFault::Twice(pos) => place_lines(alloc, text, pos, hints::twice_hint()),
        ParseFault::Lattice(fault) => hint_lines(alloc, hints::lattice_hint(fault)),
        ParseFault::Memory => Ok(Vec::new(alloc)),
        ParseFault::Size(pos) => place_lines(alloc, text, pos, hints::size_hint()),
        ParseFault::Misuse(pos) => place_lines(alloc, text, pos, hints::misuse_hint()),
    }
}
