//! A byte with which no word begins, and a place that passes a limit.

ghost use Rattle.std.specs.Prelude.{◌≡◌, ◌≢◌, ◌++◌, ◌^◌, ◌<◌, ℕ, List, [], length, OnOk, IfOk};
ghost use Rattle.fault_print.specs.Faults.{CouldFollow, Follow, could_line, byte_lines, byte_at, word_there, place_lines, TellsByte};
ghost use Rattle.fault_print.specs.Marked.{marked, from_place};
ghost use Rattle.mit_syntax.specs.Cut.{AreTokens};

use crate::marked::{before_place, from_place, put_marked};
use crate::traps::{byte_trap, trap_lines};
use crate::words::{put_expected, put_found_byte, put_found_end, put_found_word, word_front};
use mit_syntax::fault::TextFault;
use mit_syntax::token::Token;
use mit_syntax::tokens::tokens;
use next_tokens::reach::reach_of;
use next_tokens::sort::Sort;
use std::alloc::{AllocError, Global};
use text_base::pos::{Memory, Pos};

// What could stand behind a text with these tokens; nothing where they don't begin what the grammar allows.
fn follow(alloc: Global, tokens: &[Token]) -> Result<Vec<Sort>, Memory>
    ensures { IfOk result (λ v. (text : List ℕ) → AreTokens text tokens.now → Follow text v.items) }
{
    let n = tokens.len().saturating_sub(1);
    let reach = reach_of(alloc, &tokens[..n])?;
    if reach.taken == n {
        return Ok(reach.sorts);
    }
    Ok(Vec::new(alloc))
}

// Nothing could stand behind a text that has no tokens.
fn no_follow(alloc: Global, fault: TextFault) -> Result<Vec<Sort>, Memory>
    ensures { IfOk result (λ v. (fault ≢ TextFault.Memory) × (v.items ≡ [])) }
{
    match fault {
        TextFault::Memory => Err(Memory),
        _ => Ok(Vec::new(alloc)),
    }
}

/// What could stand behind a text; nothing where it has no tokens, or they don't begin what the grammar allows.
///
/// # Errors
/// `Memory` is want of memory.
pub fn could_follow(alloc: Global, text: &[u8]) -> Result<Vec<Sort>, Memory>
    requires { length text.now < 2 ^ 31 }
    ensures { IfOk result (λ v. CouldFollow text.now v.items) }
{
    match tokens(alloc, text) {
        Ok(list) => follow(alloc, list.as_slice()),
        Err(fault) => no_follow(alloc, fault),
    }
}

fn put_could(out: &mut Vec<u8>, could: &[Sort]) -> Result<(), AllocError>
    ensures { OnOk result (out.new.items ≡ out.old.items ++ could_line could.now) }
{
    if could.is_empty() {
        return Ok(());
    }
    put_expected(out, could)
}

// Appends the lines on the first byte of a text, where tokens of these sorts could stand.
fn put_byte_lines(out: &mut Vec<u8>, text: &[u8], could: &[Sort]) -> Result<(), AllocError>
    ensures { OnOk result (out.new.items ≡ out.old.items ++ byte_lines text.now could.now) }
{
    let Some(b) = text.first() else {
        return put_found_end(out);
    };
    put_found_byte(out, *b)?;
    put_could(out, could)?;
    out.extend_from_slice(trap_lines(byte_trap(*b, could)))?;
    Ok(())
}

// Appends the lines on the byte at a place, where tokens of these sorts could stand.
fn put_marked_byte(
    out: &mut Vec<u8>,
    text: &[u8],
    pos: Pos,
    could: &[Sort],
) -> Result<(), AllocError>
    ensures { OnOk result (out.new.items ≡ out.old.items ++ (marked text.now pos ++ byte_lines (from_place text.now pos) could.now)) }
{
    put_marked(out, text, pos)?;
    put_byte_lines(out, from_place(text, pos), could)?;
    Ok(())
}

/// The lines on a byte with which no word begins.
pub(crate) fn byte_lines(alloc: Global, text: &[u8], pos: Pos) -> Result<Vec<u8>, Memory>
    requires { length text.now < 2 ^ 31 }
    ensures { IfOk result (λ v. TellsByte text.now pos v.items) }
{
    let could = could_follow(alloc, before_place(text, pos))?;
    let mut out = Vec::new(alloc);
    put_marked_byte(&mut out, text, pos, could.as_slice())?;
    Ok(out)
}

/// Appends the line of the first byte of a text.
pub(crate) fn put_byte_at(out: &mut Vec<u8>, text: &[u8]) -> Result<(), AllocError>
    ensures { OnOk result (out.new.items ≡ out.old.items ++ byte_at text.now) }
{
    match text.first() {
        Some(b) => put_found_byte(out, *b),
        None => put_found_end(out),
    }
}

/// The word that begins at a place.
pub fn word_there(text: &[u8], pos: Pos) -> &[u8]
    ensures { result.now ≡ word_there text.now pos }
{
    word_front(from_place(text, pos))
}

/// Appends a place, the word that stands there, and a sentence.
pub(crate) fn put_place(
    out: &mut Vec<u8>,
    text: &[u8],
    pos: Pos,
    hint: &[u8],
) -> Result<(), AllocError>
    ensures { OnOk result (out.new.items ≡ out.old.items ++ place_lines text.now pos hint.now) }
{
    put_marked(out, text, pos)?;
    put_found_word(out, word_there(text, pos))?;
    out.extend_from_slice(hint)?;
    Ok(())
}
