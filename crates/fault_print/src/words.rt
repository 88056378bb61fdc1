//! What stands at a place, and what could stand there.

ghost use Rattle.std.specs.Prelude.{◌≡◌, ◌++◌, OnOk, take};
ghost use Rattle.label_lattice.specs.Names.{is_name_byte};
ghost use Rattle.fault_print.specs.Words.{sort_text, sorts_text, expected_line, short, found_line, found_word, found_end, byte_text, word_front};

use crate::marked::{front, is_shown};
use itoa::Buffer;
use next_tokens::sort::Sort;
use std::alloc::AllocError;

/// At most so many bytes of a word are told.
const MOST_WORD: usize = 40;

/// How a sort of tokens is told: a word of the language as it is written.
pub fn sort_text(sort: Sort) -> &'static [u8]
    ensures { result.now ≡ sort_text sort }
{
    match sort {
        Sort::Name => b"NAME".as_slice(),
        Sort::Number => b"NUMBER".as_slice(),
        Sort::End => b"END".as_slice(),
        Sort::Key(key) => key.text(),
        Sort::Sign(sign) => sign.text(),
    }
}

/// Appends the line of what could stand at a place.
pub(crate) fn put_expected(out: &mut Vec<u8>, sorts: &[Sort]) -> Result<(), AllocError>
    ensures { OnOk result (out.new.items ≡ out.old.items ++ expected_line sorts.now) }
{
    out.extend_from_slice(b"expected")?;
    put_sorts(out, sorts)?;
    out.extend_from_slice(b"\n")?;
    Ok(())
}

fn put_sorts(out: &mut Vec<u8>, sorts: &[Sort]) -> Result<(), AllocError>
    ensures { OnOk result (out.new.items ≡ out.old.items ++ sorts_text sorts.now) }
{
    for sort in sorts {
        out.extend_from_slice(b" ")?;
        out.extend_from_slice(sort_text(*sort))?;
    }
    Ok(())
}

fn put_short(out: &mut Vec<u8>, word: &[u8]) -> Result<(), AllocError>
    ensures { OnOk result (out.new.items ≡ out.old.items ++ short word.now) }
{
    if word.len() <= MOST_WORD {
        out.extend_from_slice(word)?;
        return Ok(());
    }
    out.extend_from_slice(front(word, MOST_WORD))?;
    out.extend_from_slice(b"..")?;
    Ok(())
}

/// Appends the line of a word that stands there.
pub(crate) fn put_found_word(out: &mut Vec<u8>, word: &[u8]) -> Result<(), AllocError>
    ensures { OnOk result (out.new.items ≡ out.old.items ++ found_word word.now) }
{
    out.extend_from_slice(b"found ")?;
    put_short(out, word)?;
    out.extend_from_slice(b"\n")?;
    Ok(())
}

/// Appends the line of the end of a text.
pub(crate) fn put_found_end(out: &mut Vec<u8>) -> Result<(), AllocError>
    ensures { OnOk result (out.new.items ≡ out.old.items ++ found_end) }
{
    out.extend_from_slice(b"found END\n")?;
    Ok(())
}

fn put_byte(out: &mut Vec<u8>, b: u8) -> Result<(), AllocError>
    ensures { OnOk result (out.new.items ≡ out.old.items ++ byte_text b) }
{
    if is_shown(b) {
        out.push(b)?;
        return Ok(());
    }
    out.extend_from_slice(b"byte ")?;
    let mut digits = Buffer::new();
    out.extend_from_slice(digits.format(b).as_bytes())?;
    Ok(())
}

/// Appends the line of a byte with which no word begins.
pub(crate) fn put_found_byte(out: &mut Vec<u8>, b: u8) -> Result<(), AllocError>
    ensures { OnOk result (out.new.items ≡ out.old.items ++ found_line (byte_text b)) }
{
    out.extend_from_slice(b"found ")?;
    put_byte(out, b)?;
    out.extend_from_slice(b"\n")?;
    Ok(())
}

fn is_name_byte(b: u8) -> bool
    ensures { result ≡ is_name_byte b }
{
    b.is_ascii_alphabetic() || b.is_ascii_digit() || b == b'_'
}

/// The letters, digits and `_` at the front.
pub(crate) fn word_front(text: &[u8]) -> &[u8]
    ensures { result.now ≡ word_front text.now }
{
    for (i, b) in text.iter().enumerate() {
        if !is_name_byte(*b) {
            return &text[..i];
        }
    }
    text
}
