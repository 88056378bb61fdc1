//! The chunks of a text.

ghost use Rattle.std.specs.Prelude.{◌≡◌, OnOk};
ghost use Rattle.mit_syntax.specs.Chunks.{number};
ghost use Rattle.mit_syntax.specs.Layout.{Puts, a_key, a_sign, a_name, a_space, a_line, a_comma, a_word, a_number, spaced, spaced_key, indent, new_line};

use crate::token::{Keyword, Sign};
use itoa::Buffer;
use label_lattice::name::Name;
use std::alloc::AllocError;

/// The text of a keyword.
pub fn put_key(out: &mut Vec<u8>, keyword: Keyword) -> Result<(), AllocError>
    ensures { OnOk result (Puts out.old.items out.new.items (a_key keyword)) }
{
    out.extend_from_slice(keyword.text())
}

/// The text of a sign.
pub fn put_sign(out: &mut Vec<u8>, which: Sign) -> Result<(), AllocError>
    ensures { OnOk result (Puts out.old.items out.new.items (a_sign which)) }
{
    out.extend_from_slice(which.text())
}

/// A number in decimal digits, behind `-` if it is negative.
pub fn put_number(out: &mut Vec<u8>, n: i64) -> Result<(), AllocError>
    ensures { OnOk result (Puts out.old.items out.new.items (a_word (number n))) }
{
    let mut buffer = Buffer::new();
    out.extend_from_slice(buffer.format(n).as_bytes())
}

/// A number without a sign, in decimal digits.
pub fn put_natural(out: &mut Vec<u8>, n: u32) -> Result<(), AllocError>
    ensures { OnOk result (Puts out.old.items out.new.items (a_number n)) }
{
    let mut buffer = Buffer::new();
    out.extend_from_slice(buffer.format(n).as_bytes())
}

/// The bytes of a name.
pub fn put_name(out: &mut Vec<u8>, name: Name) -> Result<(), AllocError>
    ensures { OnOk result (Puts out.old.items out.new.items (a_name name)) }
{
    out.extend_from_slice(name.bytes())
}

/// One space.
pub fn put_space(out: &mut Vec<u8>) -> Result<(), AllocError>
    ensures { OnOk result (Puts out.old.items out.new.items a_space) }
{
    out.push(b' ')?;
    Ok(())
}

/// The end of a line.
pub fn put_line(out: &mut Vec<u8>) -> Result<(), AllocError>
    ensures { OnOk result (Puts out.old.items out.new.items a_line) }
{
    out.push(b'\n')?;
    Ok(())
}

/// A comma and a space.
pub fn put_comma(out: &mut Vec<u8>) -> Result<(), AllocError>
    ensures { OnOk result (Puts out.old.items out.new.items a_comma) }
{
    put_sign(out, Sign::Comma)?;
    put_space(out)?;
    Ok(())
}

/// A sign between two spaces.
pub fn put_spaced(out: &mut Vec<u8>, which: Sign) -> Result<(), AllocError>
    ensures { OnOk result (Puts out.old.items out.new.items (spaced which)) }
{
    put_space(out)?;
    put_sign(out, which)?;
    put_space(out)?;
    Ok(())
}

/// A keyword between two spaces.
pub fn put_spaced_key(out: &mut Vec<u8>, keyword: Keyword) -> Result<(), AllocError>
    ensures { OnOk result (Puts out.old.items out.new.items (spaced_key keyword)) }
{
    put_space(out)?;
    put_key(out, keyword)?;
    put_space(out)?;
    Ok(())
}

// Two spaces for each open brace.
fn put_indent(out: &mut Vec<u8>, depth: u32) -> Result<(), AllocError>
    ensures { OnOk result (Puts out.old.items out.new.items (indent depth)) }
{
    if depth == 0 {
        return Ok(());
    }
    put_space(out)?;
    put_space(out)?;
    put_indent(out, depth - 1)?;
    Ok(())
}

/// A line's end, and the next line up to its first byte.
pub fn put_new_line(out: &mut Vec<u8>, depth: u32) -> Result<(), AllocError>
    ensures { OnOk result (Puts out.old.items out.new.items (new_line depth)) }
{
    put_line(out)?;
    put_indent(out, depth)?;
    Ok(())
}
