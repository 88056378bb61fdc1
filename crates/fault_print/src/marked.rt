//! A line of a text, and below it a mark under a place.

ghost use Rattle.std.specs.Prelude.{◌≡◌, ◌-◌, ◌≤◌, ◌++◌, drop, take, map, length, OnOk};
ghost use Rattle.fault_print.specs.Marked.{line_front, line_rest, lines_rest, line_at, from_place, before_place, is_shown, shown, under, cut_before};
ghost use Rattle.fault_print.specs.Marked.{under_cut, marked_line, marked};

use std::alloc::AllocError;
use text_base::pos::Pos;

/// At most so many bytes are shown before a place.
const MOST_BEFORE: usize = 60;

/// At most so many bytes of a line are shown.
const MOST_SHOWN: usize = 120;

fn line_front(text: &[u8]) -> &[u8]
    ensures { result.now ≡ line_front text.now }
{
    for (i, b) in text.iter().enumerate() {
        if *b == b'\n' {
            return &text[..i];
        }
    }
    text
}

fn line_rest(text: &[u8]) -> &[u8]
    ensures { result.now ≡ line_rest text.now }
{
    for (i, b) in text.iter().enumerate() {
        if *b == b'\n' {
            return &text[i + 1..];
        }
    }
    &text[text.len()..]
}

// From the line with a number on.
fn from_line(number: u32, text: &[u8]) -> &[u8]
    ensures { result.now ≡ lines_rest (number - 1) text.now }
{
    let mut rest = text;
    for _passed in 1..number {
        rest = line_rest(rest);
    }
    rest
}

/// What stands from a place on.
pub(crate) fn from_place(text: &[u8], pos: Pos) -> &[u8]
    ensures { result.now ≡ from_place text.now pos }
{
    behind(
        from_line(pos.line, text),
        (pos.column as usize).saturating_sub(1),
    )
}

/// What stands before a place.
pub fn before_place(text: &[u8], pos: Pos) -> &[u8]
    ensures is { result.now ≡ before_place text.now pos }
    ensures short { length result.now ≤ length text.now }
{
    let rest = from_place(text, pos);
    front(text, text.len().saturating_sub(rest.len()))
}

/// Whether a byte is one that can be shown: a letter, a digit, a sign or a blank.
pub(crate) fn is_shown(b: u8) -> bool
    ensures { result ≡ is_shown b }
{
    b > 31 && b < 127
}

fn shown(b: u8) -> u8
    ensures { result ≡ shown b }
{
    if b == b'\t' {
        return b'\t';
    }
    if b == b'\r' {
        return b' ';
    }
    if is_shown(b) { b } else { b'?' }
}

fn under(b: u8) -> u8
    ensures { result ≡ under b }
{
    if b == b'\t' { b'\t' } else { b' ' }
}

/// Appends bytes, and `?` for one that can't be shown.
pub fn put_shown(out: &mut Vec<u8>, bytes: &[u8]) -> Result<(), AllocError>
    ensures { OnOk result (out.new.items ≡ out.old.items ++ map shown bytes.now) }
{
    for b in bytes {
        out.push(shown(*b))?;
    }
    Ok(())
}

fn put_under(out: &mut Vec<u8>, bytes: &[u8]) -> Result<(), AllocError>
    ensures { OnOk result (out.new.items ≡ out.old.items ++ map under bytes.now) }
{
    for b in bytes {
        out.push(under(*b))?;
    }
    Ok(())
}

fn cut_before(n: usize) -> &'static [u8]
    ensures { result.now ≡ cut_before n }
{
    if n > 0 {
        b"..".as_slice()
    } else {
        b"".as_slice()
    }
}

fn under_cut(n: usize) -> &'static [u8]
    ensures { result.now ≡ under_cut n }
{
    if n > 0 {
        b"  ".as_slice()
    } else {
        b"".as_slice()
    }
}

/// So many bytes, or as many as there are.
pub fn front(bytes: &[u8], n: usize) -> &[u8]
    ensures is { result.now ≡ take n bytes.now }
    ensures short { length result.now ≤ length bytes.now }
{
    &bytes[..n.min(bytes.len())]
}

/// All but so many bytes; none where there are not so many.
pub(crate) fn behind(bytes: &[u8], n: usize) -> &[u8]
    ensures { result.now ≡ drop n bytes.now }
{
    &bytes[n.min(bytes.len())..]
}

fn put_marked_line(out: &mut Vec<u8>, line: &[u8], before: usize) -> Result<(), AllocError>
    ensures { OnOk result (out.new.items ≡ out.old.items ++ marked_line line.now before) }
{
    let from = before.saturating_sub(MOST_BEFORE);
    let rest = behind(line, from);
    let cut = rest.len().saturating_sub(MOST_SHOWN);
    out.extend_from_slice(b"| ")?;
    out.extend_from_slice(cut_before(from))?;
    put_shown(out, front(rest, MOST_SHOWN))?;
    out.extend_from_slice(cut_before(cut))?;
    out.extend_from_slice(b"\n| ")?;
    out.extend_from_slice(under_cut(from))?;
    put_under(out, front(rest, before - from))?;
    out.extend_from_slice(b"^\n")?;
    Ok(())
}

/// Appends the line of a place, and a line with a mark under it.
pub(crate) fn put_marked(out: &mut Vec<u8>, text: &[u8], pos: Pos) -> Result<(), AllocError>
    ensures { OnOk result (out.new.items ≡ out.old.items ++ marked text.now pos) }
{
    let line = line_front(from_line(pos.line, text));
    put_marked_line(out, line, (pos.column as usize).saturating_sub(1))
}
