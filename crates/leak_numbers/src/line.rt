//! Pieces of lines.

ghost use Rattle.std.specs.Prelude.{◌≡◌, ◌+◌, ◌≤◌, ◌^◌, ◌++◌, [], length, decimal, cond, OnOk};
ghost use Rattle.leak_numbers.specs.Numbers.{counted, span_line, first_line, guess_line};

use itoa::Buffer;
use std::alloc::AllocError;
use tim_base::line::Line;

/// Appends some words.
pub(crate) fn put(line: &mut Line, words: &[u8])
    requires { length line.old + length words.now ≤ 160 }
    ensures text { line.new ≡ line.old ++ words.now }
    ensures size { length line.new ≡ length line.old + length words.now }
{
    line.put_text(words);
}

/// Appends a number.
pub(crate) fn put_number(line: &mut Line, n: u64)
    requires { length line.old ≤ 140 }
    ensures text { line.new ≡ line.old ++ decimal n }
    ensures size { length line.new ≤ length line.old + 20 }
{
    line.put_unsigned(n);
}

/// Appends a number of up to 128 bits.
pub(crate) fn put_wide(line: &mut Line, n: u128)
    requires { length line.old ≤ 120 }
    ensures text { line.new ≡ line.old ++ decimal n }
    ensures size { length line.new ≤ length line.old + 40 }
{
    let mut buffer = Buffer::new();
    line.put_text(buffer.format(n).as_bytes());
}

/// Words and a number.
pub(crate) fn counted(words: &[u8], n: u64) -> Line
    requires { length words.now ≤ 64 }
    ensures { result ≡ counted words.now n }
{
    let mut line = Line::new();
    put(&mut line, words);
    put_number(&mut line, n);
    put(&mut line, b"\n");
    line
}

/// The least and the greatest weight.
pub(crate) fn span(least: u64, greatest: u64) -> Line
    ensures { result ≡ span_line least greatest }
{
    let mut line = Line::new();
    put(&mut line, b"least ");
    put_number(&mut line, least);
    put(&mut line, b" greatest ");
    put_number(&mut line, greatest);
    put(&mut line, b"\n");
    line
}

/// How often the first guess is right.
pub(crate) fn first(size: u64, classes: u64) -> Line
    ensures { result ≡ first_line size classes }
{
    let mut line = Line::new();
    put(&mut line, b"right at first 1 of ");
    put_number(&mut line, size);
    put(&mut line, b" before, ");
    put_number(&mut line, classes);
    put(&mut line, b" of ");
    put_number(&mut line, size);
    put(&mut line, b" after\n");
    line
}

/// How many guesses it takes.
pub(crate) fn guesses(size: u64, squares: u128) -> Line
    requires size { size ≤ 2 ^ 40 }
    requires squares { squares ≤ 2 ^ 80 }
    ensures { result ≡ guess_line size squares }
{
    let mut line = Line::new();
    put(&mut line, b"guesses ");
    put_number(&mut line, size + 1);
    put(&mut line, b"/2 before, ");
    put_wide(&mut line, squares + u128::from(size));
    put(&mut line, b"/");
    put_number(&mut line, 2 * size);
    put(&mut line, b" after\n");
    line
}

/// Appends a line to a text where it is wanted.
pub(crate) fn put_if(text: &mut Vec<u8>, wanted: bool, line: &Line) -> Result<(), AllocError>
    ensures { OnOk result (text.new.items ≡ text.old.items ++ cond wanted line.now []) }
{
    if wanted {
        text.extend_from_slice(line.bytes())?;
    }
    Ok(())
}

/// Appends a line to a text.
pub(crate) fn put_line(text: &mut Vec<u8>, line: &Line) -> Result<(), AllocError>
    ensures { OnOk result (text.new.items ≡ text.old.items ++ line.now) }
{
    text.extend_from_slice(line.bytes())
}
