//! Numbers, and the names of variables, in lines.

ghost use Rattle.std.specs.Prelude.{◌≡◌, ◌+◌, ◌<◌, ◌≤◌, ◌++◌, length, decimal};
ghost use Rattle.std.specs.Fmt.{signed_decimal};
ghost use Rattle.mit_syntax.specs.Declarations.{variables, cell_at};
ghost use Rattle.event_print.specs.Text.{cell_text};

use itoa::Buffer;
use mit_syntax::program::Program;
use tim_base::line::Line;

/// Appends some words and a number.
pub fn put_number(line: &mut Line, words: &[u8], n: u64)
    requires { length line.old + length words.now ≤ 140 }
    ensures text { line.new ≡ line.old ++ (words.now ++ decimal n) }
    ensures short { length line.new ≤ length line.old + length words.now + 20 }
{
    line.put_text(words);
    line.put_unsigned(n);
}

/// Appends some words and a signed number.
pub fn put_value(line: &mut Line, words: &[u8], n: i64)
    requires { length line.old + length words.now ≤ 140 }
    ensures text { line.new ≡ line.old ++ (words.now ++ signed_decimal n) }
    ensures short { length line.new ≤ length line.old + length words.now + 20 }
{
    line.put_text(words);
    line.put_signed(n);
}

/// Appends some words and a number of up to 128 bits.
pub fn put_wide(line: &mut Line, words: &[u8], n: u128)
    requires { length line.old + length words.now ≤ 120 }
    ensures text { line.new ≡ line.old ++ (words.now ++ decimal n) }
    ensures short { length line.new ≤ length line.old + length words.now + 40 }
{
    line.put_text(words);
    let mut buffer = Buffer::new();
    line.put_text(buffer.format(n).as_bytes());
}

/// Appends a variable's name, with its place in brackets if it is an element of an array.
pub fn put_cell(line: &mut Line, p: &Program, variable: u32)
    requires variable { variable < variables p.now.declarations }
    requires short { length line.old ≤ 80 }
    ensures text { line.new ≡ line.old ++ cell_text (cell_at p.now.declarations variable) }
    ensures short { length line.new ≤ length line.old + 64 }
{
    let name = p.variable_name(variable);
    line.put_text(name.bytes());
    if let Some(place) = p.element(variable) {
        put_number(line, b"[", u64::from(place));
        line.put_text(b"]");
    }
}
