//! One line of a file of ready cycles.

ghost use Rattle.std.specs.Prelude.{◌≡◌, ◌-◌, ◌≤◌, length};
ghost use Rattle.std.specs.List.{prefix_len, suffix_len};
ghost use Rattle.black_box.specs.declared.line.Line.{Line};
ghost use Rattle.black_box.specs.Lines.{is_blank, trimmed, value_in, cycle_in, line_of};

use run_limits::{MAX_DIGITS, is_too_late};

/// What a line says.
#[derive(Clone, Copy)]
pub(crate) enum Line {
    /// Nothing.
    Blank,
    /// A run begins.
    Run,
    /// The next event is ready at this cycle.
    Ready(u64),
    /// Nothing that a line may say.
    Bad,
}

fn is_blank(byte: u8) -> bool
    ensures { result ≡ is_blank byte }
{
    byte == b' ' || byte == b'\t' || byte == b'\r'
}

// How many blanks a line begins with.
fn leading_blanks(line: &[u8]) -> usize
    ensures value { result ≡ prefix_len is_blank line.now }
    ensures within { result ≤ length line.now }
{
    for (i, byte) in line.iter().enumerate() {
        if !is_blank(*byte) {
            return i;
        }
    }
    line.len()
}

// How many bytes a line has up to the blanks at its end.
fn len_without_trailing_blanks(line: &[u8]) -> usize
    ensures value { result ≡ length line.now - suffix_len is_blank line.now }
    ensures within { result ≤ length line.now }
{
    let mut len = line.len();
    while len > 0 && is_blank(line[len - 1]) {
        len -= 1;
    }
    len
}

// A line without the blanks at its ends.
fn trim(line: &[u8]) -> &[u8]
    ensures { result.now ≡ trimmed line.now }
{
    let line = &line[leading_blanks(line)..];
    &line[..len_without_trailing_blanks(line)]
}

// The value of digits, if it is not too large.
fn value_of(digits: &[u8]) -> Option<u64>
    ensures { result ≡ value_in digits.now }
{
    let mut value: u64 = 0;
    for byte in digits {
        if !byte.is_ascii_digit() {
            return None;
        }
        value = 10 * value + u64::from(*byte - b'0');
        if is_too_late(value) {
            return None;
        }
    }
    Some(value)
}

fn cycle_of(text: &[u8]) -> Option<u64>
    ensures { result ≡ cycle_in text.now }
{
    if text.is_empty() || text.len() > MAX_DIGITS {
        return None;
    }
    value_of(text)
}

/// What a line says, which has no line feed.
pub(crate) fn line_of(line: &[u8]) -> Line
    ensures { result ≡ line_of line.now }
{
    let text = trim(line);
    if text.is_empty() {
        return Line::Blank;
    }
    if text == b"run".as_slice() {
        return Line::Run;
    }
    match cycle_of(text) {
        Some(cycle) => Line::Ready(cycle),
        None => Line::Bad,
    }
}
