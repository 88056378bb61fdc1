//! Lists of intervals, as a file writes them.

ghost use Rattle.std.specs.Prelude.{◌≡◌, ◌≢◌, ◌-◌, ◌≤◌, ◌<◌, ◌==◌, ◌||◌, [], ◌∷◌, Some, None, IfOk, IfErr, length, map, slice_index};
ghost use Rattle.std.specs.List.{prefix_len, suffix_len, slice_split};
ghost use Rattle.toml.specs.View.{view};
ghost use Rattle.space_starts.specs.Space.{IsValues};
ghost use Rattle.space_file.specs.Ranges.{is_blank, trimmed, item_of, items_of, only, range_of, list_of};

use crate::fault::SpaceFault;
use crate::interval::{item, only};
use space_starts::space::Interval;
use std::alloc::{AllocError, Global};
use toml::Value;

fn is_blank(byte: u8) -> bool
    ensures { result ≡ is_blank byte }
{
    byte == b' '
}

// How many blanks a text begins with.
fn leading_blanks(text: &[u8]) -> usize
    ensures value { result ≡ prefix_len is_blank text.now }
    ensures within { result ≤ length text.now }
{
    for (i, byte) in text.iter().enumerate() {
        if !is_blank(*byte) {
            return i;
        }
    }
    text.len()
}

// How many bytes a text has up to the blanks at its end.
fn len_without_trailing_blanks(text: &[u8]) -> usize
    ensures value { result ≡ length text.now - suffix_len is_blank text.now }
    ensures within { result ≤ length text.now }
{
    let mut len = text.len();
    while len > 0 && is_blank(text[len - 1]) {
        len -= 1;
    }
    len
}

// A text without the blanks at its ends.
fn trim(text: &[u8]) -> &[u8]
    ensures { result.now ≡ trimmed text.now }
{
    let text = &text[leading_blanks(text)..];
    &text[..len_without_trailing_blanks(text)]
}

// Whether a blank stands at an end.
fn has_blank_end(text: &[u8]) -> bool
    ensures { result ≡ (is_blank (slice_index text.now 0) || is_blank (slice_index text.now (length text.now - 1))) }
{
    let (Some(first), Some(last)) = (text.first(), text.last()) else {
        return false;
    };
    is_blank(*first) || is_blank(*last)
}

// What stands between the commas.
fn pieces(alloc: Global, text: &str) -> Result<Vec<&str>, AllocError>
    ensures { IfOk result (λ v. map (λ w. w.now) v.items ≡ slice_split (λ b. b == 44) text.now) }
{
    text.split(',').collect(alloc)
}

// The intervals of some pieces.
fn items(alloc: Global, pieces: &[&str]) -> Result<Vec<Interval>, SpaceFault>
    requires { 0 < length pieces.now }
    ensures ok { IfOk result (λ is. items_of (map (λ w. w.now) pieces.now) ≡ Some is.items) }
    ensures are { IfOk result (λ is. IsValues is.items) }
    ensures fault { IfErr result (λ e. e ≢ SpaceFault.Memory → e ≡ SpaceFault.NotRange) }
    ensures refused { IfErr result (λ e. e ≢ SpaceFault.Memory → items_of (map (λ w. w.now) pieces.now) ≡ None) }
{
    let mut items = Vec::with_capacity(alloc, pieces.len())?;
    for piece in pieces {
        let Some(item) = item(trim(piece.as_bytes())) else {
            return Err(SpaceFault::NotRange);
        };
        items.push(item)?;
    }
    Ok(items)
}

// The intervals of a text with blanks beside commas alone.
fn listed(alloc: Global, text: &str) -> Result<Vec<Interval>, SpaceFault>
    ensures ok { IfOk result (λ is. items_of (slice_split (λ b. b == 44) text.now) ≡ Some is.items) }
    ensures are { IfOk result (λ is. IsValues is.items) }
    ensures fault { IfErr result (λ e. e ≢ SpaceFault.Memory → e ≡ SpaceFault.NotRange) }
    ensures refused { IfErr result (λ e. e ≢ SpaceFault.Memory → items_of (slice_split (λ b. b == 44) text.now) ≡ None) }
{
    let parts = pieces(alloc, text)?;
    items(alloc, &parts)
}

// The intervals of a text.
fn range(alloc: Global, text: &str) -> Result<Vec<Interval>, SpaceFault>
    ensures ok { IfOk result (λ is. range_of text.now ≡ Some is.items) }
    ensures are { IfOk result (λ is. IsValues is.items) }
    ensures fault { IfErr result (λ e. e ≢ SpaceFault.Memory → e ≡ SpaceFault.NotRange) }
    ensures refused { IfErr result (λ e. e ≢ SpaceFault.Memory → range_of text.now ≡ None) }
{
    if has_blank_end(text.as_bytes()) {
        return Err(SpaceFault::NotRange);
    }
    listed(alloc, text)
}

/// A list of one value.
pub(crate) fn one(alloc: Global, value: i64) -> Result<Vec<Interval>, AllocError>
    ensures value { IfOk result (λ is. is.items ≡ only value ∷ []) }
    ensures are { IfOk result (λ is. IsValues is.items) }
{
    let mut values = Vec::with_capacity(alloc, 1)?;
    values.push(only(value))?;
    Ok(values)
}

/// The values that a file writes: an integer is one, and a text is a list of numbers and intervals `A..B` between commas.
/// Takes time in proportion to the text.
///
/// # Errors
/// `NotRange` where it is none of these, or `Memory`.
pub(crate) fn list(alloc: Global, value: &Value) -> Result<Vec<Interval>, SpaceFault>
    ensures ok { IfOk result (λ is. list_of (view value.now) ≡ Some is.items) }
    ensures are { IfOk result (λ is. IsValues is.items) }
    ensures fault { IfErr result (λ e. e ≢ SpaceFault.Memory → e ≡ SpaceFault.NotRange) }
    ensures refused { IfErr result (λ e. e ≢ SpaceFault.Memory → list_of (view value.now) ≡ None) }
{
    match value {
        Value::Integer(number) => {
            let one = one(alloc, *number)?;
            Ok(one)
        }
        Value::String(text) => range(alloc, text.as_str()),
        _ => Err(SpaceFault::NotRange),
    }
}
