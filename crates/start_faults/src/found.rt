//! The places of a start file, and what stands there.

ghost use Rattle.std.specs.Prelude.{◌≡◌, ◌++◌, OnOk, codes, decimal, length, option_map};
ghost use Rattle.std.specs.Fmt.{signed_decimal};
ghost use Rattle.toml.specs.View.{items_view, table_view, view};
ghost use Rattle.start_file.specs.Tables.{data_of};
ghost use Rattle.start_faults.specs.Found.{array_in, array_of, at_line, expected_line, found_line, found_text, place_lines, table_in, value_text, word_text};

use fault_print::marked::{front, put_shown};
use itoa::Buffer;
use std::alloc::AllocError;
use toml::{Table, Value};

/// At most so many bytes of a word are told.
const MOST_WORD: usize = 40;

/// The table that a value is.
pub(crate) fn table_in(value: Option<&Value>) -> Option<&Table>
    ensures { option_map (λ t. table_view t.now) result ≡ table_in (data_of value.entry) }
{
    match value? {
        Value::Table(table) => Some(table),
        _ => None,
    }
}

/// The values of the array that a value is.
pub(crate) fn array_in(value: Option<&Value>) -> Option<&[Value]>
    ensures { option_map (λ s. items_view s.now) result ≡ array_in (data_of value.entry) }
{
    match value? {
        Value::Array(values) => Some(values.as_slice()),
        _ => None,
    }
}

/// Appends a word of the file.
pub(crate) fn put_word(out: &mut Vec<u8>, word: &[u8]) -> Result<(), AllocError>
    ensures { OnOk result (out.new.items ≡ out.old.items ++ word_text word.now) }
{
    if word.len() > MOST_WORD {
        put_shown(out, front(word, MOST_WORD))?;
        out.extend_from_slice(b"..")?;
        return Ok(());
    }
    put_shown(out, word)?;
    Ok(())
}

/// Appends a count.
pub(crate) fn put_count(out: &mut Vec<u8>, n: u64) -> Result<(), AllocError>
    ensures { OnOk result (out.new.items ≡ out.old.items ++ decimal n) }
{
    let mut digits = Buffer::new();
    out.extend_from_slice(digits.format(n).as_bytes())?;
    Ok(())
}

fn put_integer(out: &mut Vec<u8>, z: i64) -> Result<(), AllocError>
    ensures { OnOk result (out.new.items ≡ out.old.items ++ signed_decimal z) }
{
    let mut digits = Buffer::new();
    out.extend_from_slice(digits.format(z).as_bytes())?;
    Ok(())
}

fn put_string(out: &mut Vec<u8>, word: &[u8]) -> Result<(), AllocError>
    ensures { OnOk result (out.new.items ≡ out.old.items ++ (codes "\"" ++ (word_text word.now ++ codes "\""))) }
{
    out.extend_from_slice(b"\"")?;
    put_word(out, word)?;
    out.extend_from_slice(b"\"")?;
    Ok(())
}

fn array_of() -> &'static [u8]
    ensures { result.now ≡ array_of }
{
    b"an array of "
}

fn put_array(out: &mut Vec<u8>, values: &[Value]) -> Result<(), AllocError>
    ensures { OnOk result (out.new.items ≡ out.old.items ++ (array_of ++ decimal (length values.now))) }
{
    out.extend_from_slice(array_of())?;
    put_count(out, values.len() as u64)?;
    Ok(())
}

// Appends a value: a number as it is, and else what it is.
fn put_value(out: &mut Vec<u8>, value: &Value) -> Result<(), AllocError>
    ensures { OnOk result (out.new.items ≡ out.old.items ++ value_text (view value.now)) }
{
    match value {
        Value::String(word) => put_string(out, word.as_bytes())?,
        Value::Integer(number) => put_integer(out, *number)?,
        Value::Float(_) => out.extend_from_slice(b"a float")?,
        Value::Boolean(true) => out.extend_from_slice(b"true")?,
        Value::Boolean(false) => out.extend_from_slice(b"false")?,
        Value::Datetime(_) => out.extend_from_slice(b"a date")?,
        Value::Array(values) => put_array(out, values.as_slice())?,
        Value::Table(_) => out.extend_from_slice(b"a table")?,
    }
    Ok(())
}

// Appends a value that may be missing.
fn put_found(out: &mut Vec<u8>, value: Option<&Value>) -> Result<(), AllocError>
    ensures { OnOk result (out.new.items ≡ out.old.items ++ found_text (data_of value.entry)) }
{
    match value {
        None => out.extend_from_slice(b"nothing")?,
        Some(value) => put_value(out, value)?,
    }
    Ok(())
}

/// Appends the line of a place.
pub(crate) fn put_at(out: &mut Vec<u8>, place: &[u8]) -> Result<(), AllocError>
    ensures { OnOk result (out.new.items ≡ out.old.items ++ at_line place.now) }
{
    out.extend_from_slice(b"at ")?;
    out.extend_from_slice(place)?;
    out.extend_from_slice(b"\n")?;
    Ok(())
}

fn put_found_line(out: &mut Vec<u8>, value: Option<&Value>) -> Result<(), AllocError>
    ensures { OnOk result (out.new.items ≡ out.old.items ++ found_line (data_of value.entry)) }
{
    out.extend_from_slice(b"found ")?;
    put_found(out, value)?;
    out.extend_from_slice(b"\n")?;
    Ok(())
}

/// Appends the line of what has to stand at a place.
pub(crate) fn put_expected(out: &mut Vec<u8>, wanted: &[u8]) -> Result<(), AllocError>
    ensures { OnOk result (out.new.items ≡ out.old.items ++ expected_line wanted.now) }
{
    out.extend_from_slice(b"expected ")?;
    out.extend_from_slice(wanted)?;
    out.extend_from_slice(b"\n")?;
    Ok(())
}

/// Appends the lines of a place, of what stands there, and of what has to stand there.
pub(crate) fn put_place(
    out: &mut Vec<u8>,
    place: &[u8],
    value: Option<&Value>,
    wanted: &[u8],
) -> Result<(), AllocError>
    ensures { OnOk result (out.new.items ≡ out.old.items ++ place_lines place.now (data_of value.entry) wanted.now) }
{
    put_at(out, place)?;
    put_found_line(out, value)?;
    put_expected(out, wanted)?;
    Ok(())
}
