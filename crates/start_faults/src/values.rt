//! What is told of a value that is no number.

ghost use Rattle.std.specs.Prelude.{◌≡◌, ◌++◌, OnOk, Some, option_map};
ghost use Rattle.toml.specs.Data.{array};
ghost use Rattle.toml.specs.View.{items_view, table_view, view};
ghost use Rattle.mit_syntax.specs.Valid.{IsValid};
ghost use Rattle.start_file.specs.Tables.{data_of};
ghost use Rattle.start_file.specs.Values.{is_integer, is_filling, is_value, slot_of, are_integers};
ghost use Rattle.start_faults.specs.Names.{length_of};
ghost use Rattle.start_faults.specs.Found.{place_lines};
ghost use Rattle.start_faults.specs.Values.{array_lines, array_wanted, at_most, element_lines, element_place, elements_in, filling_lines, first_wrong};
ghost use Rattle.start_faults.specs.Values.{memory_place, number_lines, number_wanted, value_lines};

use crate::found::{put_count, put_place, put_word};
use crate::names::length_of;
use mit_syntax::program::Program;
use std::alloc::{AllocError, Global};
use toml::{Table, Value};

fn number_wanted() -> &'static [u8]
    ensures { result.now ≡ number_wanted }
{
    b"an integer from -9223372036854775808 to 9223372036854775807"
}

fn at_most() -> &'static [u8]
    ensures { result.now ≡ at_most }
{
    b"an array of at most "
}

fn put_array_wanted(out: &mut Vec<u8>, n: u32) -> Result<(), AllocError>
    ensures { OnOk result (out.new.items ≡ out.old.items ++ array_wanted n) }
{
    out.extend_from_slice(at_most())?;
    put_count(out, u64::from(n))?;
    out.extend_from_slice(b" integers")?;
    Ok(())
}

fn put_memory_place(out: &mut Vec<u8>, key: &str) -> Result<(), AllocError>
    ensures { OnOk result (out.new.items ≡ out.old.items ++ memory_place key.now) }
{
    out.extend_from_slice(b"memory.")?;
    put_word(out, key.as_bytes())?;
    Ok(())
}

fn put_element_place(out: &mut Vec<u8>, key: &str, i: usize) -> Result<(), AllocError>
    ensures { OnOk result (out.new.items ≡ out.old.items ++ element_place key.now i) }
{
    put_memory_place(out, key)?;
    out.extend_from_slice(b"[")?;
    put_count(out, i as u64)?;
    out.extend_from_slice(b"]")?;
    Ok(())
}

fn is_integer(value: &Value) -> bool
    ensures { result ≡ is_integer (view value.now) }
{
    match value {
        Value::Integer(_) => true,
        _ => false,
    }
}

fn are_integers(values: &[Value]) -> bool
    ensures { result ≡ are_integers (items_view values.now) }
{
    for value in values {
        if !is_integer(value) {
            return false;
        }
    }
    true
}

// Whether an array is filled by a value.
fn is_array(length: u32, value: &Value) -> bool
    ensures { result ≡ is_filling (Some length) (view value.now) }
{
    match value {
        Value::Array(values) => values.len() <= length as usize && are_integers(values.as_slice()),
        _ => false,
    }
}

// Whether a value is one of what a name declares.
fn is_value(program: &Program, key: &str, value: &Value) -> bool
    requires { IsValid program.now }
    ensures { result ≡ is_value (slot_of program.now.declarations key.now) (view value.now) }
{
    match length_of(program, key) {
        None => false,
        Some(None) => is_integer(value),
        Some(Some(length)) => is_array(length, value),
    }
}

// The first name whose value is none, with the value.
fn first_wrong<'a>(program: &Program, table: &'a Table) -> Option<(&'a str, &'a Value)>
    requires { IsValid program.now }
    ensures { option_map (λ e. (e.0.now, view e.1.now)) result ≡ first_wrong program.now.declarations (table_view table.now) }
{
    for (key, value) in table {
        if !is_value(program, key.as_str(), value) {
            return Some((key.as_str(), value));
        }
    }
    None
}

// Appends the lines on the element behind i others.
fn put_wrong(
    out: &mut Vec<u8>,
    alloc: Global,
    key: &str,
    i: usize,
    value: &Value,
) -> Result<(), AllocError>
    ensures { OnOk result (out.new.items ≡ out.old.items ++ place_lines (element_place key.now i) (Some (view value.now)) number_wanted) }
{
    let mut place = Vec::new(alloc);
    put_element_place(&mut place, key, i)?;
    put_place(out, place.as_slice(), Some(value), number_wanted())?;
    Ok(())
}

// Appends the lines on the first element that is no integer.
fn put_element(
    out: &mut Vec<u8>,
    alloc: Global,
    key: &str,
    values: &[Value],
) -> Result<(), AllocError>
    ensures { OnOk result (out.new.items ≡ out.old.items ++ element_lines key.now 0 (items_view values.now)) }
{
    for (i, value) in values.iter().enumerate() {
        if !is_integer(value) {
            return put_wrong(out, alloc, key, i, value);
        }
    }
    Ok(())
}

// These elements, if they are not too many.
fn few(length: u32, values: &[Value]) -> Option<&[Value]>
    ensures { option_map (λ s. items_view s.now) result ≡ elements_in length (array (items_view values.now)) }
{
    if values.len() <= length as usize {
        return Some(values);
    }
    None
}

// The elements of an array that is not too long.
fn elements_in(length: u32, value: &Value) -> Option<&[Value]>
    ensures { option_map (λ s. items_view s.now) result ≡ elements_in length (view value.now) }
{
    match value {
        Value::Array(values) => few(length, values.as_slice()),
        _ => None,
    }
}

// Appends the lines on a value that is no array of at most so many elements.
fn put_no_array(
    out: &mut Vec<u8>,
    alloc: Global,
    key: &str,
    length: u32,
    value: &Value,
) -> Result<(), AllocError>
    ensures { OnOk result (out.new.items ≡ out.old.items
        ++ place_lines (memory_place key.now) (Some (view value.now)) (array_wanted length)) }
{
    let mut place = Vec::new(alloc);
    put_memory_place(&mut place, key)?;
    let mut wanted = Vec::new(alloc);
    put_array_wanted(&mut wanted, length)?;
    put_place(out, place.as_slice(), Some(value), wanted.as_slice())?;
    Ok(())
}

// Appends the lines on a value that does not fill an array with a length.
fn put_array(
    out: &mut Vec<u8>,
    alloc: Global,
    key: &str,
    length: u32,
    value: &Value,
) -> Result<(), AllocError>
    ensures { OnOk result (out.new.items ≡ out.old.items
        ++ array_lines key.now length (view value.now) (elements_in length (view value.now))) }
{
    match elements_in(length, value) {
        None => put_no_array(out, alloc, key, length, value)?,
        Some(values) => put_element(out, alloc, key, values)?,
    }
    Ok(())
}

fn put_filling(
    out: &mut Vec<u8>,
    alloc: Global,
    key: &str,
    length: Option<u32>,
    value: &Value,
) -> Result<(), AllocError>
    ensures { OnOk result (out.new.items ≡ out.old.items ++ filling_lines key.now length (view value.now)) }
{
    if let Some(length) = length {
        return put_array(out, alloc, key, length, value);
    }
    let mut place = Vec::new(alloc);
    put_memory_place(&mut place, key)?;
    put_place(out, place.as_slice(), Some(value), number_wanted())?;
    Ok(())
}

fn put_value(
    out: &mut Vec<u8>,
    alloc: Global,
    program: &Program,
    wrong: Option<(&str, &Value)>,
) -> Result<(), AllocError>
    requires { IsValid program.now }
    ensures { OnOk result (out.new.items ≡ out.old.items
        ++ value_lines program.now.declarations (option_map (λ e. (e.0.now, view e.1.now)) wrong.entry)) }
{
    let Some((key, value)) = wrong else {
        return Ok(());
    };
    let Some(length) = length_of(program, key) else {
        return Ok(());
    };
    put_filling(out, alloc, key, length, value)
}

/// Appends the lines on a memory with a value that is no number.
pub(crate) fn put_numbers(
    out: &mut Vec<u8>,
    alloc: Global,
    program: &Program,
    memory: Option<&Value>,
) -> Result<(), AllocError>
    requires { IsValid program.now }
    ensures { OnOk result (out.new.items ≡ out.old.items ++ number_lines program.now.declarations (data_of memory.entry)) }
{
    if let Some(Value::Table(table)) = memory {
        return put_value(out, alloc, program, first_wrong(program, table));
    }
    put_place(out, b"memory", memory, b"a table")
}
