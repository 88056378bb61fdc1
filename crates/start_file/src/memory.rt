//! The values of the variables.

ghost use Rattle.std.specs.Prelude.{◌≡◌, ◌≢◌, ◌+◌, ◌≤◌, true, false, IsTrue, IfOk, IfErr, length, Some, string_bytes, pos, replicate};
ghost use Rattle.std.specs.List.{list_all};
ghost use Rattle.std.specs.BTreeMap.{keys};
ghost use Rattle.toml.specs.Data.{Members, get_item};
ghost use Rattle.toml.specs.View.{view, items_view, table_view};
ghost use Rattle.mit_syntax.specs.Declarations.{variables, size_in};
ghost use Rattle.mit_syntax.specs.Valid.{IsValid};
ghost use Rattle.start_file.specs.Tables.{data_of, items_in, members_in};
ghost use Rattle.start_file.specs.Values.{slot_of, is_key, names_pass, is_integer, are_integers, is_filling, is_value};
ghost use Rattle.start_file.specs.Values.{values_pass, memory_passes, number_of, elements_of, memory_of, values_of};
ghost use Rattle.start_file.specs.Edits.{splice, written};
ghost use Rattle.start_file.specs.Shared.{filled};

use crate::fault::StartFault;
use crate::slot::{Slot, slot_of};
use crate::version::Version;
use mit_syntax::program::Program;
use std::alloc::{AllocError, Global};
use toml::{Table, Value};

// Whether a key of `memory` is known.
fn is_key(program: &Program, version: Version, key: &str) -> bool
    requires { IsValid program.now }
    ensures { result ≡ is_key version (slot_of program.now.declarations key.now) }
{
    match slot_of(program, key) {
        None => false,
        Some(slot) => slot.length.is_none() || version.is_two(),
    }
}

fn has_known_keys(program: &Program, version: Version, table: &Table) -> bool
    requires { IsValid program.now }
    ensures { result ≡ list_all (λ k. is_key version (slot_of program.now.declarations (string_bytes k))) (keys table.now) }
{
    table
        .keys()
        .all(|key| is_key(program, version, key.as_str()))
}

/// Whether all keys of `memory` are known, where it is a table.
pub fn names_pass(program: &Program, version: Version, memory: Option<&Value>) -> bool
    requires { IsValid program.now }
    ensures { result ≡ names_pass version program.now.declarations (data_of memory.entry) }
{
    let Some(value) = memory else {
        return true;
    };
    match value {
        Value::Table(table) => has_known_keys(program, version, table),
        _ => true,
    }
}

// The integer, or 0.
fn number(value: &Value) -> i64
    ensures { result ≡ number_of (Some (view value.now)) }
{
    match value {
        Value::Integer(number) => *number,
        _ => 0,
    }
}

fn is_integer(value: &Value) -> bool
    ensures { result ≡ is_integer (view value.now) }
{
    match value {
        Value::Integer(_) => true,
        _ => false,
    }
}

fn are_integers(values: &[Value]) -> bool
    ensures { result ≡ list_all (λ v. is_integer (view v)) values.now }
{
    values.iter().all(|value| is_integer(value))
}

// Whether the value is an integer, or for an array at most its length integers.
fn is_filling(length: Option<u32>, value: &Value) -> bool
    ensures { result ≡ is_filling length (view value.now) }
{
    let Some(length) = length else {
        return is_integer(value);
    };
    match value {
        Value::Array(values) => values.len() <= length as usize && are_integers(values),
        _ => false,
    }
}

// The integer at a place, or 0 past the end.
fn item(values: &[Value], i: usize) -> i64
    ensures { result ≡ number_of (get_item i (items_view values.now)) }
{
    if i < values.len() {
        number(&values[i])
    } else {
        0
    }
}

// Writes the integers, and then zeros.
fn put_elements(cells: &mut [i64], values: &[Value])
    ensures { cells.new ≡ elements_of (length cells.old) (items_view values.now) }
{
    for (i, cell) in cells.iter_mut().enumerate() {
        *cell = item(values, i);
    }
}

fn items_in(value: &Value) -> &[Value]
    ensures { items_view result.now ≡ items_in (Some (view value.now)) }
{
    match value {
        Value::Array(values) => values.as_slice(),
        _ => &[],
    }
}

// Writes the value of a scalar, or those of an array's elements.
fn write(memory: &mut [i64], slot: Slot, value: &Value)
    requires { slot.first + size_in slot.length ≤ length memory.old }
    ensures { memory.new ≡ splice slot.first (values_of slot.length (Some (view value.now))) memory.old }
{
    let first = slot.first as usize;
    match slot.length {
        None => memory[first] = number(value),
        Some(length) => {
            let cells = &mut memory[first..first + length as usize];
            put_elements(cells, items_in(value));
        }
    }
}

// Writes the value of a name, or says that it is none.
fn put(program: &Program, memory: &mut [i64], key: &str, value: &Value) -> bool
    requires valid { IsValid program.now }
    requires size { length memory.old ≡ variables program.now.declarations }
    ensures value { result ≡ is_value (slot_of program.now.declarations key.now) (view value.now) }
    ensures written { IsTrue result → memory.new ≡ written (slot_of program.now.declarations key.now) (view value.now) memory.old }
{
    let Some(slot) = slot_of(program, key) else {
        return false;
    };
    if !is_filling(slot.length, value) {
        return false;
    }
    write(memory, slot, value);
    true
}

// Writes the values of all names over those that are shared, or says that one is none.
#[tactic(auto, using(crate::proofs::Filling::none_yet))]
fn put_all(program: &Program, memory: &mut [i64], table: &Table) -> bool
    requires valid { IsValid program.now }
    requires size { length memory.old ≡ variables program.now.declarations }
    ensures value { result ≡ values_pass program.now.declarations (table_view table.now) }
    ensures written { IsTrue result → (shared : Members) → memory.old ≡ memory_of program.now.declarations shared
        → memory.new ≡ memory_of program.now.declarations (filled (table_view table.now) shared) }
{
    for (key, value) in table {
        if !put(program, memory, key.as_str(), value) {
            return false;
        }
    }
    true
}

/// So many zeros.
///
/// # Errors
/// `AllocError` where memory runs out.
pub(crate) fn zeros(alloc: Global, count: u32) -> Result<Vec<i64>, AllocError>
    ensures { IfOk result (λ v. v.items ≡ replicate count (pos 0)) }
{
    vec![in alloc; 0; count as usize]
}

/// The values of the variables, for the run with a number: those of its `memory`, and where that has none, those that are shared.
///
/// # Errors
/// `NotNumber` where `memory` is no table or a value in it is none.
pub(crate) fn values_over(
    program: &Program,
    run: u32,
    shared: Vec<i64>,
    memory: Option<&Value>,
) -> Result<Vec<i64>, StartFault>
    requires valid { IsValid program.now }
    requires size { length shared.items ≡ variables program.now.declarations }
    ensures passes { IfOk result (λ m. memory_passes program.now.declarations (data_of memory.entry) ≡ true) }
    ensures values { IfOk result (λ m. (ms : Members) → shared.items ≡ memory_of program.now.declarations ms
        → m.items ≡ memory_of program.now.declarations (filled (members_in (data_of memory.entry)) ms)) }
    ensures fault { IfErr result (λ e. e ≡ StartFault.NotNumber run) }
    ensures refused { IfErr result (λ e. memory_passes program.now.declarations (data_of memory.entry) ≡ false) }
{
    let mut values = shared;
    let Some(value) = memory else {
        return Ok(values);
    };
    match value {
        Value::Table(table) => {
            if put_all(program, &mut values, table) {
                Ok(values)
            } else {
                Err(StartFault::NotNumber(run))
            }
        }
        _ => Err(StartFault::NotNumber(run)),
    }
}

/// The values of the variables, for the run with a number.
///
/// # Errors
/// `NotNumber` where `memory` is no table or a value in it is none, or `Memory`.
pub fn memory(
    alloc: Global,
    program: &Program,
    run: u32,
    memory: Option<&Value>,
) -> Result<Vec<i64>, StartFault>
    requires { IsValid program.now }
    ensures passes { IfOk result (λ m. memory_passes program.now.declarations (data_of memory.entry) ≡ true) }
    ensures values { IfOk result (λ m. m.items ≡ memory_of program.now.declarations (members_in (data_of memory.entry))) }
    ensures fault { IfErr result (λ e. e ≢ StartFault.Memory → e ≡ StartFault.NotNumber run) }
    ensures refused { IfErr result (λ e. e ≢ StartFault.Memory → memory_passes program.now.declarations (data_of memory.entry) ≡ false) }
{
    let zeros = zeros(alloc, program.variables())?;
    let values = values_over(program, run, zeros, memory)?;
    Ok(values)
}
