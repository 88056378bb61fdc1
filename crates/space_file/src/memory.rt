//! The values that the variables may have.

ghost use Rattle.std.specs.Prelude.{◌≡◌, ◌≢◌, ◌≤◌, ◌++◌, [], ◌∷◌, All, None, Some, IfOk, IfErr, OnOk, List, replicate, length, pos};
ghost use Rattle.toml.specs.Data.{no_members, get_member};
ghost use Rattle.toml.specs.View.{view, items_view, table_view};
ghost use Rattle.mit_syntax.specs.Valid.{IsValid};
ghost use Rattle.start_file.specs.Tables.{data_of};
ghost use Rattle.space_starts.specs.Space.{lists, IsValues};
ghost use Rattle.space_file.specs.Ranges.{Adds, zero_only, lists_of, elements_of, values_of, memory_of};
ghost use Rattle.space_file.specs.Files.{values_in};

use crate::fault::SpaceFault;
use crate::list::{list, one};
use label_lattice::name::Name;
use mit_syntax::program::Program;
use space_starts::space::Interval;
use start_file::table::at;
use std::alloc::{AllocError, Global};
use toml::{Table, Value};

// Appends so many variables that are 0.
fn put_zeros(alloc: Global, memory: &mut Vec<Vec<Interval>>, count: usize) -> Result<(), AllocError>
    ensures put { OnOk result (lists memory.new.items ≡ lists memory.old.items ++ replicate count zero_only) }
    ensures are { OnOk result (All IsValues (lists memory.old.items) → All IsValues (lists memory.new.items)) }
{
    for placed in 0..count {
        let zero = one(alloc, 0)?;
        memory.push(zero)?;
    }
    Ok(())
}

// Appends the values of each element that stands in an array.
#[tactic(auto, using(crate::proofs::Filling::none_filled, crate::proofs::Filling::none_put, crate::proofs::Filling::all_filled))]
fn put_items(
    alloc: Global,
    memory: &mut Vec<Vec<Interval>>,
    values: &[Value],
) -> Result<(), SpaceFault>
    ensures put { OnOk result (Adds (lists memory.old.items) (lists memory.new.items) (lists_of (items_view values.now))) }
    ensures are { OnOk result (All IsValues (lists memory.old.items) → All IsValues (lists memory.new.items)) }
    ensures fault { IfErr result (λ e. e ≢ SpaceFault.Memory → e ≡ SpaceFault.NotRange) }
    ensures refused { IfErr result (λ e. e ≢ SpaceFault.Memory → lists_of (items_view values.now) ≡ None) }
{
    for value in values {
        put_scalar(alloc, memory, value)?;
    }
    Ok(())
}

// Appends the values of the elements of an array.
#[tactic(auto, using(crate::proofs::Filling::many_elements, crate::proofs::Filling::elements_none))]
fn put_elements(
    alloc: Global,
    memory: &mut Vec<Vec<Interval>>,
    length: u32,
    values: &[Value],
) -> Result<(), SpaceFault>
    ensures put { OnOk result (Adds (lists memory.old.items) (lists memory.new.items) (elements_of length (items_view values.now))) }
    ensures are { OnOk result (All IsValues (lists memory.old.items) → All IsValues (lists memory.new.items)) }
    ensures fault { IfErr result (λ e. e ≢ SpaceFault.Memory → e ≡ SpaceFault.NotRange) }
    ensures refused { IfErr result (λ e. e ≢ SpaceFault.Memory → elements_of length (items_view values.now) ≡ None) }
{
    if values.len() > length as usize {
        return Err(SpaceFault::NotRange);
    }
    put_items(alloc, memory, values)?;
    put_zeros(alloc, memory, length as usize - values.len())?;
    Ok(())
}

// Appends the values of a variable that is no array.
#[tactic(auto, using(crate::proofs::Lists::scalar_put, crate::proofs::Lists::scalar_none, crate::proofs::Lists::all_pushed))]
fn put_scalar(
    alloc: Global,
    memory: &mut Vec<Vec<Interval>>,
    value: &Value,
) -> Result<(), SpaceFault>
    ensures put { OnOk result (Adds (lists memory.old.items) (lists memory.new.items) (values_of None (Some (view value.now)))) }
    ensures are { OnOk result (All IsValues (lists memory.old.items) → All IsValues (lists memory.new.items)) }
    ensures fault { IfErr result (λ e. e ≢ SpaceFault.Memory → e ≡ SpaceFault.NotRange) }
    ensures refused { IfErr result (λ e. e ≢ SpaceFault.Memory → values_of None (Some (view value.now)) ≡ None) }
{
    let values = list(alloc, value)?;
    memory.push(values)?;
    Ok(())
}

// Appends the values of an array.
fn put_array(
    alloc: Global,
    memory: &mut Vec<Vec<Interval>>,
    length: u32,
    value: &Value,
) -> Result<(), SpaceFault>
    ensures put { OnOk result (Adds (lists memory.old.items) (lists memory.new.items) (values_of (Some length) (Some (view value.now)))) }
    ensures are { OnOk result (All IsValues (lists memory.old.items) → All IsValues (lists memory.new.items)) }
    ensures fault { IfErr result (λ e. e ≢ SpaceFault.Memory → e ≡ SpaceFault.NotRange) }
    ensures refused { IfErr result (λ e. e ≢ SpaceFault.Memory → values_of (Some length) (Some (view value.now)) ≡ None) }
{
    match value {
        Value::Array(values) => put_elements(alloc, memory, length, values.as_slice()),
        _ => Err(SpaceFault::NotRange),
    }
}

// Appends the values of a declaration, which are 0 where no value stands.
fn put(
    alloc: Global,
    memory: &mut Vec<Vec<Interval>>,
    length: Option<u32>,
    value: Option<&Value>,
) -> Result<(), SpaceFault>
    ensures put { OnOk result (Adds (lists memory.old.items) (lists memory.new.items) (values_of length (data_of value.entry))) }
    ensures are { OnOk result (All IsValues (lists memory.old.items) → All IsValues (lists memory.new.items)) }
    ensures fault { IfErr result (λ e. e ≢ SpaceFault.Memory → e ≡ SpaceFault.NotRange) }
    ensures refused { IfErr result (λ e. e ≢ SpaceFault.Memory → values_of length (data_of value.entry) ≡ None) }
{
    match (length, value) {
        (None, None) => {
            put_zeros(alloc, memory, 1)?;
            Ok(())
        }
        (None, Some(value)) => put_scalar(alloc, memory, value),
        (Some(length), None) => {
            put_zeros(alloc, memory, length as usize)?;
            Ok(())
        }
        (Some(length), Some(value)) => put_array(alloc, memory, length, value),
    }
}

// The value at a name.
fn at_name<'a>(table: &'a Table, name: &Name) -> Option<&'a Value>
    ensures { data_of result ≡ get_member name.now (table_view table.now) }
{
    match std::str::from_utf8(name.bytes()) {
        Ok(key) => at(table, key),
        Err(_) => None,
    }
}

// The values of all variables.
#[tactic(auto, using(crate::proofs::Filling::declares))]
fn memory_of(
    alloc: Global,
    program: &Program,
    table: &Table,
) -> Result<Vec<Vec<Interval>>, SpaceFault>
    ensures put { IfOk result (λ m. memory_of program.now.declarations (table_view table.now) ≡ Some (lists m.items)) }
    ensures are { IfOk result (λ m. All IsValues (lists m.items)) }
    ensures fault { IfErr result (λ e. e ≢ SpaceFault.Memory → e ≡ SpaceFault.NotRange) }
    ensures refused { IfErr result (λ e. e ≢ SpaceFault.Memory → memory_of program.now.declarations (table_view table.now) ≡ None) }
{
    let declarations = program.declarations();
    let mut memory = Vec::new(alloc);
    for k in 0..declarations.len() {
        let (name, decl) = declarations.declaration(k);
        put(alloc, &mut memory, decl.length, at_name(table, &name))?;
    }
    Ok(memory)
}

/// The values of all variables: where `memory` is left out, all are 0.
///
/// # Errors
/// `NotRange` where `memory` is no table or a value in it is none, or `Memory`.
pub(crate) fn values(
    alloc: Global,
    program: &Program,
    memory: Option<&Value>,
) -> Result<Vec<Vec<Interval>>, SpaceFault>
    ensures put { IfOk result (λ m. values_in program.now (data_of memory.entry) ≡ Some (lists m.items)) }
    ensures are { IfOk result (λ m. All IsValues (lists m.items)) }
    ensures fault { IfErr result (λ e. e ≢ SpaceFault.Memory → e ≡ SpaceFault.NotRange) }
    ensures refused { IfErr result (λ e. e ≢ SpaceFault.Memory → values_in program.now (data_of memory.entry) ≡ None) }
{
    let Some(value) = memory else {
        return memory_of(alloc, program, &Table::new(alloc));
    };
    match value {
        Value::Table(table) => memory_of(alloc, program, table),
        _ => Err(SpaceFault::NotRange),
    }
}
