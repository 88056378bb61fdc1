//! From the bytes of a file to a space of starts.

ghost use Rattle.std.specs.Prelude.{◌≡◌, ◌≢◌, ◌≤◌, ◌^◌, All, Some, None, Ok, Err, IfOk, IfErr};
ghost use Rattle.toml.specs.View.{view, table_view};
ghost use Rattle.mit_syntax.specs.Valid.{IsValid};
ghost use Rattle.start_file.specs.Tables.{data_of};
ghost use Rattle.start_file.specs.declared.version.Version.TheVariants.{Two};
ghost use Rattle.start_file.specs.Touches.{touches_in};
ghost use Rattle.start_file.specs.Starts.{IsDocument};
ghost use Rattle.std.specs.List.{list_all};
ghost use Rattle.space_starts.specs.Space.{lists, apart, seen, size_of, IsValues, IsSpaceFor};
ghost use Rattle.space_file.specs.Files.{space_in, space_of, document_space, counted, GivesSpace};

use crate::fault::SpaceFault;
use crate::keys::{has_top_keys, space_keys_pass};
use crate::memory::values;
use env_contract::place::Touch;
use mit_syntax::program::Program;
use space_starts::apart::are_apart;
use space_starts::space::{Interval, Space};
use start_file::fault::StartFault;
use start_file::table::at;
use start_file::touch;
use start_file::version::{Version, is_three};
use std::alloc::{AllocError, Global};
use toml::{Table, Value};

fn document(alloc: Global, bytes: &[u8]) -> Result<Table, SpaceFault>
    ensures ok { IfOk result (λ t. IsDocument bytes.now (Some (table_view t))) }
    ensures fault { IfErr result (λ e. e ≢ SpaceFault.Memory → e ≡ SpaceFault.NotToml) }
    ensures refused { IfErr result (λ e. e ≢ SpaceFault.Memory → IsDocument bytes.now None) }
{
    match toml::de::table_from_slice(alloc, bytes) {
        Ok(table) => Ok(table),
        Err(fault) => {
            if fault.is_memory() {
                return Err(SpaceFault::Memory);
            }
            Err(SpaceFault::NotToml)
        }
    }
}

// The touches of all starts, the earliest first.
fn touches(
    alloc: Global,
    program: &Program,
    touch: Option<&Value>,
) -> Result<Vec<Touch>, SpaceFault>
    ensures ok { IfOk result (λ ts. touches_in Two program.now.order (data_of touch.entry) ≡ Some ts.items) }
    ensures fault { IfErr result (λ e. e ≢ SpaceFault.Memory → e ≡ SpaceFault.BadTouch) }
    ensures refused { IfErr result (λ e. e ≢ SpaceFault.Memory → touches_in Two program.now.order (data_of touch.entry) ≡ None) }
{
    match touch::touches(alloc, program, Version::Two, 0, touch) {
        Ok(touches) => Ok(touches),
        Err(StartFault::Memory) => Err(SpaceFault::Memory),
        Err(_) => Err(SpaceFault::BadTouch),
    }
}

// Whether no variable has a value twice.
fn have_none_twice(alloc: Global, memory: &[Vec<Interval>]) -> Result<bool, AllocError>
    ensures { IfOk result (λ b. b ≡ list_all apart (lists memory.now)) }
{
    for values in memory {
        let apart = are_apart(alloc, values)?;
        if !apart {
            return Ok(false);
        }
    }
    Ok(true)
}

// A space that has not too many starts.
fn counted(alloc: Global, space: Space) -> Result<Space, SpaceFault>
    requires { All IsValues (lists space.memory.items) }
    ensures ok { IfOk result (λ s. counted (seen space) ≡ Ok (seen s)) }
    ensures same { IfOk result (λ s. (seen s ≡ seen space) × (size_of (seen s) ≤ 2 ^ 40)) }
    ensures refused { IfErr result (λ e. e ≢ SpaceFault.Memory → counted (seen space) ≡ Err e) }
{
    match space.size(alloc)? {
        Some(_) => Ok(space),
        None => Err(SpaceFault::TooMany),
    }
}

fn space_in(alloc: Global, program: &Program, table: &Table) -> Result<Space, SpaceFault>
    requires { IsValid program.now }
    ensures ok { IfOk result (λ s. space_in program.now (table_view table.now) ≡ Ok (seen s)) }
    ensures valid { IfOk result (λ s. IsSpaceFor program.now (seen s)) }
    ensures refused { IfErr result (λ e. e ≢ SpaceFault.Memory → space_in program.now (table_view table.now) ≡ Err e) }
{
    if !space_keys_pass(program, table) {
        return Err(SpaceFault::UnknownKey);
    }
    let memory = values(alloc, program, at(table, "memory"))?;
    let once = have_none_twice(alloc, &memory)?;
    if !once {
        return Err(SpaceFault::ValueTwice);
    }
    let touches = touches(alloc, program, at(table, "touch"))?;
    counted(alloc, Space { memory, touches })
}

fn space(alloc: Global, program: &Program, space: Option<&Value>) -> Result<Space, SpaceFault>
    requires { IsValid program.now }
    ensures ok { IfOk result (λ s. space_of program.now (data_of space.entry) ≡ Ok (seen s)) }
    ensures valid { IfOk result (λ s. IsSpaceFor program.now (seen s)) }
    ensures refused { IfErr result (λ e. e ≢ SpaceFault.Memory → space_of program.now (data_of space.entry) ≡ Err e) }
{
    let Some(value) = space else {
        return Err(SpaceFault::NoSpace);
    };
    match value {
        Value::Table(table) => space_in(alloc, program, table),
        _ => Err(SpaceFault::NoSpace),
    }
}

fn document_space(alloc: Global, program: &Program, table: &Table) -> Result<Space, SpaceFault>
    requires { IsValid program.now }
    ensures ok { IfOk result (λ s. document_space program.now (Some (table_view table.now)) ≡ Ok (seen s)) }
    ensures valid { IfOk result (λ s. IsSpaceFor program.now (seen s)) }
    ensures refused { IfErr result (λ e. e ≢ SpaceFault.Memory → document_space program.now (Some (table_view table.now)) ≡ Err e) }
{
    if !is_three(at(table, "version")) {
        return Err(SpaceFault::Version);
    }
    if !has_top_keys(table) {
        return Err(SpaceFault::UnknownKey);
    }
    space(alloc, program, at(table, "space"))
}

/// The space of starts that a file of version 3 gives for a program. It has values for each variable of the program, its
/// touches are of labels of the program, and it has at most 2^40 starts.
///
/// # Errors
/// What the file is refused for first, or `Memory`. First the document, its version and its keys are checked, then that
/// the values are lists, then that no variable has one twice, then the touches, and then the number of starts.
pub fn read_space(alloc: Global, bytes: &[u8], program: &Program) -> Result<Space, SpaceFault>
    ensures ok { IfOk result (λ s. GivesSpace program.now bytes.now (Ok (seen s))) }
    ensures valid { IfOk result (λ s. IsSpaceFor program.now (seen s)) }
    ensures refused { IfErr result (λ e. e ≢ SpaceFault.Memory → GivesSpace program.now bytes.now (Err e)) }
{
    let table = document(alloc, bytes)?;
    program.laws();
    document_space(alloc, program, &table)
}
