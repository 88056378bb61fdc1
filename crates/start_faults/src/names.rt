//! What is told of a key that is unknown.

ghost use Rattle.std.specs.Prelude.{◌≡◌, ◌++◌, OnOk, decimal, codes, option_map};
ghost use Rattle.toml.specs.View.{table_view};
ghost use Rattle.mit_syntax.specs.Valid.{IsValid};
ghost use Rattle.start_file.specs.Tables.{data_of, members_in};
ghost use Rattle.start_file.specs.Values.{is_key, slot_of};
ghost use Rattle.toml.specs.Data.{get_item};
ghost use Rattle.toml.specs.View.{items_view};
ghost use Rattle.start_faults.specs.Found.{first_unknown, has_key, place_lines};
ghost use Rattle.start_faults.specs.declared.keys.Keys.TheVariants as run;
ghost use Rattle.start_faults.specs.Names.{length_of, memory_lines, named_line, near_line, near_names, no_such_name, run_at, run_key_lines};
ghost use Rattle.start_faults.specs.Names.{run_lines, top_lines, unknown_lines, version_if};

use crate::found::{put_at, put_count, put_place, put_word, table_in};
use crate::keys::{Keys, at, first_unknown, put_key};
use fault_print::names::put_listed;
use fault_print::near::is_near;
use label_lattice::name::Name;
use mit_syntax::program::Program;
use std::alloc::{AllocError, Global};
use toml::{Table, Value};

/// The length of what a name declares, if that is an array; `None` where it declares nothing.
pub(crate) fn length_of(program: &Program, key: &str) -> Option<Option<u32>>
    requires { IsValid program.now }
    ensures { result ≡ length_of program.now.declarations key.now }
{
    let name = Name::read(key.as_bytes())?;
    if let Some(_) = program.find_variable(&name) {
        return Some(None);
    }
    let (_, length) = program.find_array(&name)?;
    Some(Some(length))
}

// Whether a key of `memory` is known.
fn is_key(program: &Program, two: bool, key: &str) -> bool
    requires { IsValid program.now }
    ensures { result ≡ is_key (version_if two) (slot_of program.now.declarations key.now) }
{
    match length_of(program, key) {
        None => false,
        Some(None) => true,
        Some(Some(_)) => two,
    }
}

// The first key of `memory` that is unknown.
fn first_unnamed<'a>(program: &Program, two: bool, table: &'a Table) -> Option<&'a str>
    requires { IsValid program.now }
    ensures { option_map (λ k. k.now) result
        ≡ first_unknown (λ w. is_key (version_if two) (slot_of program.now.declarations w)) (table_view table.now) }
{
    for (key, _) in table {
        if !is_key(program, two, key.as_str()) {
            return Some(key.as_str());
        }
    }
    None
}

fn unnamed_in<'a>(program: &Program, two: bool, memory: Option<&'a Value>) -> Option<&'a str>
    requires { IsValid program.now }
    ensures { option_map (λ k. k.now) result
        ≡ first_unknown (λ w. is_key (version_if two) (slot_of program.now.declarations w)) (members_in (data_of memory.entry)) }
{
    match memory? {
        Value::Table(table) => first_unnamed(program, two, table),
        _ => None,
    }
}

// Appends the declared names that are near to a word.
fn put_near(out: &mut Vec<u8>, program: &Program, word: &[u8]) -> Result<(), AllocError>
    ensures { OnOk result (out.new.items ≡ out.old.items ++ near_names word.now program.now.declarations) }
{
    let declarations = program.declarations();
    for k in 0..declarations.len() {
        let (name, _) = declarations.declaration(k);
        let bytes = name.bytes();
        put_listed(out, is_near(word, bytes), bytes)?;
    }
    Ok(())
}

fn no_such_name() -> &'static [u8]
    ensures { result.now ≡ no_such_name }
{
    b"no variable has such a name\n"
}

fn put_near_line(out: &mut Vec<u8>, near: &[u8]) -> Result<(), AllocError>
    ensures { OnOk result (out.new.items ≡ out.old.items ++ near_line near.now) }
{
    if near.is_empty() {
        out.extend_from_slice(no_such_name())?;
        return Ok(());
    }
    out.extend_from_slice(b"nearest")?;
    out.extend_from_slice(near)?;
    out.extend_from_slice(b"\n")?;
    Ok(())
}

// Appends the line on a key of `memory`, which names nothing or an array.
fn put_named(
    out: &mut Vec<u8>,
    alloc: Global,
    program: &Program,
    key: &str,
) -> Result<(), AllocError>
    requires { IsValid program.now }
    ensures { OnOk result (out.new.items ≡ out.old.items
        ++ named_line program.now.declarations key.now (length_of program.now.declarations key.now)) }
{
    match length_of(program, key) {
        None => {
            let mut near = Vec::new(alloc);
            put_near(&mut near, program, key.as_bytes())?;
            put_near_line(out, near.as_slice())?;
        }
        Some(_) => out.extend_from_slice(
            b"it is an array: the file has to begin with version = 2\n",
        )?,
    }
    Ok(())
}

fn put_memory(
    out: &mut Vec<u8>,
    alloc: Global,
    program: &Program,
    key: Option<&str>,
) -> Result<(), AllocError>
    requires { IsValid program.now }
    ensures { OnOk result (out.new.items ≡ out.old.items
        ++ memory_lines program.now.declarations (option_map (λ k. k.now) key.entry)) }
{
    let Some(key) = key else {
        return Ok(());
    };
    let mut place = Vec::from_slice(alloc, b"memory.")?;
    put_word(&mut place, key.as_bytes())?;
    put_at(out, place.as_slice())?;
    put_named(out, alloc, program, key)?;
    Ok(())
}

fn put_run(
    out: &mut Vec<u8>,
    alloc: Global,
    program: &Program,
    two: bool,
    table: &Table,
) -> Result<(), AllocError>
    requires { IsValid program.now }
    ensures { OnOk result (out.new.items ≡ out.old.items
        ++ run_lines program.now.declarations (version_if two) (table_view table.now) (first_unknown (has_key run.Run) (table_view table.now))) }
{
    match first_unknown(Keys::Run, table) {
        Some(key) => put_key(out, alloc, b"", Keys::Run, key),
        None => put_memory(
            out,
            alloc,
            program,
            unnamed_in(program, two, at(table, "memory")),
        ),
    }
}

// Appends the place of the run with a number.
fn put_run_place(out: &mut Vec<u8>, run: u32) -> Result<(), AllocError>
    ensures { OnOk result (out.new.items ≡ out.old.items ++ (codes "run " ++ decimal run)) }
{
    out.extend_from_slice(b"run ")?;
    put_count(out, u64::from(run))?;
    Ok(())
}

// Appends the lines on the run with a number, which is no table.
fn put_no_run(
    out: &mut Vec<u8>,
    alloc: Global,
    run: u32,
    value: Option<&Value>,
) -> Result<(), AllocError>
    ensures { OnOk result (out.new.items ≡ out.old.items
        ++ place_lines (codes "run " ++ decimal run) (data_of value.entry) (codes "a table")) }
{
    let mut place = Vec::new(alloc);
    put_run_place(&mut place, run)?;
    put_place(out, place.as_slice(), value, b"a table")?;
    Ok(())
}

// Appends the lines on the run with a number, which has an unknown key or is no table.
fn put_run_keys(
    out: &mut Vec<u8>,
    alloc: Global,
    program: &Program,
    two: bool,
    run: u32,
    value: Option<&Value>,
) -> Result<(), AllocError>
    requires { IsValid program.now }
    ensures { OnOk result (out.new.items ≡ out.old.items
        ++ run_key_lines program.now.declarations (version_if two) run (data_of value.entry)) }
{
    match table_in(value) {
        None => put_no_run(out, alloc, run, value)?,
        Some(table) => put_run(out, alloc, program, two, table)?,
    }
    Ok(())
}

fn put_top(out: &mut Vec<u8>, alloc: Global, key: Option<&str>) -> Result<(), AllocError>
    ensures { OnOk result (out.new.items ≡ out.old.items ++ top_lines (option_map (λ k. k.now) key.entry)) }
{
    if let Some(key) = key {
        put_key(out, alloc, b"", Keys::Top, key)?;
    }
    Ok(())
}

/// The run with a number, from 1.
pub(crate) fn run_at<'a>(table: &'a Table, run: u32) -> Option<&'a Value>
    ensures { data_of result ≡ run_at (table_view table.now) run }
{
    match at(table, "run")? {
        Value::Array(values) => item(values.as_slice(), (run as usize).saturating_sub(1)),
        _ => None,
    }
}

// The value at a place of an array.
fn item(values: &[Value], i: usize) -> Option<&Value>
    ensures { data_of result ≡ get_item i (items_view values.now) }
{
    if i < values.len() {
        return Some(&values[i]);
    }
    None
}

/// Appends the lines on an unknown key of the run with a number, or of the top level, which has the number 0.
pub(crate) fn put_unknown(
    out: &mut Vec<u8>,
    alloc: Global,
    program: &Program,
    two: bool,
    table: &Table,
    run: u32,
) -> Result<(), AllocError>
    requires { IsValid program.now }
    ensures { OnOk result (out.new.items ≡ out.old.items
        ++ unknown_lines program.now.declarations (version_if two) (table_view table.now) run) }
{
    if run == 0 {
        return put_top(out, alloc, first_unknown(Keys::Top, table));
    }
    put_run_keys(out, alloc, program, two, run, run_at(table, run))
}
