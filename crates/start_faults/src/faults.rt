//! The lines on a start file that is refused.

ghost use Rattle.std.specs.Prelude.{◌≡◌, ◌++◌, None, Some, IfOk, OnOk, option_map};
ghost use Rattle.toml.specs.Data.{get_member};
ghost use Rattle.toml.specs.View.{table_view};
ghost use Rattle.mit_syntax.specs.Valid.{IsValid};
ghost use Rattle.start_file.specs.Starts.{IsDocument};
ghost use Rattle.start_file.specs.Tables.{data_of, members_in};
ghost use Rattle.start_file.specs.Versions.{numbered, version_of};
ghost use Rattle.start_faults.specs.Names.{version_if};
ghost use Rattle.start_faults.specs.Told.{document_lines, form_lines, in_run, lines_of, most_runs, versioned_lines, TellsStarts};

use crate::found::put_place;
use crate::keys::at;
use crate::names::{put_unknown, run_at};
use crate::touches::put_touches;
use crate::values::put_numbers;
use mit_syntax::program::Program;
use start_file::fault::StartFault;
use std::alloc::{AllocError, Global};
use text_base::pos::Memory;
use toml::{Table, Value};

fn document(alloc: Global, bytes: &[u8]) -> Result<Option<Table>, Memory>
    ensures { IfOk result (λ t. IsDocument bytes.now (option_map table_view t)) }
{
    match toml::de::table_from_slice(alloc, bytes) {
        Ok(table) => Ok(Some(table)),
        Err(fault) => {
            if fault.is_memory() {
                return Err(Memory);
            }
            Ok(None)
        }
    }
}

// Whether a version is the second one, if it is one.
fn numbered(number: i64) -> Option<bool>
    ensures { option_map version_if result ≡ numbered number }
{
    if number == 1 {
        Some(false)
    } else if number == 2 {
        Some(true)
    } else {
        None
    }
}

fn stated(value: Option<&Value>) -> Option<bool>
    ensures { option_map version_if result ≡ version_of (data_of value.entry) }
{
    let Some(value) = value else {
        return Some(false);
    };
    match value {
        Value::Integer(number) => numbered(*number),
        _ => None,
    }
}

// What a start file is.
fn form_lines() -> &'static [u8]
    ensures { result.now ≡ form_lines }
{
    b"expected a TOML document: [[run]] begins each run, and memory.NAME = NUMBER gives a variable its value\n"
}

fn most_runs() -> &'static [u8]
    ensures { result.now ≡ most_runs }
{
    b"expected at most 4096 runs\n"
}

// The value at a key of the run with a number.
fn in_run<'a>(key: &str, table: &'a Table, run: u32) -> Option<&'a Value>
    ensures { data_of result ≡ in_run key.now (table_view table.now) run }
{
    match run_at(table, run)? {
        Value::Table(members) => at(members, key),
        _ => None,
    }
}

// Appends the lines on a fault of a document of a version.
fn put_fault(
    out: &mut Vec<u8>,
    alloc: Global,
    program: &Program,
    two: bool,
    table: &Table,
    fault: StartFault,
) -> Result<(), AllocError>
    requires { IsValid program.now }
    ensures { OnOk result (out.new.items ≡ out.old.items ++ lines_of program.now (version_if two) (table_view table.now) fault) }
{
    match fault {
        StartFault::UnknownKey(run) => put_unknown(out, alloc, program, two, table, run)?,
        StartFault::NoRuns => put_place(out, b"run", at(table, "run"), b"[[run]]")?,
        StartFault::TooMany(_) => out.extend_from_slice(most_runs())?,
        StartFault::NotNumber(run) => put_numbers(
            out,
            alloc,
            program,
            in_run("memory", table, run),
        )?,
        StartFault::BadTouch(run) => put_touches(
            out,
            alloc,
            program.lattice(),
            two,
            in_run("touch", table, run),
        )?,
        StartFault::NotToml | StartFault::Version | StartFault::Memory => {}
    }
    Ok(())
}

fn put_versioned(
    out: &mut Vec<u8>,
    alloc: Global,
    program: &Program,
    table: &Table,
    fault: StartFault,
) -> Result<(), AllocError>
    requires { IsValid program.now }
    ensures { OnOk result (out.new.items ≡ out.old.items ++ document_lines program.now (Some (table_view table.now)) fault) }
{
    let version = at(table, "version");
    match stated(version) {
        None => put_place(out, b"version", version, b"1 or 2")?,
        Some(two) => put_fault(out, alloc, program, two, table, fault)?,
    }
    Ok(())
}

/// The lines on a fault of the start file with these bytes: the place, by its keys, what stands there, and what has to stand there.
///
/// # Errors
/// `Memory` is want of memory.
pub fn fault_lines(
    alloc: Global,
    bytes: &[u8],
    program: &Program,
    fault: StartFault,
) -> Result<Vec<u8>, Memory>
    ensures { IfOk result (λ v. TellsStarts program.now bytes.now fault v.items) }
{
    program.laws();
    let document = document(alloc, bytes)?;
    let mut out = Vec::new(alloc);
    match &document {
        None => out.extend_from_slice(form_lines())?,
        Some(table) => put_versioned(&mut out, alloc, program, table, fault)?,
    }
    Ok(out)
}
