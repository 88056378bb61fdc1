//! From the bytes of a start file to the starts of its runs.

ghost use Rattle.std.specs.Prelude.{◌≡◌, ◌≢◌, ◌≤◌, All, Some, None, Ok, Err, IfOk, IfErr, length, map, string_bytes};
ghost use Rattle.std.specs.List.{list_all};
ghost use Rattle.std.specs.BTreeMap.{keys};
ghost use Rattle.toml.specs.Data.{Members};
ghost use Rattle.toml.specs.View.{items_view, table_view};
ghost use Rattle.mit_syntax.specs.Declarations.{variables};
ghost use Rattle.mit_syntax.specs.Valid.{IsValid};
ghost use Rattle.start_file.specs.Tables.{data_of};
ghost use Rattle.start_file.specs.Starts.{is_top_key, runs_from, counted_runs, runs_of, starts_in, seen, IsDocument, Gives, IsFor};
ghost use Rattle.start_file.specs.Shared.{filled_items, filled_runs, IsShared};

use crate::fault::StartFault;
use crate::memory::zeros;
use crate::run::run;
use crate::start::Start;
use crate::table::at;
use crate::version::{Version, stated};
use mit_syntax::program::Program;
use run_limits::{MAX_RUNS, are_too_many};
use std::alloc::Global;
use toml::{Table, Value};

fn is_top_key(key: &str) -> bool
    ensures { result ≡ is_top_key key.now }
{
    key == "run" || key == "version"
}

fn has_top_keys(table: &Table) -> bool
    ensures { result ≡ list_all (λ k. is_top_key (string_bytes k)) (keys table.now) }
{
    table.keys().all(|key| is_top_key(key.as_str()))
}

/// The document that bytes write.
///
/// # Errors
/// `NotToml` or `Memory`.
pub(crate) fn document(alloc: Global, bytes: &[u8]) -> Result<Table, StartFault>
    ensures ok { IfOk result (λ t. IsDocument bytes.now (Some (table_view t))) }
    ensures fault { IfErr result (λ e. e ≢ StartFault.Memory → e ≡ StartFault.NotToml) }
    ensures refused { IfErr result (λ e. e ≢ StartFault.Memory → IsDocument bytes.now None) }
{
    match toml::de::table_from_slice(alloc, bytes) {
        Ok(table) => Ok(table),
        Err(fault) => {
            if fault.is_memory() {
                return Err(StartFault::Memory);
            }
            Err(StartFault::NotToml)
        }
    }
}

// The starts of the runs, which are numbered from 1.
fn all_runs(
    alloc: Global,
    program: &Program,
    version: Version,
    shared: &[i64],
    values: &[Value],
) -> Result<Vec<Start>, StartFault>
    requires valid { IsValid program.now }
    requires size { length shared.now ≡ variables program.now.declarations }
    requires few { length values.now ≤ MAX_RUNS }
    ensures ok { IfOk result (λ v. (ms : Members) → IsShared program.now version ms shared.now
        → runs_from program.now version 1 (filled_items ms (items_view values.now)) ≡ Ok (map seen v.items)) }
    ensures refused { IfErr result (λ e. e ≢ StartFault.Memory → (ms : Members) → IsShared program.now version ms shared.now
        → runs_from program.now version 1 (filled_items ms (items_view values.now)) ≡ Err e) }
{
    let mut starts = Vec::new(alloc);
    for (i, value) in values.iter().enumerate() {
        let start = match run(alloc, program, version, i as u32 + 1, shared, value) {
            Ok(start) => start,
            Err(fault) => return Err(fault),
        };
        starts.push(start)?;
    }
    Ok(starts)
}

fn counted_runs(
    alloc: Global,
    program: &Program,
    version: Version,
    shared: &[i64],
    values: &[Value],
) -> Result<Vec<Start>, StartFault>
    requires valid { IsValid program.now }
    requires size { length shared.now ≡ variables program.now.declarations }
    ensures ok { IfOk result (λ v. (ms : Members) → IsShared program.now version ms shared.now
        → counted_runs program.now version (filled_items ms (items_view values.now)) ≡ Ok (map seen v.items)) }
    ensures refused { IfErr result (λ e. e ≢ StartFault.Memory → (ms : Members) → IsShared program.now version ms shared.now
        → counted_runs program.now version (filled_items ms (items_view values.now)) ≡ Err e) }
{
    if values.is_empty() {
        return Err(StartFault::NoRuns);
    }
    if are_too_many(values.len()) {
        return Err(StartFault::TooMany(values.len() as u64));
    }
    all_runs(alloc, program, version, shared, values)
}

/// The starts of the runs in an array, with the values that they share where they have none of their own.
///
/// # Errors
/// `NoRuns`, `TooMany`, the refusal of the first run that is refused, or `Memory`.
pub(crate) fn runs(
    alloc: Global,
    program: &Program,
    version: Version,
    shared: &[i64],
    value: Option<&Value>,
) -> Result<Vec<Start>, StartFault>
    requires valid { IsValid program.now }
    requires size { length shared.now ≡ variables program.now.declarations }
    ensures ok { IfOk result (λ v. (ms : Members) → IsShared program.now version ms shared.now
        → runs_of program.now version (filled_runs ms (data_of value.entry)) ≡ Ok (map seen v.items)) }
    ensures refused { IfErr result (λ e. e ≢ StartFault.Memory → (ms : Members) → IsShared program.now version ms shared.now
        → runs_of program.now version (filled_runs ms (data_of value.entry)) ≡ Err e) }
{
    let Some(value) = value else {
        return Err(StartFault::NoRuns);
    };
    match value {
        Value::Array(values) => counted_runs(alloc, program, version, shared, values.as_slice()),
        _ => Err(StartFault::NoRuns),
    }
}

// The starts of the runs in an array, which share nothing.
fn own_runs(
    alloc: Global,
    program: &Program,
    version: Version,
    value: Option<&Value>,
) -> Result<Vec<Start>, StartFault>
    requires { IsValid program.now }
    ensures ok { IfOk result (λ v. runs_of program.now version (data_of value.entry) ≡ Ok (map seen v.items)) }
    ensures refused { IfErr result (λ e. e ≢ StartFault.Memory → runs_of program.now version (data_of value.entry) ≡ Err e) }
{
    let zeros = zeros(alloc, program.variables())?;
    let starts = match runs(alloc, program, version, &zeros, value) {
        Ok(starts) => starts,
        Err(fault) => return Err(fault),
    };
    Ok(starts)
}

/// The starts of a document of version 1 or 2.
///
/// # Errors
/// As those of `read_starts`.
pub(crate) fn starts_in(
    alloc: Global,
    program: &Program,
    table: &Table,
) -> Result<Vec<Start>, StartFault>
    requires { IsValid program.now }
    ensures ok { IfOk result (λ v. starts_in program.now (Some (table_view table.now)) ≡ Ok (map seen v.items)) }
    ensures refused { IfErr result (λ e. e ≢ StartFault.Memory → starts_in program.now (Some (table_view table.now)) ≡ Err e) }
{
    let Some(version) = stated(at(table, "version")) else {
        return Err(StartFault::Version);
    };
    if !has_top_keys(table) {
        return Err(StartFault::UnknownKey(0));
    }
    own_runs(alloc, program, version, at(table, "run"))
}

/// The starts of the runs of a start file for a program, in order. Each has a value for each variable of
/// the program, and its touches are of labels of the program.
///
/// # Errors
/// What the file is refused for first, or `Memory`. First the document, its version, its keys and the number
/// of runs are checked. Then come the runs, one after the other: its keys, then its values, then its touches.
pub fn read_starts(alloc: Global, bytes: &[u8], program: &Program) -> Result<Vec<Start>, StartFault>
    ensures ok { IfOk result (λ v. Gives program.now bytes.now (Ok (map seen v.items))) }
    ensures valid { IfOk result (λ v. All (IsFor program.now) (map seen v.items)) }
    ensures refused { IfErr result (λ e. e ≢ StartFault.Memory → Gives program.now bytes.now (Err e)) }
{
    let table = document(alloc, bytes)?;
    program.laws();
    starts_in(alloc, program, &table)
}
