//! From the bytes of a start file of any version to the starts of its runs: those of version 3 share memory.

ghost use Rattle.std.specs.Prelude.{◌≡◌, ◌≢◌, All, Some, Ok, Err, IfOk, IfErr, map, string_bytes};
ghost use Rattle.std.specs.List.{list_all};
ghost use Rattle.std.specs.BTreeMap.{keys};
ghost use Rattle.toml.specs.View.{table_view};
ghost use Rattle.mit_syntax.specs.Valid.{IsValid};
ghost use Rattle.start_file.specs.Starts.{seen, IsFor};
ghost use Rattle.start_file.specs.Shared.{has_shared, is_list_key, list_keys_pass, list_in, shared_in, GivesList};

use crate::fault::StartFault;
use crate::memory::{memory, names_pass};
use crate::start::Start;
use crate::starts::{document, runs, starts_in};
use crate::table::at;
use crate::version::{Version, is_three};
use mit_syntax::program::Program;
use std::alloc::Global;
use toml::Table;

fn is_list_key(key: &str) -> bool
    ensures { result ≡ is_list_key key.now }
{
    key == "memory" || key == "run" || key == "version"
}

fn has_list_keys(table: &Table) -> bool
    ensures { result ≡ list_all (λ k. is_list_key (string_bytes k)) (keys table.now) }
{
    table.keys().all(|key| is_list_key(key.as_str()))
}

fn list_keys_pass(program: &Program, table: &Table) -> bool
    requires { IsValid program.now }
    ensures { result ≡ list_keys_pass program.now (table_view table.now) }
{
    has_list_keys(table) && names_pass(program, Version::Two, at(table, "memory"))
}

// The starts of a document of version 3 with runs.
fn shared_in(alloc: Global, program: &Program, table: &Table) -> Result<Vec<Start>, StartFault>
    requires { IsValid program.now }
    ensures ok { IfOk result (λ v. shared_in program.now (table_view table.now) ≡ Ok (map seen v.items)) }
    ensures refused { IfErr result (λ e. e ≢ StartFault.Memory → shared_in program.now (table_view table.now) ≡ Err e) }
{
    if !list_keys_pass(program, table) {
        return Err(StartFault::UnknownKey(0));
    }
    let shared = memory(alloc, program, 0, at(table, "memory"))?;
    let starts = match runs(alloc, program, Version::Two, &shared, at(table, "run")) {
        Ok(starts) => starts,
        Err(fault) => return Err(fault),
    };
    Ok(starts)
}

/// Whether a document is of version 3 and has runs.
pub fn has_shared(table: &Table) -> bool
    ensures { result ≡ has_shared (table_view table.now) }
{
    is_three(at(table, "version")) && at(table, "run").is_some()
}

// The starts of a document of any version.
fn list_in(alloc: Global, program: &Program, table: &Table) -> Result<Vec<Start>, StartFault>
    requires { IsValid program.now }
    ensures ok { IfOk result (λ v. list_in program.now (Some (table_view table.now)) ≡ Ok (map seen v.items)) }
    ensures refused { IfErr result (λ e. e ≢ StartFault.Memory → list_in program.now (Some (table_view table.now)) ≡ Err e) }
{
    let starts = if has_shared(table) {
        shared_in(alloc, program, table)?
    } else {
        starts_in(alloc, program, table)?
    };
    Ok(starts)
}

/// The starts of the runs of a start file of any version for a program, in order: those of `read_starts` for versions 1 and 2. A
/// file of version 3 that has runs may have a `memory` beside them, whose values each run has where its own `memory` has none. Each
/// start has a value for each variable of the program, and its touches are of labels of the program.
///
/// # Errors
/// What the file is refused for first, or `Memory`: `Version` for a version above 3, and for version 3 without runs. For version 3
/// the keys of the top level and of the shared memory are checked, then its values; then the runs as those of version 2.
pub fn read_list(alloc: Global, bytes: &[u8], program: &Program) -> Result<Vec<Start>, StartFault>
    ensures ok { IfOk result (λ v. GivesList program.now bytes.now (Ok (map seen v.items))) }
    ensures valid { IfOk result (λ v. All (IsFor program.now) (map seen v.items)) }
    ensures refused { IfErr result (λ e. e ≢ StartFault.Memory → GivesList program.now bytes.now (Err e)) }
{
    let table = document(alloc, bytes)?;
    program.laws();
    let starts = match list_in(alloc, program, &table) {
        Ok(starts) => starts,
        Err(fault) => return Err(fault),
    };
    Ok(starts)
}
