//! One run of a start file.

ghost use Rattle.std.specs.Prelude.{◌≡◌, ◌≢◌, Ok, Err, IfOk, IfErr, length, string_bytes};
ghost use Rattle.std.specs.List.{list_all};
ghost use Rattle.std.specs.BTreeMap.{keys};
ghost use Rattle.toml.specs.Data.{Members};
ghost use Rattle.toml.specs.View.{view, table_view};
ghost use Rattle.mit_syntax.specs.Declarations.{variables};
ghost use Rattle.mit_syntax.specs.Valid.{IsValid};
ghost use Rattle.start_file.specs.Starts.{is_run_key, run_keys_pass, run_in, run_of, seen};
ghost use Rattle.start_file.specs.Shared.{filled_members, filled_run, IsShared};

use crate::fault::StartFault;
use crate::memory::{names_pass, values_over};
use crate::start::Start;
use crate::table::at;
use crate::touch::touches;
use crate::version::Version;
use mit_syntax::program::Program;
use std::alloc::Global;
use toml::{Table, Value};

fn is_run_key(key: &str) -> bool
    ensures { result ≡ is_run_key key.now }
{
    key == "memory" || key == "touch"
}

fn has_run_keys(table: &Table) -> bool
    ensures { result ≡ list_all (λ k. is_run_key (string_bytes k)) (keys table.now) }
{
    table.keys().all(|key| is_run_key(key.as_str()))
}

fn run_keys_pass(program: &Program, version: Version, table: &Table) -> bool
    requires { IsValid program.now }
    ensures { result ≡ run_keys_pass program.now version (table_view table.now) }
{
    has_run_keys(table) && names_pass(program, version, at(table, "memory"))
}

// The start of a run with these values where it has none of its own.
fn run_in(
    alloc: Global,
    program: &Program,
    version: Version,
    run: u32,
    shared: &[i64],
    table: &Table,
) -> Result<Start, StartFault>
    requires valid { IsValid program.now }
    requires size { length shared.now ≡ variables program.now.declarations }
    ensures ok { IfOk result (λ s. (ms : Members) → IsShared program.now version ms shared.now
        → run_in program.now version run (filled_members ms (table_view table.now)) ≡ Ok (seen s)) }
    ensures refused { IfErr result (λ e. e ≢ StartFault.Memory → (ms : Members) → IsShared program.now version ms shared.now
        → run_in program.now version run (filled_members ms (table_view table.now)) ≡ Err e) }
{
    if !run_keys_pass(program, version, table) {
        return Err(StartFault::UnknownKey(run));
    }
    let own = Vec::from_slice(alloc, shared)?;
    let memory = match values_over(program, run, own, at(table, "memory")) {
        Ok(memory) => memory,
        Err(fault) => return Err(fault),
    };
    let touches = match touches(alloc, program, version, run, at(table, "touch")) {
        Ok(touches) => touches,
        Err(fault) => return Err(fault),
    };
    Ok(Start { memory, touches })
}

/// The start that a run with a number gives, with the values that all runs share where it has none of its own: first the keys are
/// checked, then the values, then the touches.
///
/// # Errors
/// `UnknownKey`, `NotNumber` or `BadTouch`, the first that applies, or `Memory`.
pub fn run(
    alloc: Global,
    program: &Program,
    version: Version,
    run: u32,
    shared: &[i64],
    value: &Value,
) -> Result<Start, StartFault>
    requires valid { IsValid program.now }
    requires size { length shared.now ≡ variables program.now.declarations }
    ensures ok { IfOk result (λ s. (ms : Members) → IsShared program.now version ms shared.now
        → run_of program.now version run (filled_run ms (view value.now)) ≡ Ok (seen s)) }
    ensures refused { IfErr result (λ e. e ≢ StartFault.Memory → (ms : Members) → IsShared program.now version ms shared.now
        → run_of program.now version run (filled_run ms (view value.now)) ≡ Err e) }
{
    match value {
        Value::Table(table) => run_in(alloc, program, version, run, shared, table),
        _ => Err(StartFault::UnknownKey(run)),
    }
}
