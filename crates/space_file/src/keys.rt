//! Which keys a file may have.

ghost use Rattle.std.specs.Prelude.{◌≡◌, string_bytes, is_some};
ghost use Rattle.std.specs.List.{list_all};
ghost use Rattle.std.specs.BTreeMap.{keys};
ghost use Rattle.toml.specs.View.{table_view};
ghost use Rattle.mit_syntax.specs.Declarations.{declared};
ghost use Rattle.mit_syntax.specs.Valid.{IsValid};
ghost use Rattle.start_file.specs.Tables.{data_of, keys_pass};
ghost use Rattle.space_file.specs.Ranges.{names_pass};
ghost use Rattle.space_file.specs.Files.{is_top_key, is_space_key, space_keys_pass};

use label_lattice::name::Name;
use mit_syntax::program::Program;
use start_file::table::at;
use toml::{Table, Value};

fn is_top_key(key: &str) -> bool
    ensures { result ≡ is_top_key key.now }
{
    key == "space" || key == "version"
}

/// Whether all keys at the top are known.
pub(crate) fn has_top_keys(table: &Table) -> bool
    ensures { result ≡ list_all (λ k. is_top_key (string_bytes k)) (keys table.now) }
{
    table.keys().all(|key| is_top_key(key.as_str()))
}

fn is_space_key(key: &str) -> bool
    ensures { result ≡ is_space_key key.now }
{
    key == "memory" || key == "touch"
}

fn has_space_keys(table: &Table) -> bool
    ensures { result ≡ list_all (λ k. is_space_key (string_bytes k)) (keys table.now) }
{
    table.keys().all(|key| is_space_key(key.as_str()))
}

// Whether a name is declared.
fn is_declared(program: &Program, key: &str) -> bool
    requires { IsValid program.now }
    ensures { result ≡ is_some (declared program.now.declarations key.now) }
{
    match Name::read(key.as_bytes()) {
        None => false,
        Some(name) => program.find_variable(&name).is_some() || program.find_array(&name).is_some(),
    }
}

fn has_known_names(program: &Program, table: &Table) -> bool
    requires { IsValid program.now }
    ensures { result ≡ list_all (λ k. is_some (declared program.now.declarations (string_bytes k))) (keys table.now) }
{
    table.keys().all(|key| is_declared(program, key.as_str()))
}

fn names_pass(program: &Program, memory: Option<&Value>) -> bool
    requires { IsValid program.now }
    ensures { result ≡ names_pass program.now.declarations (data_of memory.entry) }
{
    let Some(value) = memory else {
        return true;
    };
    match value {
        Value::Table(table) => has_known_names(program, table),
        _ => true,
    }
}

/// Whether all keys of a space are known.
pub(crate) fn space_keys_pass(program: &Program, table: &Table) -> bool
    requires { IsValid program.now }
    ensures { result ≡ space_keys_pass program.now (table_view table.now) }
{
    has_space_keys(table) && names_pass(program, at(table, "memory"))
}
