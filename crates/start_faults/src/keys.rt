//! The keys of a start file.

ghost use Rattle.std.specs.Prelude.{◌≡◌, ◌++◌, OnOk, option_map};
ghost use Rattle.toml.specs.Data.{get_member};
ghost use Rattle.toml.specs.View.{table_view};
ghost use Rattle.start_file.specs.Tables.{data_of};
ghost use Rattle.start_faults.specs.Found.{first_unknown, has_key, key_lines, keys_text};

use crate::found::{put_at, put_expected, put_word};
use std::alloc::{AllocError, Global};
use text_base::pos::Memory;
use toml::{Table, Value};

/// The keys of one table of a start file.
#[derive(Clone, Copy, Debug, PartialEq, Eq)]
pub enum Keys {
    /// The top level's.
    Top,
    /// A run's.
    Run,
    /// A touch's.
    Touch,
}

impl Keys {
    // Whether a key is one of these.
    fn has(self, key: &str) -> bool
        ensures { result ≡ has_key self key.now }
    {
        match self {
            Keys::Top => key == "run" || key == "version",
            Keys::Run => key == "memory" || key == "touch",
            Keys::Touch => key == "place" || key == "label" || key == "address",
        }
    }

    fn text(self) -> &'static [u8]
        ensures { result.now ≡ keys_text self }
    {
        match self {
            Keys::Top => b"run version".as_slice(),
            Keys::Run => b"memory touch".as_slice(),
            Keys::Touch => b"place label address".as_slice(),
        }
    }
}

/// The value at a key.
#[tactic(auto, using(toml::proofs::Views::table_get))]
pub(crate) fn at<'a>(table: &'a Table, key: &str) -> Option<&'a Value>
    ensures { data_of result ≡ get_member key.now (table_view table.now) }
{
    table.get(key)
}

/// The first key of a table that is none of these.
pub(crate) fn first_unknown<'a>(keys: Keys, table: &'a Table) -> Option<&'a str>
    ensures { option_map (λ k. k.now) result ≡ first_unknown (has_key keys) (table_view table.now) }
{
    for (key, _) in table {
        if !keys.has(key.as_str()) {
            return Some(key.as_str());
        }
    }
    None
}

/// Appends the lines of a key that is none of these, behind what its place begins with.
pub(crate) fn put_key(
    out: &mut Vec<u8>,
    alloc: Global,
    front: &[u8],
    keys: Keys,
    key: &str,
) -> Result<(), AllocError>
    ensures { OnOk result (out.new.items ≡ out.old.items ++ key_lines front.now keys key.now) }
{
    let mut place = Vec::from_slice(alloc, front)?;
    put_word(&mut place, key.as_bytes())?;
    put_at(out, place.as_slice())?;
    put_expected(out, keys.text())?;
    Ok(())
}
