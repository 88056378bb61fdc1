//! Versions of start files.

ghost use Rattle.std.specs.Prelude.{◌≡◌};
ghost use Rattle.toml.specs.View.{view};
ghost use Rattle.start_file.specs.Tables.{data_of};
ghost use Rattle.start_file.specs.Versions.{numbered, version_of, is_two, is_three};

use toml::Value;

/// A version of the format of start files. From the second on arrays may be named, and touches of the
/// second level written.
#[derive(Clone, Copy, Debug, PartialEq, Eq)]
pub enum Version {
    One,
    Two,
}

impl Version {
    /// Whether arrays may be named, and touches of the second level written.
    pub fn is_two(self) -> bool
        ensures { result ≡ is_two self }
    {
        match self {
            Version::One => false,
            Version::Two => true,
        }
    }
}

fn numbered(number: i64) -> Option<Version>
    ensures { result ≡ numbered number }
{
    if number == 1 {
        Some(Version::One)
    } else if number == 2 {
        Some(Version::Two)
    } else {
        None
    }
}

/// The version that a file states: the first where it states none.
pub fn stated(value: Option<&Value>) -> Option<Version>
    ensures { result ≡ version_of (data_of value.entry) }
{
    let Some(value) = value else {
        return Some(Version::One);
    };
    match value {
        Value::Integer(number) => numbered(*number),
        _ => None,
    }
}

/// Whether the version that a file states is 3.
pub fn is_three(value: Option<&Value>) -> bool
    ensures { result ≡ is_three (data_of value.entry) }
{
    let Some(value) = value else {
        return false;
    };
    match value {
        Value::Integer(number) => *number == 3,
        _ => false,
    }
}
