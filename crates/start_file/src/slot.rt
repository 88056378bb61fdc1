//! Where the values of a name stand.

ghost use Rattle.std.specs.Prelude.{◌≡◌};
ghost use Rattle.mit_syntax.specs.Valid.{IsValid};
ghost use Rattle.start_file.specs.Values.{slot_of};

use label_lattice::name::Name;
use mit_syntax::program::Program;

/// The number of the first variable that a name declares, and the length of an array.
#[derive(Clone, Copy)]
pub struct Slot {
    pub first: u32,
    pub length: Option<u32>,
}

/// The slot of the scalar or array with a name, or `None` where none has it.
pub fn slot_of(program: &Program, key: &str) -> Option<Slot>
    requires { IsValid program.now }
    ensures { result ≡ slot_of program.now.declarations key.now }
{
    let name = Name::read(key.as_bytes())?;
    if let Some(first) = program.find_variable(&name) {
        return Some(Slot {
            first,
            length: None,
        });
    }
    let (first, length) = program.find_array(&name)?;
    Some(Slot {
        first,
        length: Some(length),
    })
}
