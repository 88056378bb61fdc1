//! What names stand for, and which uses of them are wrong.

ghost use Rattle.std.specs.Prelude.{◌≡◌, cond, Some};
ghost use Rattle.std.specs.Option.{option_map};
ghost use Rattle.mit_parser.specs.declared.fault.ParseFault.TheVariants.{Misuse, Unknown};
ghost use Rattle.mit_parser.specs.Scope.{labels_in, find_label, label_fault, scalar_fault, array_fault, as_label, or_else};
ghost use Rattle.mit_parser.specs.Meaning.{both, label};
ghost use Rattle.mit_syntax.specs.Declarations.{find_scalar, find_array};

use crate::fault::ParseFault;
use label_lattice::label::Label;
use label_lattice::lattice::Lattice;
use label_lattice::name::Name;
use mit_syntax::declarations::Variables;
use text_base::pos::Pos;

/// The labels, where they make a lattice, and the declared variables.
#[derive(Drop)]
pub struct Names {
    pub lattice: Option<Lattice>,
    pub variables: Variables,
}

fn find_in(lattice: &Lattice, name: &Name) -> Option<Label>
    ensures { result ≡ option_map as_label (find_label lattice.now.names name.now) }
{
    lattice.laws();
    lattice.find(name)
}

// The label with a name.
fn find_label(lattice: &Option<Lattice>, name: &Name) -> Option<Label>
    ensures { result ≡ option_map as_label (find_label (labels_in lattice.now) name.now) }
{
    match lattice {
        Some(lattice) => find_in(lattice, name),
        None => None,
    }
}

/// What is wrong with the name of a label at a position.
pub fn label_fault(lattice: &Option<Lattice>, name: &Name, pos: Pos) -> Option<ParseFault>
    ensures { result ≡ label_fault (labels_in lattice.now) name.now pos }
{
    match find_label(lattice, name) {
        Some(_) => None,
        None => Some(ParseFault::Unknown(pos)),
    }
}

// What is wrong with a name that cannot be used so: it is declared otherwise, or not at all.
fn misuse(is_declared: bool, pos: Pos) -> ParseFault
    ensures { result ≡ cond is_declared (Misuse pos) (Unknown pos) }
{
    if is_declared {
        ParseFault::Misuse(pos)
    } else {
        ParseFault::Unknown(pos)
    }
}

/// What is wrong with a name without an index at a position, and the number of the scalar with the name, or 0
/// where no scalar has it.
pub fn scalar_use(variables: &Variables, name: &Name, pos: Pos) -> (Option<ParseFault>, u32)
    ensures fault { result.0 ≡ scalar_fault variables.now name.now pos }
    ensures number { result.1 ≡ or_else 0 (find_scalar variables.now name.now) }
{
    match variables.find_variable(name) {
        Some(number) => (None, number),
        None => (Some(misuse(variables.find_array(name).is_some(), pos)), 0),
    }
}

/// What is wrong with a name with an index at a position, and the first variable and the length of the array with
/// the name, or zeros where no array has it.
pub fn array_use(variables: &Variables, name: &Name, pos: Pos) -> (Option<ParseFault>, (u32, u32))
    ensures fault { result.0 ≡ array_fault variables.now name.now pos }
    ensures place { result.1 ≡ or_else (0, 0) (find_array variables.now name.now) }
{
    match variables.find_array(name) {
        Some(place) => (None, place),
        None => (
            Some(misuse(variables.find_variable(name).is_some(), pos)),
            (0, 0),
        ),
    }
}

/// What is wrong with the name of a label at a position, and the label with the name, or the first one where no
/// label has it.
pub fn label_use(lattice: &Option<Lattice>, name: &Name, pos: Pos) -> (Option<ParseFault>, Label)
    ensures fault { result.0 ≡ label_fault (labels_in lattice.now) name.now pos }
    ensures label { result.1 ≡ label (labels_in lattice.now) name.now }
{
    match find_label(lattice, name) {
        Some(label) => (None, label),
        None => (Some(ParseFault::Unknown(pos)), Label::new(0)),
    }
}

/// The read label and the write label of marks: one label means both.
pub fn both(read: Label, write: Option<Label>) -> (Label, Label)
    ensures { result ≡ both read write }
{
    match write {
        Some(label) => (read, label),
        None => (read, read),
    }
}

/// The label with a name, or the first one where no label has it.
pub fn label_or_first(lattice: &Option<Lattice>, name: &Name) -> Label
    ensures { result ≡ label (labels_in lattice.now) name.now }
{
    match find_label(lattice, name) {
        Some(label) => label,
        None => Label::new(0),
    }
}
