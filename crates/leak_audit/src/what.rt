use env_contract::place::Place;
use label_lattice::label::Label;

/// Where two starts differ: in the value of the variable with a number, or in what their environments hold
/// at a place for a label.
#[derive(Clone, Copy, Debug, PartialEq, Eq)]
pub enum What {
    Variable(u32),
    Partition(Place, Label),
}
