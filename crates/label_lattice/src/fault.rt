//! Why pairs of labels make no lattice.

use crate::label::Label;

/// Why labels and pairs of them make no lattice, in the order of the checks. The first label of a pair has
/// the lower number, and the pair is the first such pair by its first and then by its second label.
#[derive(Clone, Copy, Debug, PartialEq, Eq)]
pub enum LatticeFault {
    /// There are more labels than a lattice may have: this many.
    TooMany(u32),
    /// Two labels flow to each other.
    Cycle(Label, Label),
    /// To each of two labels no other label flows.
    NoBottom(Label, Label),
    /// Two labels have no join.
    NoJoin(Label, Label),
}
