//! Labels.

ghost use Rattle.std.specs.Prelude.{◌≡◌};

/// The most labels that a lattice may have.
pub const MAX_LABELS: u32 = 32;

/// A label, by its number: labels are numbered from 0 in the order in which a program writes them.
#[derive(Clone, Copy, Debug, PartialEq, Eq)]
pub struct Label {
    pub number: u8,
}

impl Label {
    /// The label with a number.
    pub fn new(number: u8) -> Label
        ensures { result.number ≡ number }
    {
        Label { number }
    }

    /// The label's number.
    pub fn number(self) -> u8
        ensures { result ≡ self.number }
    {
        self.number
    }
}
