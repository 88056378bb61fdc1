//! What is read and where it may be kept.

use label_lattice::label::Label;

/// What an access reads: an instruction or a datum.
#[derive(Clone, Copy, Debug, PartialEq, Eq)]
pub enum Kind {
    Code,
    Data,
}

/// Where an environment keeps what was touched: the translation buffer, the two first-level caches
/// and the second level.
#[derive(Clone, Copy, Debug, PartialEq, Eq)]
pub enum Place {
    Page,
    Code,
    Data,
    Second,
}

/// All places, in the order in which differences are looked for.
pub const PLACES: [Place; 4] = [Place::Page, Place::Code, Place::Data, Place::Second];

/// A touch that warms an environment before a run: the partition of a label at a place, and a byte's address.
#[derive(Clone, Copy, Debug, PartialEq, Eq)]
pub struct Touch {
    pub place: Place,
    pub label: Label,
    pub address: u32,
}
