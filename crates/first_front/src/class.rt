//! Starts by their runs, and what of these is varied.

use run_entries::entry::Entry;

/// Starts whose runs have the same entries.
#[derive(Drop)]
pub struct Class {
    /// The entries of each of their runs.
    pub entries: Vec<Entry>,
    /// How many starts these are.
    pub starts: u64,
}

/// The numbers that code pushes, one of which is varied, and which mitigates' miss counts are told apart.
#[derive(Clone, Copy)]
pub struct Varied<'a> {
    /// The numbers by their places; past the list's end they are 0.
    pub written: &'a [i64],
    /// The place of the one that is varied.
    pub place: u32,
    /// Of each mitigate, by its mark, whether its miss counts are told apart; past the list's end they are not.
    pub relevant: &'a [bool],
}
