//! What a program writes of its variables.

ghost use Rattle.std.specs.Prelude.{◌≤◌, vec_len};

use label_lattice::label::Label;
use label_lattice::lattice::Lattice;
use std::alloc::Global;

/// A program's labels with their order, and the label of each variable where one is written; and where memory
/// for left sides comes from.
#[derive(Drop)]
pub(crate) struct Known<'a> {
    pub(crate) alloc: Global,
    pub(crate) order: &'a Lattice,
    pub(crate) written: Vec<Option<Label>>,
    ghost small: { vec_len written ≤ 3072 },
}
