//! Which sequences are the same.

ghost use Rattle.std.specs.Prelude.{◌≡◌, ◌<◌, ◌≤◌, ◌+◌, ◌++◌, [], ◌∷◌, List, OnOk, IfOk, length};
ghost use Rattle.label_code.specs.Machine.{Event};
ghost use Rattle.leak_audit.specs.Observed.{sequence_of};
ghost use Rattle.leak_audit.specs.Kept.{AreKinds};

use crate::sighting::Sighting;
use indexmap::IndexSet;
use std::alloc::Global;
use text_base::pos::Memory;

/// A list of sequences of which each different one is kept once, and found by its hash. Sequences are the same
/// if they have the same variables, values and cycles.
#[derive(Drop)]
pub struct Kinds {
    /// The different ones, in order of first appearance.
    pub different: IndexSet<Vec<Sighting>>,
    /// The class of each: its place, from 1, among the different ones.
    pub classes: Vec<u32>,
}

impl Kinds {
    /// Of no sequence, with room for the classes of so many.
    pub fn new(alloc: Global, count: usize) -> Result<Kinds, Memory>
        ensures { IfOk result (λ k. AreKinds [] k) }
    {
        Ok(Kinds {
            different: IndexSet::new(alloc),
            classes: Vec::with_capacity(alloc, count)?,
        })
    }

    /// Takes in one sequence more. Fails only for want of memory.
    pub fn put(&mut self, sequence: Vec<Sighting>) -> Result<(), Memory>
        requires { length self.old.different.keys ≤ 4096 }
        ensures { OnOk result ((seqs : List (List Event)) → AreKinds seqs self.old → AreKinds (seqs ++ sequence_of sequence ∷ []) self.new) }
    {
        let (index, _) = self.different.insert_full(sequence)?;
        self.classes.push(index as u32 + 1)?;
        Ok(())
    }
}
