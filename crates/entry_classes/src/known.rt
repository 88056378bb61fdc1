//! What is kept of runs.

ghost use Rattle.std.specs.Prelude.{◌≡◌, ◌<◌, ◌+◌, ◌^◌, [], ◌∷◌, ◌++◌, List, OnOk, IfOk};
ghost use Rattle.class_counts.specs.Tally.{total};
ghost use Rattle.first_replay.specs.Replay.{Entry as Done};
ghost use Rattle.run_entries.specs.Entries.{entries_of};
ghost use Rattle.entry_classes.specs.Classes.{AreClasses, Keeps};

use class_counts::counts::add;
use first_front::class::Class;
use indexmap::IndexMap;
use run_entries::entry::Entry;
use std::alloc::Global;
use text_base::pos::Memory;

/// What is kept of runs: each different list of entries, with how many starts have it, in order of first appearance.
#[derive(Drop)]
pub struct Known {
    /// The lists with the numbers of their starts.
    pub classes: IndexMap<Vec<Entry>, u64>,
}

impl Known {
    /// Of no run.
    pub fn new(alloc: Global) -> Known
        ensures none { Keeps [] result }
        ensures total { total result.classes.entries ≡ 0 }
    {
        Known {
            classes: IndexMap::new(alloc),
        }
    }

    /// Takes in the entries of a run. Fails only for want of memory.
    pub fn put(&mut self, entries: Vec<Entry>) -> Result<(), Memory>
        requires few { total self.old.classes.entries + 1 < 2 ^ 64 }
        ensures kept { OnOk result ((runs : List (List Done)) → Keeps runs self.old → Keeps (runs ++ entries_of entries.items ∷ []) self.new) }
        ensures total { OnOk result (total self.new.classes.entries ≡ total self.old.classes.entries + 1) }
    {
        add(&mut self.classes, entries, 1)?;
        Ok(())
    }

    /// The classes. Fails only for want of memory.
    pub fn done(mut self, alloc: Global) -> Result<Vec<Class>, Memory>
        ensures { IfOk result (λ cs. (runs : List (List Done)) → Keeps runs self → AreClasses runs cs.items) }
    {
        let mut classes = Vec::new(alloc);
        while let Some((entries, starts)) = self.classes.pop() {
            classes.push(Class { entries, starts })?;
        }
        Ok(classes)
    }
}
