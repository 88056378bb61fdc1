//! How many runs each class has.

ghost use Rattle.std.specs.Prelude.{◌≡◌, ◌≤◌, ◌<◌, ◌+◌, ◌^◌, ℕ, IfOk, OnOk, List, length};
ghost use Rattle.label_code.specs.Machine.{Event};
ghost use Rattle.fixed_log.specs.Entropy.{AllSome, starts};
ghost use Rattle.leak_bound.specs.Records.{classes_of, place_in};
ghost use Rattle.leak_audit.specs.Sequences.{same_sequence};
ghost use Rattle.leak_classes.specs.Classes.{Classes, with_start};
ghost use Rattle.lab_leak.specs.Classes.{AreSizes, classes_of_runs, shown_by};

use std::alloc::Global;
use text_base::pos::Memory;

/// Of classes of runs, in order of first appearance: how many runs each has, and the number of its first run, from 1.
#[derive(Drop)]
pub(crate) struct ClassSizes {
    pub sizes: Vec<u64>,
    pub firsts: Vec<u32>,
}

impl ClassSizes {
    // Takes in a run of the class with a number, both from 1.
    fn take(&mut self, run: u32, class: u32) -> Result<(), Memory>
        requires { starts self.old.sizes.items < 2 ^ 40 }
        ensures count { OnOk result (starts self.new.sizes.items ≡ starts self.old.sizes.items + 1) }
        ensures some { OnOk result (AllSome self.old.sizes.items → AllSome self.new.sizes.items) }
        ensures are { OnOk result ((k : Classes) (z : List Event) (n : ℕ) → AreSizes k self.old → class ≡ place_in same_sequence (shown_by k) z
            → run ≡ n + 1 → AreSizes (with_start k n z 1) self.new) }
    {
        let place = class.saturating_sub(1) as usize;
        if place < self.sizes.len() {
            self.sizes[place] += 1;
            return Ok(());
        }
        self.sizes.push(1)?;
        self.firsts.push(run)?;
        Ok(())
    }
}

/// The sizes and first runs of classes, from the class of each of at most 4,096 runs. Fails only for want of memory.
pub(crate) fn sizes(alloc: Global, classes: &[u32]) -> Result<ClassSizes, Memory>
    requires { length classes.now ≤ 4096 }
    ensures count { IfOk result (λ s. starts s.sizes.items ≡ length classes.now) }
    ensures some { IfOk result (λ s. AllSome s.sizes.items) }
    ensures are { IfOk result (λ s. (zs : List (List Event)) → classes.now ≡ classes_of same_sequence zs → AreSizes (classes_of_runs zs) s) }
{
    let mut found = ClassSizes {
        sizes: Vec::new(alloc),
        firsts: Vec::new(alloc),
    };
    for (i, &class) in classes.iter().enumerate() {
        found.take(i as u32 + 1, class)?;
    }
    Ok(found)
}
