ghost use Rattle.std.specs.Prelude.{◌≡◌, ◌<◌, ◌≤◌, ◌^◌, length, replicate, slice_index, slice_set, All};
ghost use Rattle.doubling_schedule.specs.Doubling.{prediction, misses_after, Settles};

use crate::prediction::predicted;
use label_lattice::label::{Label, MAX_LABELS};
use std::marker::Model;

const LABELS: usize = MAX_LABELS as usize;

/// A miss count for each label, from 0 to 64. No call on it takes memory.
#[derive(Drop)]
pub struct MissTable {
    counts: [u8; LABELS],
}

impl Model for MissTable {
    ghost use Rattle.std.specs.Prelude.{List, ℕ, ◌≤◌, slice_index};

    ghost Value = { List ℕ };

    ghost view = { λ t. t.counts };

    ghost invariant = { λ t. (l : ℕ) → slice_index t.counts l ≤ 64 };
}

impl MissTable {
    /// All counts 0.
    pub fn new() -> MissTable
        ensures { result ≡ replicate MAX_LABELS 0 }
    {
        MissTable {
            counts: [0; LABELS],
        }
    }

    /// The count of a label.
    pub fn misses(&self, l: Label) -> u32
        requires { l.number < MAX_LABELS }
        ensures value { result ≡ slice_index self.now l.number }
        ensures few { result ≤ 64 }
    {
        u32::from(self.counts[usize::from(l.number)])
    }

    /// How many cycles a mitigation with the estimate `n` and the level `l` lasts, by the present count.
    pub fn predict(&self, n: i64, l: Label) -> u128
        requires { l.number < MAX_LABELS }
        ensures value { result ≡ prediction n (slice_index self.now l.number) }
        ensures small { result ≤ 2 ^ 127 }
    {
        predicted(n, self.counts[usize::from(l.number)])
    }

    /// Settles a mitigation with the estimate `n` and the level `l` that has taken `elapsed` cycles: raises
    /// the count of `l` until the prediction is above `elapsed`, and answers that prediction.
    pub fn settle(&mut self, n: i64, l: Label, elapsed: u64) -> u128
        requires { l.number < MAX_LABELS }
        ensures settles { Settles n elapsed (slice_index self.old l.number) (slice_index self.new l.number) }
        ensures value { result ≡ prediction n (slice_index self.new l.number) }

        // The same count, computed. All others stay.
        ensures count { slice_index self.new l.number ≡ misses_after n elapsed (slice_index self.old l.number) }
        ensures counts { self.new ≡ slice_set self.old l.number (misses_after n elapsed (slice_index self.old l.number)) }

        ensures few { slice_index self.new l.number ≤ 64 }
        ensures small { result ≤ 2 ^ 127 }
        ensures labels { length self.new ≡ MAX_LABELS }
    {
        let level = usize::from(l.number);
        let mut count = self.counts[level];
        while predicted(n, count) <= u128::from(elapsed) {
            count += 1;
        }
        self.counts[level] = count;
        predicted(n, count)
    }
}
