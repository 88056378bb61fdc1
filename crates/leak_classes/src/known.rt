//! What is kept of runs.

ghost use Rattle.std.specs.Prelude.{◌≡◌, ◌≢◌, ◌≤◌, ◌<◌, ◌+◌, ◌^◌, ℕ, List, take, None, Some, OnOk, IfErr, length};
ghost use Rattle.label_code.specs.Machine.{Event};
ghost use Rattle.class_counts.specs.Tally.{total};
ghost use Rattle.leak_audit.specs.Observed.{sequence_of};
ghost use Rattle.leak_classes.specs.declared.fault.WalkFault.TheVariants as fault;
ghost use Rattle.leak_classes.specs.Classes.{no_classes, with_start, events_in};
ghost use Rattle.leak_classes.specs.Walk.{refusal};
ghost use Rattle.leak_classes.specs.Views.{classes_of, IsCounted};

use crate::fault::WalkFault;
use class_counts::counts::add;
use cycle_machine::end::RunEnd;
use indexmap::IndexMap;
use leak_audit::observe::{Observed, Tally};
use leak_audit::sighting::Sighting;
use std::alloc::Global;

/// The most events that all different sequences may have together.
pub const MAX_EVENTS: u64 = 16_777_216;

/// What is kept of runs: no run, but each different sequence that one of them shows.
#[derive(Drop)]
pub struct Known {
    /// Each different sequence with the weight of its starts, in order of first appearance.
    pub classes: IndexMap<Vec<Sighting>, u64>,
    /// The number of the first start of each, counted from 1.
    pub firsts: Vec<u64>,
    /// How many events all sequences have together.
    pub events: u64,
}

impl Known {
    /// Of no run.
    pub fn new(alloc: Global) -> Known
        ensures none { classes_of result ≡ no_classes }
        ensures counted { IsCounted result }
        ensures light { total result.classes.entries ≡ 0 }
    {
        Known {
            classes: IndexMap::new(alloc),
            firsts: Vec::new(alloc),
            events: 0,
        }
    }

    // Takes in what is seen in a run that has halted, and counts its events where they are new.
    fn put(
        &mut self,
        number: u64,
        weight: u64,
        sequence: Vec<Sighting>,
        shown: u64,
    ) -> Result<(), WalkFault>
        requires number { number < 2 ^ 40 }
        requires weight { total self.old.classes.entries + weight ≤ 2 ^ 40 }
        requires counted { IsCounted self.old }
        requires shown { shown ≡ length sequence.items }
        requires few { shown ≤ 16777216 }
        ensures classes { OnOk result (classes_of self.new ≡ with_start (classes_of self.old) number (sequence_of sequence) weight) }
        ensures events { OnOk result (self.new.events ≡ events_in (classes_of self.new).seen) }
        ensures total { OnOk result (total self.new.classes.entries ≡ total self.old.classes.entries + weight) }
        ensures fault { IfErr result (λ e. e ≡ fault.Memory) }
    {
        let before = self.classes.len();
        add(&mut self.classes, sequence, weight)?;
        if self.classes.len() <= before {
            return Ok(());
        }
        self.firsts.push(number + 1)?;
        self.events += shown;
        Ok(())
    }

    /// Takes in the run from the start with a number, counted from 0, which has a weight.
    ///
    /// # Errors
    /// `Unfinished` where the run has not halted; `TooMuch` where all sequences have more than `MAX_EVENTS` events with its
    /// own; `Memory` where memory is wanting.
    pub fn take(&mut self, number: u64, weight: u64, seen: Observed) -> Result<(), WalkFault>
        requires number { number < 2 ^ 40 }
        requires weight { total self.old.classes.entries + weight ≤ 2 ^ 40 }
        requires counted { IsCounted self.old }
        requires more { seen.tally.shown ≤ 2 ^ 40 }
        requires kept { seen.tally.shown ≤ 16777216 → seen.tally.shown ≡ length seen.tally.events.items }
        ensures taken { OnOk result ((sequence : List Event) → seen.tally.shown ≡ length sequence → sequence_of seen.tally.events ≡ take 16777216 sequence →
            (classes_of self.new ≡ with_start (classes_of self.old) number sequence weight)
            × (refusal seen.end number (events_in (with_start (classes_of self.old) number sequence weight).seen) ≡ None)) }
        ensures counted { OnOk result (IsCounted self.new) }
        ensures total { OnOk result (total self.new.classes.entries ≡ total self.old.classes.entries + weight) }
        ensures refused { IfErr result (λ e. e ≢ fault.Memory → (sequence : List Event) → seen.tally.shown ≡ length sequence
            → sequence_of seen.tally.events ≡ take 16777216 sequence
            → refusal seen.end number (events_in (with_start (classes_of self.old) number sequence weight).seen) ≡ Some e) }
    {
        let Observed { tally, end } = seen;
        let Tally { events, shown, .. } = tally;
        if let RunEnd::Limit(cycle) = end {
            return Err(WalkFault::Unfinished {
                number: number + 1,
                cycle,
            });
        }
        if shown > MAX_EVENTS {
            return Err(WalkFault::TooMuch {
                count: self.events + shown,
            });
        }
        match self.put(number, weight, events, shown) {
            Ok(()) => {}
            Err(_) => return Err(WalkFault::Memory),
        }
        if self.events > MAX_EVENTS {
            return Err(WalkFault::TooMuch { count: self.events });
        }
        Ok(())
    }
}
