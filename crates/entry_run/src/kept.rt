//! Entries that are kept joined.

ghost use Rattle.std.specs.Prelude.{◌≡◌, ◌+◌, ◌<◌, ◌≤◌, ◌^◌, ◌++◌, [], ◌∷◌, ℕ, ℤ, Bool, OnOk, IfOk, None};
ghost use Rattle.first_replay.specs.Replay.{Timed, after, replay};
ghost use Rattle.run_entries.specs.Entries.{what_of, entries_of};
ghost use Rattle.run_entries.specs.Told.{told_at, counts_told};
ghost use Rattle.entry_run.specs.Kept.{kept_by, counts_by, IsClosed, number_first, still_waiting, last_what};

use run_entries::entry::{Deed, Entry};
use std::alloc::Global;
use text_base::pos::Memory;

/// Entries that are kept joined: cycles that pass where nothing is seen are added to the next entry.
#[derive(Drop)]
pub struct Kept {
    /// The entries so far.
    pub entries: Vec<Entry>,
    /// How many cycles have passed since the last of them.
    pub waiting: u64,
    /// At which place the last step pushed a number, if it did.
    pub pushed: Option<u32>,
}

impl Kept {
    /// No entries.
    pub fn new(alloc: Global) -> Kept
        ensures none { (numbers : ℕ → ℤ) (t : Timed) → t.last ≡ None → kept_by numbers result t ≡ t }
        ensures counts { (such : ℕ → Bool) (numbers : ℕ → ℤ) (t : Timed) → counts_by such numbers result t ≡ [] }
        ensures closed { IsClosed result }
        ensures waiting { result.waiting ≡ 0 }
    {
        let entries = Vec::new(alloc);
        Kept {
            entries,
            waiting: 0,
            pushed: None,
        }
    }

    // Cycles pass, and a number may be pushed.
    fn wait(&mut self, cost: u64, pushed: Option<u32>)
        requires room { self.old.waiting + cost < 2 ^ 64 }
        ensures waiting { self.new.waiting ≡ self.old.waiting + cost }
        ensures pushed { self.new.pushed ≡ pushed }
        ensures entries { self.new.entries ≡ self.old.entries }
    {
        self.waiting += cost;
        self.pushed = pushed;
    }

    // Keeps an entry of its own for the number that was pushed by the last step, if it pushed one.
    fn keep_pushed(&mut self) -> Result<(), Memory>
        ensures entries { OnOk result (self.new.entries.items ≡ self.old.entries.items ++ number_first self.old.waiting self.old.pushed) }
        ensures waiting { OnOk result (self.new.waiting ≡ still_waiting self.old.waiting self.old.pushed) }
        ensures fewer { self.new.waiting ≤ self.old.waiting }
    {
        let Some(place) = self.pushed else {
            return Ok(());
        };
        self.entries.push(Entry {
            cost: self.waiting,
            deed: Deed::Pushed(place),
        })?;
        self.waiting = 0;
        Ok(())
    }

    // Keeps an entry, with the cycles before it.
    fn keep(&mut self, cost: u64, deed: Deed) -> Result<(), Memory>
        requires room { self.old.waiting + cost < 2 ^ 64 }
        ensures entries { OnOk result (self.new.entries.items
            ≡ self.old.entries.items ++ record { cost = self.old.waiting + cost; deed = deed } ∷ []) }
        ensures waiting { OnOk result (self.new.waiting ≡ 0) }
        ensures pushed { OnOk result (self.new.pushed ≡ None) }
    {
        self.entries.push(Entry {
            cost: self.waiting + cost,
            deed,
        })?;
        self.waiting = 0;
        self.pushed = None;
        Ok(())
    }

    /// Takes in a step, by its cycles and what it does. Fails only for want of memory.
    pub fn put(&mut self, cost: u64, deed: Deed) -> Result<(), Memory>
        requires room { self.old.waiting + cost < 2 ^ 64 }
        requires closed { IsClosed self.old }
        ensures step { OnOk result ((numbers : ℕ → ℤ) (t : Timed) → t.last ≡ None →
            kept_by numbers self.new t
            ≡ after numbers (what_of deed) ((kept_by numbers self.old t).clock + cost) (kept_by numbers self.old t)) }
        ensures counts { OnOk result ((such : ℕ → Bool) (numbers : ℕ → ℤ) (t : Timed) → t.last ≡ None →
            counts_by such numbers self.new t
            ≡ counts_by such numbers self.old t ++ told_at such (what_of deed) ((kept_by numbers self.old t).clock + cost) (kept_by numbers self.old t)
            (kept_by numbers self.old t).opened) }
        ensures closed { OnOk result (IsClosed self.new) }
        ensures waiting { OnOk result (self.new.waiting ≤ self.old.waiting + cost) }
    {
        match deed {
            Deed::Nothing => {
                self.wait(cost, None);
                Ok(())
            }
            Deed::Pushed(place) => {
                self.wait(cost, Some(place));
                Ok(())
            }
            Deed::Assigned { .. } => {
                self.keep(cost, deed)?;
                Ok(())
            }
            Deed::Opens(_) => {
                self.keep_pushed()?;
                self.keep(cost, deed)?;
                Ok(())
            }
            Deed::Closes => {
                self.keep(cost, deed)?;
                Ok(())
            }
        }
    }

    // What the last step did, if it is not kept.
    fn last_deed(&self) -> Deed
        ensures { what_of result ≡ last_what self.now.pushed }
    {
        match self.pushed {
            Some(place) => Deed::Pushed(place),
            None => Deed::Nothing,
        }
    }

    /// The entries, with one at the end for the cycles after the last. Fails only for want of memory.
    pub fn done(mut self) -> Result<Vec<Entry>, Memory>
        ensures same { IfOk result (λ es. (numbers : ℕ → ℤ) (t : Timed) → t.last ≡ None →
            replay numbers (entries_of es.items) t ≡ kept_by numbers self t) }
        ensures counts { IfOk result (λ es. (such : ℕ → Bool) (numbers : ℕ → ℤ) (t : Timed) →
            counts_told such numbers (entries_of es.items) t ≡ counts_by such numbers self t) }
    {
        let deed = self.last_deed();
        self.keep(0, deed)?;
        let Kept { entries, .. } = self;
        Ok(entries)
    }
}
