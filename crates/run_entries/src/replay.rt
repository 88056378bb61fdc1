//! A run under other first predictions.

ghost use Rattle.std.specs.Prelude.{◌≡◌, ◌<◌, ◌≤◌, ◌+◌, ◌++◌, ◌∷◌, [], ℕ, ℤ, List, Bool, cond, IfOk, OnOk, MatchOption};
ghost use Rattle.first_replay.specs.Replay.{Nothing, Pushed, Assigned, Opens, Closes, estimate_by};
ghost use Rattle.run_entries.specs.Entries.{what_of, entries_of};
ghost use Rattle.run_entries.specs.Told.{is_marked, replayed, at_start};
ghost use Rattle.run_entries.specs.Views.{timed_of, numbers_of, IsReplay, Went, Goes};

use crate::entry::{Begun, Deed, Entry, Opening};
use crate::event::Event;
use doubling_schedule::misses::MissTable;
use std::alloc::Global;
use text_base::pos::Memory;

/// What is so after some entries.
#[derive(Drop)]
pub struct Replay {
    /// The clock, in cycles.
    pub clock: u64,
    /// The miss count of each level.
    pub misses: MissTable,
    /// The open mitigations; the last is the first to end.
    pub opened: Vec<Begun>,
    /// The events so far.
    pub log: Vec<Event>,
    /// The miss count of each mitigation that has ended, in this order.
    pub counts: Vec<u32>,
    /// The same of those that are to be shown.
    pub shown: Vec<u32>,
    /// At which place the last entry pushed a number, if it did.
    pub pushed: Option<u32>,
}

/// The numbers that are pushed, by their places, with another one at one place.
#[derive(Clone, Copy)]
pub struct Numbers<'a> {
    /// The numbers that the code has; past the list's end it has 0.
    pub written: &'a [i64],
    /// The place of the other one.
    pub place: u32,
    /// The other one.
    pub number: i64,
}

impl Numbers<'_> {
    // The number that is pushed at a place.
    fn at(&self, place: u32) -> i64
        ensures { result ≡ numbers_of self.now place }
    {
        if place == self.place {
            return self.number;
        }
        match self.written.get(place as usize) {
            Some(number) => *number,
            None => 0,
        }
    }

    // The estimate of a mitigation that begins: the number of the place where it was pushed, if it was.
    fn estimate(&self, written: i64, pushed: Option<u32>) -> i64
        ensures { result ≡ estimate_by (numbers_of self.now) written pushed }
    {
        match pushed {
            Some(place) => self.at(place),
            None => written,
        }
    }
}

// The clock after so many cycles more, if it is not above the limit.
fn pass(clock: u64, cycles: u64, limit: u64) -> Option<u64>
    ensures { MatchOption result (limit < clock + cycles) (λ end. (end ≡ clock + cycles) × (end ≤ limit)) }
{
    match clock.checked_add(cycles) {
        Some(end) if end <= limit => Some(end),
        _ => None,
    }
}

// Whether a list says so of a mark; past its end it says of none.
fn is_marked(marked: &[bool], mark: u32) -> bool
    ensures { result ≡ is_marked marked.now mark }
{
    match marked.get(mark as usize) {
        Some(yes) => *yes,
        None => false,
    }
}

// Appends a count, if it is wanted.
fn put_if(counts: &mut Vec<u32>, wanted: bool, count: u32) -> Result<(), Memory>
    ensures { OnOk result (counts.new.items ≡ counts.old.items ++ cond wanted (count ∷ []) []) }
{
    if wanted {
        counts.push(count)?;
    }
    Ok(())
}

impl Replay {
    // At the beginning of a run.
    fn new(alloc: Global) -> Replay
        ensures timed { timed_of result ≡ at_start }
        ensures counts { result.counts.items ≡ [] }
        ensures shown { result.shown.items ≡ [] }
        ensures clock { result.clock ≡ 0 }
    {
        let misses = MissTable::new();
        let opened = Vec::new(alloc);
        let log = Vec::new(alloc);
        let counts = Vec::new(alloc);
        let shown = Vec::new(alloc);
        Replay {
            clock: 0,
            misses,
            opened,
            log,
            counts,
            shown,
            pushed: None,
        }
    }

    // Time passes, and a number may be pushed.
    fn wait(&mut self, clock: u64, pushed: Option<u32>)
        ensures nothing { (numbers : ℕ → ℤ) (marked : List Bool) (limit : ℕ) → pushed ≡ None → clock ≤ limit
            → Went numbers marked Nothing clock limit self.old self.new }
        ensures pushed { (numbers : ℕ → ℤ) (marked : List Bool) (limit place : ℕ) → pushed ≡ Some place → clock ≤ limit
            → Went numbers marked (Pushed place) clock limit self.old self.new }
    {
        self.clock = clock;
        self.pushed = pushed;
    }

    // A variable gets a value.
    fn assign(&mut self, variable: u32, value: i64, clock: u64) -> Result<(), Memory>
        ensures { OnOk result ((numbers : ℕ → ℤ) (marked : List Bool) (limit : ℕ) → clock ≤ limit
            → Went numbers marked (Assigned variable value) clock limit self.old self.new) }
    {
        self.log.push(Event::Wrote {
            variable,
            value,
            cycle: clock,
        })?;
        self.clock = clock;
        self.pushed = None;
        Ok(())
    }

    // A mitigation begins, with this estimate.
    fn open(&mut self, opening: Opening, estimate: i64, clock: u64) -> Result<(), Memory>
        ensures { OnOk result ((limit : ℕ) → clock ≤ limit
            → (numbers : ℕ → ℤ) (marked : List Bool) → estimate_by numbers opening.estimate self.old.pushed ≡ estimate
            → Went numbers marked (Opens opening.estimate opening.level.number opening.mark) clock limit self.old self.new) }
    {
        self.opened.push(Begun {
            estimate,
            level: opening.level,
            mark: opening.mark,
            since: clock,
        })?;
        self.log.push(Event::Began {
            mark: opening.mark,
            cycle: clock,
        })?;
        self.clock = clock;
        self.pushed = None;
        Ok(())
    }

    // The mitigation that began last ends, if that is within the limit.
    fn close(&mut self, marked: &[bool], clock: u64, limit: u64) -> Result<bool, Memory>
        requires within { clock ≤ limit }
        ensures { IfOk result (λ went. (numbers : ℕ → ℤ) → Goes went numbers marked.now Closes clock limit self.old self.new) }
    {
        let Some(open) = self.opened.pop() else {
            self.clock = clock;
            self.pushed = None;
            return Ok(true);
        };
        let elapsed = clock.saturating_sub(open.since);
        let prediction = self.misses.settle(open.estimate, open.level, elapsed);
        let end = open.since as u128 + prediction;
        if end > limit as u128 {
            return Ok(false);
        }
        let cycle = end as u64;
        self.log.push(Event::Ended {
            mark: open.mark,
            cycle,
        })?;
        let count = self.misses.misses(open.level);
        self.counts.push(count)?;
        put_if(&mut self.shown, is_marked(marked, open.mark), count)?;
        self.clock = cycle;
        self.pushed = None;
        Ok(true)
    }

    // What an entry does, if that is within the limit.
    fn step(
        &mut self,
        entry: &Entry,
        numbers: &Numbers<'_>,
        marked: &[bool],
        limit: u64,
    ) -> Result<bool, Memory>
        ensures { IfOk result (λ went. Goes went (numbers_of numbers.now) marked.now (what_of entry.now.deed)
            (self.old.clock + entry.now.cost) limit self.old self.new) }
    {
        let Some(clock) = pass(self.clock, entry.cost, limit) else {
            return Ok(false);
        };
        match entry.deed {
            Deed::Nothing => {
                self.wait(clock, None);
                Ok(true)
            }
            Deed::Pushed(place) => {
                self.wait(clock, Some(place));
                Ok(true)
            }
            Deed::Assigned { variable, value } => {
                self.assign(variable, value, clock)?;
                Ok(true)
            }
            Deed::Opens(opening) => {
                let estimate = numbers.estimate(opening.estimate, self.pushed);
                self.open(opening, estimate, clock)?;
                Ok(true)
            }
            Deed::Closes => self.close(marked, clock, limit),
        }
    }

    /// The run with these entries where these numbers are pushed, if it ends within the limit; of the mitigations with the
    /// marks of a list the miss counts are shown. Fails only for want of memory.
    pub fn of(
        alloc: Global,
        entries: &[Entry],
        numbers: &Numbers<'_>,
        marked: &[bool],
        limit: u64,
    ) -> Result<Option<Replay>, Memory>
        ensures { IfOk result (λ end. MatchOption end (limit < (replayed (numbers_of numbers.now) (entries_of entries.now)).clock)
            (λ run. IsReplay (numbers_of numbers.now) marked.now (entries_of entries.now) limit run)) }
    {
        let mut run = Replay::new(alloc);
        for entry in entries {
            let went = run.step(entry, numbers, marked, limit)?;
            if !went {
                return Ok(None);
            }
        }
        Ok(Some(run))
    }
}
