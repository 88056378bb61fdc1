//! Who is told how far runs have come. What is told plays no part in any answer: a watch is shared, so nothing that a
//! contract speaks of changes through it, and no contract speaks of it.
#![tactic(auto)]

#[cfg(test)]
mod tests;

/// The number of a run of a list, from 1, and how many the list has.
#[derive(Clone, Copy, Debug, PartialEq, Eq)]
pub struct RunNumber {
    pub run: usize,
    pub runs: usize,
}

/// Who is told how far runs have come.
pub trait Watch {
    /// Takes up how far a run has come: its clock and its limit, in cycles. Told seldom enough to cost nothing beside
    /// the steps of the run, and of a run that is short only once.
    fn tell(&self, number: RunNumber, clock: u64, limit: u64);

    /// Takes away what is shown, before something else is written.
    fn clear(&self);
}

impl<W: Watch> Watch for &W {
    fn tell(&self, number: RunNumber, clock: u64, limit: u64) {
        (**self).tell(number, clock, limit);
    }

    fn clear(&self) {
        (**self).clear();
    }
}

/// Nobody, who shows nothing.
#[derive(Clone, Copy, Debug, Drop)]
pub struct Nobody;

impl Watch for Nobody {
    fn tell(&self, _number: RunNumber, _clock: u64, _limit: u64) {}

    fn clear(&self) {}
}

/// One run of a list, and who watches it.
#[derive(Clone, Copy)]
pub struct Watched<'a, W: Watch> {
    watch: &'a W,
    number: RunNumber,
}

impl<'a, W: Watch> Watched<'a, W> {
    /// The run of that number, under a watch.
    pub fn new(watch: &'a W, number: RunNumber) -> Watched<'a, W> {
        Watched { watch, number }
    }

    /// Tells how far the run has come: its clock and its limit, in cycles.
    pub fn tell(&self, clock: u64, limit: u64) {
        self.watch.tell(self.number, clock, limit);
    }
}
