//! Spaces of starts, and their starts by numbers.

ghost use Rattle.std.specs.Prelude.{◌≡◌, ◌<◌, ◌≤◌, ◌^◌, ◌+ℤ◌, pos, int_le, All, IfOk, MatchOption, length};
ghost use Rattle.start_space.specs.Space.{size, nth, within, IsChoice};
ghost use Rattle.space_starts.specs.Space.{last_of, many, value_in, lists, seen, counts, size_of, chosen, start_at, IsInterval, IsValues};
ghost use Rattle.space_starts.specs.Chooser.{IsChooser};

use env_contract::place::Touch;
use start_space::space::{MAX_SIZE, choose, size};
use std::alloc::{AllocError, Global};

/// Whole numbers in a row: the first, and how many more follow it.
#[derive(Clone, Copy, Debug, PartialEq, Eq)]
pub struct Interval {
    pub first: i64,
    pub more: u64,
}

impl Interval {
    // Whether its last number is at least this one.
    pub(crate) fn reaches(self, number: i64) -> bool
        ensures { result ≡ int_le number (last_of self) }
    {
        i128::from(number) <= i128::from(self.first) + i128::from(self.more)
    }
}

/// A space of starts: for each variable, each element of an array counted, the values that it may have, as intervals from
/// left to right, and the touches that warm the environment of each start, the earliest first.
#[derive(Drop)]
pub struct Space {
    pub memory: Vec<Vec<Interval>>,
    pub touches: Vec<Touch>,
}

// How many numbers some intervals have; `None` where there are more than 2^40.
fn many(intervals: &[Interval]) -> Option<u64>
    ensures { result ≡ within (2 ^ 40) (many intervals.now) }
{
    let mut many = 0;
    for interval in intervals {
        if interval.more >= MAX_SIZE - many {
            return None;
        }
        many += interval.more + 1;
    }
    Some(many)
}

// How many values each of some variables has; `None` where one has more than 2^40, so that there are more choices.
fn counts(alloc: Global, memory: &[Vec<Interval>]) -> Result<Option<Vec<u64>>, AllocError>
    requires { All IsValues (lists memory.now) }
    ensures { IfOk result (λ o. MatchOption o (2 ^ 40 < size (counts (lists memory.now))) (λ v. v.items ≡ counts (lists memory.now))) }
{
    let mut counts = Vec::with_capacity(alloc, memory.len())?;
    for intervals in memory {
        let Some(many) = many(intervals) else {
            return Ok(None);
        };
        counts.push(many)?;
    }
    Ok(Some(counts))
}

// The number of an interval at a place, counted from 0.
fn value_at(interval: Interval, place: u64) -> i64
    requires is { IsInterval interval }
    requires place { place ≤ interval.more }
    ensures { result ≡ interval.first +ℤ pos place }
{
    (i128::from(interval.first) + i128::from(place)) as i64
}

// The value with a number, from 0, in some intervals.
fn value_in(intervals: &[Interval], number: u64) -> i64
    requires are { All IsInterval intervals.now }
    requires number { number < many intervals.now }
    ensures { result ≡ value_in intervals.now number }
{
    let mut left = number;
    for interval in intervals {
        if left <= interval.more {
            return value_at(*interval, left);
        }
        left = left - interval.more - 1;
    }
    0
}

// The values that a choice takes.
fn chosen(alloc: Global, memory: &[Vec<Interval>], choice: &[u64]) -> Result<Vec<i64>, AllocError>
    requires are { All IsValues (lists memory.now) }
    requires choice { IsChoice (counts (lists memory.now)) choice.now }
    ensures { IfOk result (λ v. v.items ≡ chosen (lists memory.now) choice.now) }
{
    let mut values = Vec::with_capacity(alloc, memory.len())?;
    for (i, intervals) in memory.iter().enumerate() {
        values.push(value_in(intervals, choice[i]))?;
    }
    Ok(values)
}

// The values that the choice with a number takes, from how many values each variable has and with room for the choice.
fn memory_at(
    alloc: Global,
    memory: &[Vec<Interval>],
    ranges: &[u64],
    number: u64,
    choice: &mut [u64],
) -> Result<Vec<i64>, AllocError>
    requires are { All IsValues (lists memory.now) }
    requires ranges { ranges.now ≡ counts (lists memory.now) }
    requires room { length choice.old ≡ length ranges.now }
    requires few { size ranges.now ≤ 2 ^ 40 }
    requires number { number < size ranges.now }
    ensures { IfOk result (λ m. m.items ≡ chosen (lists memory.now) (nth (counts (lists memory.now)) number)) }
{
    choose(ranges, number, choice);
    chosen(alloc, memory, choice)
}

impl Space {
    /// How many starts there are, at most 2^40; `None` where there are more.
    ///
    /// # Errors
    /// `AllocError` where memory runs out.
    pub fn size(&self, alloc: Global) -> Result<Option<u64>, AllocError>
        requires { All IsValues (lists self.now.memory.items) }
        ensures { IfOk result (λ n. n ≡ within (2 ^ 40) (size_of (seen self.now))) }
    {
        let Some(counts) = counts(alloc, self.memory.as_slice())? else {
            return Ok(None);
        };
        Ok(size(&counts))
    }
}

/// What is worked out of a space once, and room for one choice of its values.
#[derive(Drop)]
pub struct Chooser {
    counts: Vec<u64>,
    choice: Vec<u64>,
}

impl Chooser {
    /// For a space.
    ///
    /// # Errors
    /// `AllocError` where memory runs out.
    pub fn new(alloc: Global, space: &Space) -> Result<Chooser, AllocError>
        requires values { All IsValues (lists space.now.memory.items) }
        requires few { size_of (seen space.now) ≤ 2 ^ 40 }
        ensures { IfOk result (IsChooser (seen space.now)) }
    {
        let counts = match counts(alloc, space.memory.as_slice())? {
            Some(counts) => counts,
            None => Vec::new(alloc),
        };
        let choice = vec![in alloc; 0; counts.len()]?;
        Ok(Chooser { counts, choice })
    }

    /// The values of the variables in the start of the space with a number, from 0.
    ///
    /// # Errors
    /// `AllocError` where memory runs out.
    pub fn memory(
        &mut self,
        alloc: Global,
        space: &Space,
        number: u64,
    ) -> Result<Vec<i64>, AllocError>
        requires chooser { IsChooser (seen space.now) self.old }
        requires values { All IsValues (lists space.now.memory.items) }
        requires few { size_of (seen space.now) ≤ 2 ^ 40 }
        requires number { number < size_of (seen space.now) }
        ensures chooser { IsChooser (seen space.now) self.new }
        ensures memory { IfOk result (λ m. m.items ≡ (start_at (seen space.now) number).memory) }
    {
        let (memory, choice) = (space.memory.as_slice(), &mut self.choice);
        memory_at(alloc, memory, &self.counts, number, choice)
    }
}
