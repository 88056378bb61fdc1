//! Sets of variables that left sides share.

ghost use Rattle.std.specs.Prelude.{◌≡◌, ◌<◌, ◌||◌, eqb, IfOk};
ghost use Rattle.label_infer.specs.Rows.{has_in};
ghost use Rattle.label_infer.specs.Sets.{has_of};

use crate::place::Place;
use crate::row::{MAX_NUMBERS, Row};
use std::alloc::{AllocError, Global};
use std::rc::Rc;

/// A set of variables. A row stands in memory once for all sets that were copied from one.
#[derive(Drop)]
pub(crate) enum VariableSet {
    Empty,
    One(Place),
    Many(Rc<Row>),
}

/// The set of the variables of a row.
fn of_row(alloc: Global, row: Row) -> Result<VariableSet, AllocError>
    ensures { IfOk result (λ s. has_of s ≡ has_in row.words.items) }
{
    Ok(VariableSet::Many(Rc::new(alloc, row)?))
}

/// The set of two variables.
fn two(alloc: Global, a: Place, b: Place) -> Result<VariableSet, AllocError>
    ensures { IfOk result (λ s. has_of s ≡ λ y. eqb a.number y || eqb b.number y) }
{
    if a.number == b.number {
        return Ok(VariableSet::One(a));
    }
    let mut row = Row::empty(alloc)?;
    row.insert(a.number);
    row.insert(b.number);
    of_row(alloc, row)
}

/// The variables of a row, and one more.
fn with_one(alloc: Global, row: &Rc<Row>, more: Place) -> Result<VariableSet, AllocError>
    ensures { IfOk result (λ s. has_of s ≡ λ y. has_in row.now.value.words.items y || eqb more.number y) }
{
    if row.has(more.number) {
        return Ok(VariableSet::Many(row.clone()?));
    }
    let mut all = row.copy(alloc)?;
    all.insert(more.number);
    of_row(alloc, all)
}

/// The variables of two rows.
fn merged(alloc: Global, a: &Rc<Row>, b: &Rc<Row>) -> Result<VariableSet, AllocError>
    ensures { IfOk result (λ s. has_of s ≡ λ y. has_in a.now.value.words.items y || has_in b.now.value.words.items y) }
{
    if a.includes(b) {
        return Ok(VariableSet::Many(a.clone()?));
    }
    if b.includes(a) {
        return Ok(VariableSet::Many(b.clone()?));
    }
    let mut all = a.copy(alloc)?;
    all.unite(b);
    of_row(alloc, all)
}

impl VariableSet {
    /// The same set; its row is shared.
    pub(crate) fn copy(&self) -> Result<VariableSet, AllocError>
        ensures { IfOk result (λ s. has_of s ≡ has_of self.now) }
    {
        match self {
            VariableSet::Empty => Ok(VariableSet::Empty),
            VariableSet::One(place) => Ok(VariableSet::One(*place)),
            VariableSet::Many(row) => Ok(VariableSet::Many(row.clone()?)),
        }
    }

    /// The variables of both.
    pub(crate) fn union(
        &self,
        alloc: Global,
        other: &VariableSet,
    ) -> Result<VariableSet, AllocError>
        ensures { IfOk result (λ s. has_of s ≡ λ y. has_of self.now y || has_of other.now y) }
    {
        match (self, other) {
            (VariableSet::Empty, _) => other.copy(),
            (_, VariableSet::Empty) => self.copy(),
            (VariableSet::One(a), VariableSet::One(b)) => two(alloc, *a, *b),
            (VariableSet::One(a), VariableSet::Many(b)) => with_one(alloc, b, *a),
            (VariableSet::Many(a), VariableSet::One(b)) => with_one(alloc, a, *b),
            (VariableSet::Many(a), VariableSet::Many(b)) => merged(alloc, a, b),
        }
    }

    /// Whether the set has a variable.
    pub(crate) fn has(&self, x: u32) -> bool
        requires { x < MAX_NUMBERS }
        ensures { result ≡ has_of self.now x }
    {
        match self {
            VariableSet::Empty => false,
            VariableSet::One(place) => place.number == x,
            VariableSet::Many(row) => row.has(x),
        }
    }

    /// Adds the variables of the set to a row.
    pub(crate) fn add_to(&self, row: &mut Row)
        ensures { has_in row.new.words.items ≡ λ y. has_in row.old.words.items y || has_of self.now y }
    {
        match self {
            VariableSet::Empty => {}
            VariableSet::One(place) => row.insert(place.number),
            VariableSet::Many(more) => row.unite(more),
        }
    }
}
