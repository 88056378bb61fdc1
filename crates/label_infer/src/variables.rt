//! The labels of the variables.

ghost use Rattle.std.specs.Prelude.{◌≡◌, ◌+◌, ◌<◌, ◌≤◌, ◌++◌, ◌∷◌, ◌||◌, ◌&&◌, not, false, eqb, max, [], ℕ, Bool, length, slice_index_or, slice_set, IfOk};
ghost use Rattle.label_lattice.specs.declared.label.Label.{Label as Written};
ghost use Rattle.label_lattice.specs.Lattice.{Flows};
ghost use Rattle.label_lattice.specs.Order.{lattice_of};
ghost use Rattle.timing_types.specs.Labelling.{label_at};
ghost use Rattle.label_infer.specs.LeftSideOf.{left_side_of};
ghost use Rattle.label_infer.specs.Constraints.{value, value_from};
ghost use Rattle.label_infer.specs.Holders.{Tell};
ghost use Rattle.label_infer.specs.Rows.{has_in, Meet};

use crate::left_side::LeftSide;
use crate::row::{MAX_NUMBERS, Row};
use crate::variable_set::VariableSet;
use label_lattice::label::Label;
use label_lattice::lattice::Lattice;
use std::alloc::{AllocError, Global};
use std::marker::Model;

/// How many rows are kept: one for each number that a label can have. That is a byte, so each label has its row.
const HOLDERS: usize = 256;

/// The labels of the variables, and for each label the set of the variables that have it: so a left side is
/// joined label by label, and not variable by variable.
#[derive(Drop)]
pub(crate) struct Variables {
    labels: Vec<Label>,
    /// One row for each number that a label can have.
    holders: Vec<Row>,
    /// From here on no label has a variable.
    room: usize,
}

impl Model for Variables {
    ghost use Rattle.std.specs.Prelude.{List};
    ghost use Rattle.label_lattice.specs.declared.label.Label.{Label as Written};

    ghost Value = { List Written };

    ghost view = { λ v. v.labels.items };

    ghost use Rattle.label_infer.specs.Holders.{IsKeptVariables};

    ghost invariant = { IsKeptVariables };
}

/// No variable goes with any label.
fn no_holders(alloc: Global) -> Result<Vec<Row>, AllocError>
    ensures rows { IfOk result (λ v. length v.items ≡ 256) }
    ensures told { IfOk result (λ v. Tell v.items (λ l y. false)) }
{
    let mut holders = Vec::with_capacity(alloc, HOLDERS)?;
    for _ in 0..HOLDERS {
        let row = Row::empty(alloc)?;
        holders.push(row)?;
    }
    Ok(holders)
}

/// One variable more goes with a label.
fn add_holder(holders: &mut [Row], label: Label, x: u32)
    requires rows { length holders.old ≡ 256 }
    requires small { x < MAX_NUMBERS }
    ensures rows { length holders.new ≡ 256 }
    ensures told { (p : ℕ → ℕ → Bool) → Tell holders.old p → Tell holders.new (λ l y. p l y || (eqb label.number l && eqb x y)) }
{
    let l = usize::from(label.number);
    holders[l].insert(x);
}

/// A variable no longer goes with a label.
fn remove_holder(holders: &mut [Row], label: Label, x: u32)
    requires rows { length holders.old ≡ 256 }
    requires small { x < MAX_NUMBERS }
    ensures rows { length holders.new ≡ 256 }
    ensures told { (p : ℕ → ℕ → Bool) → Tell holders.old p → Tell holders.new (λ l y. p l y && not (eqb label.number l && eqb x y)) }
{
    let l = usize::from(label.number);
    holders[l].remove(x);
}

/// Above a label, and not below what was so far.
fn room_for(room: usize, label: Label) -> usize
    requires { room ≤ 256 }
    ensures value { result ≡ max room (label.number + 1) }
    ensures more { room ≤ result }
    ensures above { label.number < result }
    ensures end { result ≤ 256 }
{
    room.max(usize::from(label.number) + 1)
}

/// A label, joined with another where a variable of the row is among those that have that.
fn with_holders(have: Label, label: Label, row: &Row, holders: &Row, order: &Lattice) -> Label
    ensures up { Flows (lattice_of order.now) have.number result.number }
    ensures met { Meet (has_in row.now.words.items) (has_in holders.now.words.items) → Flows (lattice_of order.now) label.number result.number }
    ensures least { (u : ℕ) → Flows (lattice_of order.now) have.number u
        → (Meet (has_in row.now.words.items) (has_in holders.now.words.items) → Flows (lattice_of order.now) label.number u)
        → Flows (lattice_of order.now) result.number u }
{
    order.laws();
    if order.flows(label, have) {
        return have;
    }
    if row.meets(holders) {
        return order.join(have, label);
    }
    have
}

impl Variables {
    /// No variables.
    pub(crate) fn new(alloc: Global) -> Result<Variables, AllocError>
        ensures { IfOk result (λ v. v ≡ []) }
    {
        let holders = no_holders(alloc)?;
        Ok(Variables {
            labels: Vec::new(alloc),
            holders,
            room: 0,
        })
    }

    /// One variable more, with this label.
    pub(crate) fn push(&mut self, label: Label) -> Result<(), AllocError>
        requires { length self.old < MAX_NUMBERS }
        ensures { IfOk result (λ _. self.new ≡ self.old ++ label ∷ []) }
    {
        let x = self.labels.len() as u32;
        self.labels.push(label)?;
        add_holder(&mut self.holders, label, x);
        self.room = room_for(self.room, label);
        Ok(())
    }

    /// The label of a variable.
    pub(crate) fn label(&self, x: u32) -> Label
        requires { x < length self.now }
        ensures { (d : Written) → result ≡ slice_index_or self.now x d }
    {
        self.labels[x as usize]
    }

    /// Sets the label of a variable.
    pub(crate) fn set(&mut self, x: u32, label: Label)
        requires { x < length self.old }
        ensures { self.new ≡ slice_set self.old x label }
    {
        remove_holder(&mut self.holders, self.labels[x as usize], x);
        add_holder(&mut self.holders, label, x);
        self.labels[x as usize] = label;
        self.room = room_for(self.room, label);
    }

    /// The value of a left side.
    pub(crate) fn value(&self, left: &LeftSide, order: &Lattice) -> Label
        ensures { result.number ≡ value (lattice_of order.now) (length self.now) (label_at order.now.bottom self.now) (left_side_of left.now) }
    {
        match &left.variables {
            VariableSet::Empty => self.without(left.base, order),
            VariableSet::One(place) => self.with_label(left.base, place.number, order),
            VariableSet::Many(row) => self.with_labels(left.base, row, order),
        }
    }

    /// A label alone.
    fn without(&self, base: Label, order: &Lattice) -> Label
        ensures { result.number ≡ value_from (lattice_of order.now) (label_at order.now.bottom self.now) base.number (λ y. false) (length self.now) }
    {
        order.laws();
        base
    }

    /// A label, joined with that of one variable.
    fn with_label(&self, base: Label, x: u32, order: &Lattice) -> Label
        ensures { result.number ≡ value_from (lattice_of order.now) (label_at order.now.bottom self.now) base.number (λ y. eqb x y) (length self.now) }
    {
        order.laws();
        if x as usize >= self.labels.len() {
            return base;
        }
        order.join(base, self.label(x))
    }

    /// A label, joined with those of the variables of a row.
    fn with_labels(&self, base: Label, row: &Row, order: &Lattice) -> Label
        ensures { result.number ≡ value_from (lattice_of order.now) (label_at order.now.bottom self.now) base.number
            (has_in row.now.words.items) (length self.now) }
    {
        order.laws();
        let mut have = base;
        for l in 0..self.room {
            have = with_holders(have, Label::new(l as u8), row, &self.holders[l], order);
        }
        have
    }

    /// The labels alone.
    pub(crate) fn into_labels(self) -> Vec<Label>
        ensures { result.items ≡ self }
    {
        self.labels
    }
}
