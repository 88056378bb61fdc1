//! Lattices of labels.

ghost use Rattle.std.specs.Prelude.{◌≡◌, ◌<◌, ◌≤◌, ◌^◌, ℕ, List, length, All, MatchBool, MatchOption, IfOk, IfErr};
ghost use Rattle.label_lattice.specs.Names.{IsName};
ghost use Rattle.label_lattice.specs.Lattice.{IsLattice};
ghost use Rattle.label_lattice.specs.Order.{Order, lattice_of, name_of, AllDiffer, IsOrder, count_not_below, most_labels};
ghost use Rattle.label_lattice.specs.Chains.{Chain, AreBelow, IsFault, IsBuilt};
ghost use Rattle.label_lattice.specs.Room.{filled};
ghost use Rattle.label_lattice.specs.declared.label.Label.{Label};

use crate::bounds::{joins, lowest};
use crate::checks::{Check, first_pair};
use crate::closure::{CELLS, ROOM, closure};
use crate::fault::LatticeFault;
use crate::label::{Label, MAX_LABELS};
use crate::name::Name;
use std::marker::Model;

/// A finite lattice of labels: their names, a closed table of what flows, and a table of joins.
#[derive(Clone, Copy)]
pub struct Lattice {
    size: u32,
    names: [Name; ROOM],
    flows: [bool; CELLS],
    joins: [u8; CELLS],
    bottom: u8,
}

impl Model for Lattice {
    ghost use Rattle.label_lattice.specs.Order.{Order};

    ghost Value = { Order };

    ghost use Rattle.label_lattice.specs.Kept.{order_of, IsKept, inside_of, inside_again};

    ghost view = { order_of };

    ghost invariant = { IsKept };

    ghost inverse = { inside_of };

    ghost inverse_ok = { inside_again };
}

// The names at the front, and the first of them up to the room's end.
fn with_room(names: &[Name]) -> [Name; ROOM]
    requires some { 0 < length names.now }
    requires few { length names.now ≤ MAX_LABELS }
    ensures { result ≡ filled names.now (length names.now) }
{
    let mut room = [names[0]; ROOM];
    room[..names.len()].copy_from_slice(names);
    room
}

// Each of these is a name, as every `Name` is.
fn are_names(names: &[Name])
    ensures { All IsName names.now }
{
    for name in names {
        name.laws();
    }
}

// Whether there are more labels than a lattice may have.
fn are_too_many(size: u32) -> bool
    ensures { MatchBool result (most_labels < size) (size ≤ most_labels) }
{
    size > MAX_LABELS
}

impl Lattice {
    /// The lattice of labels with these names, of which a first one flows to a second one where a chain of
    /// zero or more of the pairs leads from the first to the second.
    ///
    /// There is a name, there are at most 2^31 names, the names differ, and the pairs are of labels below the
    /// number of names. Takes no memory.
    ///
    /// # Errors
    /// `TooMany` above `MAX_LABELS` names, else `Cycle`, `NoBottom` or `NoJoin`, where two labels are in the
    /// way: the first check that fails, with the first two labels that it refuses.
    pub fn build(names: &[Name], pairs: &[(Label, Label)]) -> Result<Lattice, LatticeFault>
        requires some { 0 < length names.now }
        requires many { length names.now ≤ 2 ^ 31 }
        requires differ { AllDiffer names.now }
        requires pairs { AreBelow (length names.now) pairs.now }
        ensures built { IfOk result (IsBuilt names.now pairs.now) }
        ensures fault { IfErr result (IsFault (length names.now) (Chain pairs.now)) }
    {
        let size = names.len() as u32;
        if are_too_many(size) {
            return Err(LatticeFault::TooMany(size));
        }
        are_names(names);
        let flows = closure(pairs);
        if let Some((a, b)) = first_pair(Check::Cycle, &flows, size) {
            return Err(LatticeFault::Cycle(a, b));
        }
        if let Some((a, b)) = first_pair(Check::Bottom, &flows, size) {
            return Err(LatticeFault::NoBottom(a, b));
        }
        if let Some((a, b)) = first_pair(Check::Join, &flows, size) {
            return Err(LatticeFault::NoJoin(a, b));
        }
        let Some(bottom) = lowest(&flows, size) else {
            unreachable!()
        };
        Ok(Lattice {
            size,
            names: with_room(names),
            flows,
            joins: joins(&flows, size),
            bottom: bottom as u8,
        })
    }

    /// Says nothing at run time: what is true of every lattice.
    pub fn laws(&self)
        ensures order { IsOrder self.now }
        ensures lattice { IsLattice (lattice_of self.now) }
    {
        let _ = &self.size;
    }

    /// How many labels there are.
    pub fn size(&self) -> u32
        ensures value { result ≡ self.now.size }
        ensures some { 0 < result }
        ensures within { result ≤ MAX_LABELS }
    {
        self.size
    }

    /// The name of a label, whose number is below the size.
    pub fn name(&self, a: Label) -> Name
        requires { a.number < self.now.size }
        ensures { result ≡ name_of self.now a.number }
    {
        self.names[usize::from(a.number)]
    }

    /// The label with a name, or `None` where no label has it.
    pub fn find(&self, name: &Name) -> Option<Label>
        ensures { MatchOption result ((k : ℕ) → k < self.now.size → name_of self.now k ≡ name.now → ⊥)
            (λ a. (a.number < self.now.size) × (name_of self.now a.number ≡ name.now)) }
    {
        for number in 0..self.size {
            let label = Label::new(number as u8);
            if self.name(label) == *name {
                return Some(label);
            }
        }
        None
    }

    /// Whether a label flows to another. A number that is no label counts as a label above all.
    pub fn flows(&self, a: Label, b: Label) -> bool
        ensures { result ≡ (lattice_of self.now).flows a.number b.number }
    {
        let (a, b) = (a.number, b.number);
        if u32::from(a) < self.size && u32::from(b) < self.size {
            self.flows[usize::from(a) * ROOM + usize::from(b)]
        } else {
            a <= b
        }
    }

    /// The least label to which both flow.
    pub fn join(&self, a: Label, b: Label) -> Label
        ensures value { result.number ≡ (lattice_of self.now).join a.number b.number }
        ensures within { a.number < self.now.size → b.number < self.now.size → result.number < self.now.size }
    {
        let (a, b) = (a.number, b.number);
        if u32::from(a) < self.size && u32::from(b) < self.size {
            Label::new(self.joins[usize::from(a) * ROOM + usize::from(b)])
        } else {
            Label::new(a.max(b))
        }
    }

    /// The label that flows to all.
    pub fn bottom(&self) -> Label
        ensures value { result.number ≡ self.now.bottom }
        ensures within { result.number < self.now.size }
    {
        Label::new(self.bottom)
    }

    /// How many labels do not flow to a label.
    pub fn not_below(&self, a: Label) -> u32
        ensures value { result ≡ count_not_below (lattice_of self.now) a.number self.now.size }
        ensures within { result ≤ self.now.size }
    {
        let mut count = 0;
        for number in 0..self.size {
            if !self.flows(Label::new(number as u8), a) {
                count += 1;
            }
        }
        count
    }
}

/// Says nothing at run time: two lattices that are built from the same names and pairs are one and the same.
pub fn one_order()
    ensures { (names : List (List ℕ)) (pairs : List (Label × Label)) (o u : Order) → IsBuilt names pairs o → IsBuilt names pairs u → o ≡ u }
{}
