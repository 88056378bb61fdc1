ghost use Rattle.std.specs.Prelude.{◌≡◌, ◌<◌, ◌≤◌, length, slice_get, Some, MatchBool};
ghost use Rattle.label_code.specs.Shaped.{Code, IsShaped};

use crate::code::Instr;
use label_lattice::label::MAX_LABELS;
use label_lattice::lattice::Lattice;
use std::marker::Model;
use std::rc::Rc;

/// The most instructions that an image may have, its HALT included.
pub const MAX_INSTRUCTIONS: u32 = 200_000;

/// Whether there are more instructions than an image may have.
pub fn is_too_long(count: u64) -> bool
    ensures { MatchBool result (200000 < count) (count ≤ 200000) }
{
    count > u64::from(MAX_INSTRUCTIONS)
}

/// Code whose depths of operands and of open mitigations are known at each place: neither goes below zero,
/// targets, variables and labels are in range, and HALT is last and stands nowhere else. It has at most
/// `MAX_INSTRUCTIONS` instructions and at most 3,072 variables.
#[derive(Drop)]
pub struct Image {
    instrs: Vec<Instr>,
    variables: u32,
    lattice: Rc<Lattice>,
    operands: u32,
    nesting: u32,
}

impl Model for Image {
    ghost use Rattle.label_code.specs.Shaped.{Code, IsShaped};

    ghost Value = { Code };

    ghost view = { λ i. record { instrs = i.instrs.items; variables = i.variables; order = i.lattice.value; operands = i.operands; nesting = i.nesting } };

    ghost invariant = { λ i. IsShaped (record {
      instrs = i.instrs.items;
      variables = i.variables;
      order = i.lattice.value;
      operands = i.operands;
      nesting = i.nesting;
    }) };
}

impl Image {
    /// The image of these instructions, for so many variables, a lattice, and the greatest depths of operands
    /// and of open mitigations. Takes no memory.
    pub fn of(
        instrs: Vec<Instr>,
        variables: u32,
        lattice: Rc<Lattice>,
        operands: u32,
        nesting: u32,
    ) -> Self
        requires { IsShaped (record { instrs = instrs.items; variables = variables; order = lattice.value; operands = operands; nesting = nesting }) }
        ensures { result ≡ record { instrs = instrs.items; variables = variables; order = lattice.value; operands = operands; nesting = nesting } }
    {
        Image {
            instrs,
            variables,
            lattice,
            operands,
            nesting,
        }
    }

    /// Says nothing at run time: what is true of every image.
    pub fn laws(&self)
        ensures shaped { IsShaped self.now }
        ensures labels { self.now.order.size ≤ MAX_LABELS }
    {
        self.lattice.laws();
    }

    /// How many instructions there are.
    pub fn len(&self) -> u32
        ensures { result ≡ length self.now.instrs }
    {
        self.instrs.len() as u32
    }

    /// The instruction at a place, counted from 0.
    pub fn at(&self, place: u32) -> Instr
        requires { place < length self.now.instrs }
        ensures { slice_get self.now.instrs place ≡ Some result }
    {
        self.instrs[place as usize]
    }

    /// How many variables the code may name.
    pub fn variables(&self) -> u32
        ensures { result ≡ self.now.variables }
    {
        self.variables
    }

    /// The lattice of the code's labels.
    pub fn lattice(&self) -> &Lattice
        ensures { result.now ≡ self.now.order }
    {
        &self.lattice
    }

    /// The same, to be shared.
    pub fn shared_lattice(&self) -> &Rc<Lattice>
        ensures { result.now.value ≡ self.now.order }
    {
        &self.lattice
    }

    /// The greatest depth of operands.
    pub fn operands(&self) -> u32
        ensures { result ≡ self.now.operands }
    {
        self.operands
    }

    /// The greatest depth of open mitigations.
    pub fn nesting(&self) -> u32
        ensures { result ≡ self.now.nesting }
    {
        self.nesting
    }
}
