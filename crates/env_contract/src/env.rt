//! The contract of an environment.

ghost use Rattle.std.specs.Prelude.{◌≡◌, ◌<◌, ◌≤◌, ◌↔◌, ℕ, List, IsTrue};
ghost use Rattle.label_lattice.specs.Lattice.{IsLattice};
ghost use Rattle.label_lattice.specs.Order.{Order, lattice_of};
ghost use Rattle.env_contract.specs.Laws.{IsLawful};

use crate::place::{Kind, Place};
use label_lattice::label::Label;

/// The most cycles that an access costs beyond its instruction.
pub const MAX_PENALTY: u32 = 1000;

/// Says nothing at run time: what the clause on an access allows is what the constant says.
pub fn limit_is()
    ensures { MAX_PENALTY ≡ 1000 }
{}

/// What an access costs beyond its instruction, and what it changes.
pub trait MachineEnv {
    ghost use Rattle.env_contract.specs.Env.{Env};

    // The environment is made for the lattice.
    ghost serves: { Order → Self → Type 0 };

    // What an access costs and leaves, and what is held at a place for a label.
    ghost env: { Env Self };

    /// Reads at a byte address under the labels `[er, ew]`, and answers the penalty in cycles, at most
    /// `MAX_PENALTY`. The state may change. Takes no memory.
    fn access(&mut self, kind: Kind, address: u32, er: Label, ew: Label) -> u32
        requires { (order : Order)
            × (serves order self.old × (er.number < order.size) × (ew.number < order.size)) }
        ensures cost { result ≡ env.cost_of kind address er.number ew.number self.old }
        ensures next { self.new ≡ env.next_of kind address er.number ew.number self.old }
        ensures small { result ≤ 1000 }
        ensures serves { (order : Order) → serves order self.old → serves order self.new };

    /// Whether both hold the same at the place for the label. Takes no memory.
    fn same(&self, other: &Self, place: Place, label: Label) -> bool
        requires { (order : Order)
            × (serves order self.now × serves order other.now × (label.number < order.size)) }
        ensures { IsTrue result
            ↔ (env.part place label.number self.now ≡ env.part place label.number other.now) };
}

/// An environment that keeps the three laws, as one with a partition for each label does.
pub trait LawfulEnv: MachineEnv {
    ghost lawful: { (order : Order) → IsLattice (lattice_of order)
        → IsLawful Self.env (lattice_of order) (Self.serves order) };
}
