//! The environment without caches.

ghost use Rattle.std.specs.Prelude.{◌≡◌, ◌≤◌};
ghost use Rattle.label_lattice.specs.Order.{Order};

use crate::env::{LawfulEnv, MAX_PENALTY, MachineEnv};
use crate::place::{Kind, Place};
use label_lattice::label::Label;

/// The environment without a state, whose accesses have no penalty. It serves every lattice.
#[derive(Clone, Copy, Debug, PartialEq, Eq)]
pub struct FlatEnv;

impl FlatEnv {
    /// The flat environment.
    pub fn new() -> FlatEnv
        ensures { (order : Order) → ⟦<FlatEnv as MachineEnv>⟧.serves order result }
    {
        FlatEnv
    }
}

impl MachineEnv for FlatEnv {
    ghost use Rattle.env_contract.specs.Flat.{flat_env};

    ghost serves = { λ order e. Unit {0} };

    ghost env = { flat_env };

    fn access(&mut self, _kind: Kind, _address: u32, _er: Label, _ew: Label) -> u32
        ensures cost { result ≡ 0 }
        ensures next { self.new ≡ self.old }
        ensures small { result ≤ MAX_PENALTY }
        ensures serves { (order : Order)
            → ⟦<FlatEnv as MachineEnv>⟧.serves order self.old → ⟦<FlatEnv as MachineEnv>⟧.serves order self.new }
    {
        0
    }

    fn same(&self, _other: &Self, _place: Place, _label: Label) -> bool {
        true
    }
}

impl LawfulEnv for FlatEnv {
    ghost use Rattle.std.specs.Prelude.{refl};

    ghost lawful = { λ order good. record {
      keeps = λ k a er ew e s. tt;
      write_label = λ k a er ew e s q l apart. refl;
      read_label = λ k a er ew e e' s s' agree. refl;
      agreement = λ k a er ew h e e' s s' agree q l flows. refl;
    } };
}
