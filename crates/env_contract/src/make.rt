//! What makes environments for runs.

ghost use Rattle.std.specs.Prelude.{◌≡◌, ◌<◌, List, IfOk};
ghost use Rattle.std.specs.List.{All};
ghost use Rattle.label_lattice.specs.Order.{Order};

use crate::env::MachineEnv;
use crate::flat::FlatEnv;
use crate::place::Touch;
use label_lattice::lattice::Lattice;
use std::alloc::Global;
use std::rc::Rc;
use text_base::pos::Memory;

/// Makes the environment that a lattice and a list of touches give.
pub trait MakeEnv<E: MachineEnv> {
    ghost use Rattle.env_contract.specs.declared.place.Touch.{Touch};

    // The environment that the maker gives of a lattice and touches, the earliest first.
    ghost made: { Self → Order → List Touch → E };

    /// The environment after the touches, the earliest first. It serves the lattice, whose labels those
    /// of the touches are, and may share it. Fails only for want of memory.
    fn make(&self, alloc: Global, lattice: &Rc<Lattice>, touches: &[Touch]) -> Result<E, Memory>
        requires { All (λ t. t.label.number < lattice.now.value.size) touches.now }
        ensures value { IfOk result (λ e. e ≡ made self.now lattice.now.value touches.now) }
        ensures serves { IfOk result (E.serves lattice.now.value) };
}

/// Makes flat environments, which no touch changes.
#[derive(Clone, Copy, Debug, PartialEq, Eq)]
pub struct MakeFlat;

impl MakeEnv<FlatEnv> for MakeFlat {
    ghost made = { λ maker order touches. record {} };

    fn make(
        &self,
        _alloc: Global,
        _lattice: &Rc<Lattice>,
        _touches: &[Touch],
    ) -> Result<FlatEnv, Memory> {
        Ok(FlatEnv::new())
    }
}
