//! What makes environments of a machine.

ghost use Rattle.std.specs.Prelude.{◌≡◌, ◌<◌, IfOk};
ghost use Rattle.std.specs.List.{All};
ghost use Rattle.std.proofs.Props.{props};
ghost use Rattle.hardware.specs.Limits.{IsWithin};

use crate::machine::HardwareEnv;
use env_contract::make::MakeEnv;
use env_contract::place::Touch;
use label_lattice::lattice::Lattice;
use part_tlb::bank::Hardware;
use part_tlb::by_history::ByHistory;
use std::alloc::Global;
use std::rc::Rc;
use text_base::pos::Memory;

/// Makes environments of a machine, which is within the limits.
#[derive(Clone, Copy, Debug, PartialEq, Eq)]
pub struct MakeHardware {
    pub hardware: Hardware,
    pub ghost within: { IsWithin hardware } by { Prim.hlevel props },
}

impl MakeEnv<HardwareEnv> for MakeHardware {
    ghost use Rattle.hardware.specs.Envs.{empty_machine, machine_warmed};

    ghost made = { λ maker order touches. machine_warmed (empty_machine maker.hardware order) touches };

    fn make(
        &self,
        alloc: Global,
        lattice: &Rc<Lattice>,
        touches: &[Touch],
    ) -> Result<HardwareEnv, Memory> {
        HardwareEnv::new(alloc, lattice, self.hardware, touches)
    }
}

impl ByHistory<HardwareEnv> for MakeHardware {
    ghost use Rattle.part_tlb.specs.Machine.{hardware_by_history};
    ghost use Rattle.hardware.specs.Envs.{Keeps};
    ghost use Rattle.hardware.specs.Seated.{machine_does, keeps_warmed};

    ghost by_history = { λ maker. hardware_by_history maker.hardware };

    ghost stands = { λ maker. Keeps maker.hardware };

    ghost does = { λ maker. machine_does maker.hardware };

    ghost starts = { λ maker order touches below. keeps_warmed maker.hardware order maker.within.banks maker.within.cheap touches };

    ghost served = { λ maker order e h s. record { hardware = maker.hardware; made = s.made } };
}
