//! The environments of runs: those that `--env` names, and those of a machine that is described.

ghost use Rattle.std.specs.Prelude.{◌≡◌};
ghost use Rattle.part_tlb.specs.declared.bank.Hardware.{Hardware};
ghost use Rattle.part_tlb.specs.Machine.{hardware_by_history};

use env_contract::env::MachineEnv;
use env_contract::flat::FlatEnv;
pub use env_contract::make::MakeFlat;
use hardware::machine::HardwareEnv;
pub use hardware::make::MakeHardware;
use part_tlb::by_history::ByHistory;
pub use part_tlb::part::MakePart;
use part_tlb::part::PartEnv;
pub use part_tlb::part2::MakePart2;
use part_tlb::part2::Part2Env;
pub use tool_words::words::EnvName;

/// The environment of runs: one that has a name, or that of a machine.
#[derive(Clone, Copy)]
pub enum Environment {
    Named(EnvName),
    Described(MakeHardware),
}

/// What makes the environments of a machine.
pub trait MachineMaker<E: MachineEnv>: ByHistory<E> {
    // The machine.
    ghost machine: { Self → Hardware };

    // What the maker's environments do by a history is what the machine says.
    ghost means: { (maker : Self) → Self.by_history maker ≡ hardware_by_history (machine maker) };
}

impl MachineMaker<FlatEnv> for MakeFlat {
    ghost use Rattle.std.specs.Prelude.{refl};
    ghost use Rattle.part_tlb.specs.Named.{flat_machine};

    ghost machine = { λ maker. flat_machine };

    ghost means = { λ maker. refl };
}

impl MachineMaker<PartEnv> for MakePart {
    ghost use Rattle.std.specs.Prelude.{refl};
    ghost use Rattle.part_tlb.specs.Named.{part_machine};

    ghost machine = { λ maker. part_machine };

    ghost means = { λ maker. refl };
}

impl MachineMaker<Part2Env> for MakePart2 {
    ghost use Rattle.std.specs.Prelude.{refl};
    ghost use Rattle.part_tlb.specs.Named.{part2_machine};

    ghost machine = { λ maker. part2_machine };

    ghost means = { λ maker. refl };
}

impl MachineMaker<HardwareEnv> for MakeHardware {
    ghost use Rattle.std.specs.Prelude.{refl};

    ghost machine = { λ maker. maker.hardware };

    ghost means = { λ maker. refl };
}

/// What an expression answers for the maker of the environment that a name means: `in_named!(name, maker => with(maker))`.
#[macro_export]
macro_rules! in_named {
    ($name:expr, $maker:ident => $with:expr) => {
        match $name {
            $crate::envs::EnvName::Flat => {
                let $maker = &$crate::envs::MakeFlat;
                $with
            }
            $crate::envs::EnvName::Part => {
                let $maker = &$crate::envs::MakePart;
                $with
            }
            $crate::envs::EnvName::Part2 => {
                let $maker = &$crate::envs::MakePart2;
                $with
            }
        }
    };
}

/// The same for the maker of any environment: `in_env!(environment, maker => with(maker))`.
#[macro_export]
macro_rules! in_env {
    ($environment:expr, $maker:ident => $with:expr) => {
        match $environment {
            $crate::envs::Environment::Named($crate::envs::EnvName::Flat) => {
                let $maker = &$crate::envs::MakeFlat;
                $with
            }
            $crate::envs::Environment::Named($crate::envs::EnvName::Part) => {
                let $maker = &$crate::envs::MakePart;
                $with
            }
            $crate::envs::Environment::Named($crate::envs::EnvName::Part2) => {
                let $maker = &$crate::envs::MakePart2;
                $with
            }
            $crate::envs::Environment::Described(described) => {
                let $maker = &described;
                $with
            }
        }
    };
}
