//! Environments in which accesses cost what a look back into the history of touches says.

ghost use Rattle.std.specs.List.{All};
ghost use Rattle.std.specs.Prelude.{◌<◌, List};
ghost use Rattle.label_lattice.specs.Order.{Order};
ghost use Rattle.env_contract.specs.declared.place.Touch.{Touch};

use crate::part::{MakePart, PartEnv};
use crate::part2::{MakePart2, Part2Env};
use env_contract::env::MachineEnv;
use env_contract::flat::FlatEnv;
use env_contract::make::{MakeEnv, MakeFlat};

/// What the environments keep never shows: those that a maker makes do what histories alone do.
pub trait ByHistory<E: MachineEnv>: MakeEnv<E> {
    ghost use Rattle.env_contract.specs.Env.{Env};
    ghost use Rattle.env_contract.specs.Alike.{DoesAs};

    // What an access costs and what is held in the maker's environments, where nothing is kept but the history.
    ghost by_history: { Self → Order → Env (List Touch) };

    // An environment of the maker stands for the history.
    ghost stands: { Self → Order → E → List Touch → Type 0 };

    // Where it does, an access costs what the history says, the environment after it stands for the longer history,
    // and each part is what the history says is held.
    ghost does: { (maker : Self) (order : Order) → DoesAs E.env (by_history maker order) order.size (stands maker order) };

    // The environment that touches make stands for the history that they are.
    ghost starts: { (maker : Self) (order : Order) (touches : List Touch) → All (λ t. t.label.number < order.size) touches
        → stands maker order (Self.made maker order touches) touches };

    // Only an environment that serves the lattice stands for a history.
    ghost served: { (maker : Self) (order : Order) (e : E) (h : List Touch) → stands maker order e h → E.serves order e };
}

impl ByHistory<FlatEnv> for MakeFlat {
    ghost use Rattle.part_tlb.specs.Machine.{hardware_by_history};
    ghost use Rattle.part_tlb.specs.Named.{flat_machine};
    ghost use Rattle.part_tlb.specs.Alike.{no_level};

    ghost by_history = { λ maker. hardware_by_history flat_machine };

    ghost stands = { λ maker order e h. Unit {0} };

    ghost does = { λ maker. no_level };

    ghost starts = { λ maker order touches below. tt };

    ghost served = { λ maker order e h s. tt };
}

impl ByHistory<PartEnv> for MakePart {
    ghost use Rattle.part_tlb.specs.Machine.{hardware_by_history};
    ghost use Rattle.part_tlb.specs.Named.{part_machine};
    ghost use Rattle.part_tlb.specs.Structures.{Keeps};
    ghost use Rattle.part_tlb.specs.Envs.{part_structure};
    ghost use Rattle.part_tlb.specs.Alike.{one_level, one_start};

    ghost by_history = { λ maker. hardware_by_history part_machine };

    ghost stands = { λ maker. Keeps part_structure };

    ghost does = { λ maker. one_level };

    ghost starts = { λ maker. one_start };

    ghost served = { λ maker order e h s. s.made };
}

impl ByHistory<Part2Env> for MakePart2 {
    ghost use Rattle.part_tlb.specs.Machine.{hardware_by_history};
    ghost use Rattle.part_tlb.specs.Named.{part2_machine};
    ghost use Rattle.part_tlb.specs.Structures.{Keeps};
    ghost use Rattle.part_tlb.specs.Envs.{part2_structure};
    ghost use Rattle.part_tlb.specs.Alike.{two_levels, two_start};

    ghost by_history = { λ maker. hardware_by_history part2_machine };

    ghost stands = { λ maker. Keeps part2_structure };

    ghost does = { λ maker. two_levels };

    ghost starts = { λ maker. two_start };

    ghost served = { λ maker order e h s. s.made };
}
