//! What is true of the best choices in every environment.

ghost use Rattle.history_bound.specs.Over.{history_made};
ghost use Rattle.start_tune.specs.Alike.{BestAreAlike};
ghost use Rattle.start_tune.specs.Enough.{OneCheapestFew};
ghost use Rattle.start_tune.specs.Runs.{OneBest};

use env_contract::env::MachineEnv;
use env_contract::make::MakeEnv;
use part_tlb::by_history::ByHistory;

/// A law: the best choices in the environments of a maker are those over histories.
pub fn best_are_the_same<E: MachineEnv, M: ByHistory<E>>()
    ensures { (maker : M) → BestAreAlike E.env (M.made maker) (M.by_history maker) history_made }
{}

/// A law: the best choices in the environments of a maker are one list, and none where a run is too long.
pub fn best_are_one<E: MachineEnv, M: MakeEnv<E>>()
    ensures { (maker : M) → OneBest E.env (M.made maker) }
{}

/// A law: of the mitigate with a mark one first prediction at most is the cheapest that tells at most so many things, and there is
/// none where no first prediction tells so little.
pub fn one_is_enough<E: MachineEnv, M: MakeEnv<E>>()
    ensures { (maker : M) → OneCheapestFew E.env (M.made maker) }
{}
