//! What a view is worth, as contracts of functions that do nothing.

ghost use Rattle.std.specs.Prelude.{◌≡◌, List};
ghost use Rattle.label_lattice.specs.Order.{Order};
ghost use Rattle.env_contract.specs.Env.{Env};
ghost use Rattle.env_contract.specs.declared.place.Touch.{Touch};
ghost use Rattle.part_tlb.specs.declared.bank.Hardware.{Hardware};
ghost use Rattle.part_tlb.specs.declared.bank.Sharing.TheVariants.{Partitioned};
ghost use Rattle.part_tlb.specs.Machine.{hardware_by_history};
ghost use Rattle.hardware.specs.Limits.{HasBanks};
ghost use Rattle.hardware.specs.Laws.{AnyTouches};
ghost use Rattle.leak_bound.specs.Over.{KeepsLaws};
ghost use Rattle.history_bound.specs.Over.{AnyHistory};
ghost use Rattle.gain_bound.specs.Gain.{ViewsGainFew, ChoicesGainFew};
ghost use Rattle.gain_bound.specs.Tries.{TriesNameFew};
ghost use Rattle.gain_bound.specs.Information.{ViewsTellFew};
ghost use Rattle.gain_bound.specs.Worth.{ShownIsWorthFew};
ghost use Rattle.gain_bound.specs.Reached.{WorthReached};
ghost use Rattle.gain_bound.specs.Programs.{LoweredWorthOver};
ghost use Rattle.gain_bound.specs.Own.{LoweredOwnIsWorth};

use env_contract::env::LawfulEnv;
use hardware::laws::machines_and_the_laws;
use own_firsts::laws::lowered_few_sequences_own;

/// Whatever the starts weigh, and whatever actions gain at them: a view that shows at most n different things multiplies what
/// the best of some actions gains by at most n.
pub fn few_gains<X, V, A>()
    ensures views { ViewsGainFew X V A }
    ensures choices { ChoicesGainFew X V A }
{}

/// So a part of the start, named in k tries, is named at most n times as often.
pub fn few_tries<X, V, P>()
    ensures { TriesNameFew X V P }
{}

/// Whatever the starts weigh, the mutual information of start and view is at most log2 n.
pub fn few_bits<X, V>()
    ensures { ViewsTellFew X V }
{}

/// So it is of each count that says that a view shows few.
pub fn few_worth<X, V, A>()
    ensures { ShownIsWorthFew X V A }
{}

/// No smaller number serves: for each n there are starts of weight 1 that show n views, of which one guess gains n with the view
/// and 1 without, and the view tells log2 n bits.
pub fn worth_reached()
    ensures { WorthReached }
{}

/// The runs of every accepted program, in the image that `lower` makes of it: for starts that agree, seeing them multiplies what
/// the best of any actions gains by at most the sharp count, and tells at most the logarithm of that, whatever the starts weigh
/// and whatever the actions gain. The same holds of the count of runs that may be cut, of the count by shared time, and, where
/// the end label flows to the observer, of who sees the end too.
pub fn lowered_few_worth<A, E: LawfulEnv>()
    ensures { LoweredWorthOver A (λ order. E.env) E.serves }
{}

/// The same of the count by own first predictions.
pub fn lowered_few_worth_own<A, E: LawfulEnv>()
    ensures { LoweredOwnIsWorth A E.env E.serves }
{
    lowered_few_sequences_own::<E>();
}

/// As `lowered_few_worth`, where a look back into the history says what accesses cost: in every environment whose state is the
/// history and that keeps the laws, from every history.
pub fn lowered_few_worth_of_histories<A>()
    ensures { (v : Order → Env (List Touch)) → KeepsLaws v AnyHistory → LoweredWorthOver A v AnyHistory }
{}

/// As `lowered_few_worth`, on every machine with partitions.
pub fn lowered_few_worth_on_machines<A>()
    ensures { (hw : Hardware) → HasBanks hw → hw.sharing ≡ Partitioned → LoweredWorthOver A (hardware_by_history hw) AnyTouches }
{
    machines_and_the_laws();
}
