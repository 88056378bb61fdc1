//! The best choices.

ghost use Rattle.std.specs.Prelude.{◌≡◌, ℕ, map, IfOk, IfErr};
ghost use Rattle.code_lower.specs.Lowered.{lowered};
ghost use Rattle.start_file.specs.Starts.{seen};
ghost use Rattle.first_front.specs.declared.fault.WalkFault.TheVariants as fault;
ghost use Rattle.first_image.specs.Tuned.{IsPlaceOf};
ghost use Rattle.tool_texts.specs.Ends.{IsStop};
ghost use Rattle.tool_stages.specs.Begins.{CanAudit};
ghost use Rattle.tool_stages.specs.Envs.{hardware_of};
ghost use Rattle.lab_tune.specs.Answer.{BestIn, TooLongIn, TuneStops};

use crate::lines::{no_number, too_late};
use env_contract::env::MachineEnv;
use first_front::fault::WalkFault;
use first_front::interval::Interval;
use first_image::place::place_of;
use leak_audit::relevance::relevant_marks;
use start_tune::best::best as best_of;
use start_tune::laws::best_are_the_same;
use std::alloc::Global;
use tool_stages::envs::MachineMaker;
use tool_stages::in_env;
use tool_stages::prepared::Prepared;
use tool_stages::setting::Setting;
use tool_texts::status::Status;
use tool_texts::stop::{Stop, no_memory};

// The best choices of the number that is pushed at a place, in the environments of a maker.
fn best_in<E: MachineEnv + Drop, M: MachineMaker<E>>(
    alloc: Global,
    maker: &M,
    p: &Prepared,
    setting: Setting,
    place: u32,
) -> Result<Vec<Interval>, WalkFault>
    requires fit { CanAudit p.now.compiled.typed.labelled p.now.observer p.now.compiled.image (map seen p.now.starts.items) }
    requires machine { hardware_of setting.env ≡ M.machine maker.now }
    ensures best { IfOk result (λ is. (mark : ℕ) → IsPlaceOf (lowered p.now.compiled.typed.labelled).instrs mark place
        → BestIn setting.env setting.budget p.now.compiled.typed.labelled p.now.observer.number mark (map seen p.now.starts.items) is.items) }
    ensures fault { IfErr result (λ e. e ≡ fault.TooLong → (mark : ℕ) → IsPlaceOf (lowered p.now.compiled.typed.labelled).instrs mark place
        → TooLongIn setting.env setting.budget p.now.compiled.typed.labelled p.now.observer.number mark (map seen p.now.starts.items)) }
{
    let (image, starts) = (&p.compiled.image, p.starts.as_slice());
    image.laws();
    best_are_the_same::<E, M>();
    let relevant = relevant_marks(alloc, &p.compiled.typed, p.observer)?;
    match best_of(
        alloc,
        maker,
        image,
        starts,
        place,
        &relevant,
        setting.budget,
    ) {
        Ok(best) => Ok(best),
        Err(fault) => Err(fault),
    }
}

// The same in an environment.
fn best_named(
    alloc: Global,
    p: &Prepared,
    setting: Setting,
    place: u32,
) -> Result<Vec<Interval>, WalkFault>
    requires fit { CanAudit p.now.compiled.typed.labelled p.now.observer p.now.compiled.image (map seen p.now.starts.items) }
    ensures best { IfOk result (λ is. (mark : ℕ) → IsPlaceOf (lowered p.now.compiled.typed.labelled).instrs mark place
        → BestIn setting.env setting.budget p.now.compiled.typed.labelled p.now.observer.number mark (map seen p.now.starts.items) is.items) }
    ensures fault { IfErr result (λ e. e ≡ fault.TooLong → (mark : ℕ) → IsPlaceOf (lowered p.now.compiled.typed.labelled).instrs mark place
        → TooLongIn setting.env setting.budget p.now.compiled.typed.labelled p.now.observer.number mark (map seen p.now.starts.items)) }
{
    in_env!(setting.env, maker => best_in(alloc, maker, p, setting, place))
}

/// The best choices of the first prediction of the mitigate with a mark.
///
/// # Errors
/// Stops with `Refused`, `TooLong` or `Memory`.
pub(crate) fn best(
    alloc: Global,
    p: &Prepared,
    setting: Setting,
    mark: u32,
) -> Result<Vec<Interval>, Stop>
    requires fit { CanAudit p.now.compiled.typed.labelled p.now.observer p.now.compiled.image (map seen p.now.starts.items) }
    ensures best { IfOk result (λ is. BestIn setting.env setting.budget p.now.compiled.typed.labelled p.now.observer.number mark
        (map seen p.now.starts.items) is.items) }
    ensures stop { IfErr result (IsStop (TuneStops setting.env setting.budget p.now.compiled.typed.labelled p.now.observer.number mark
        (map seen p.now.starts.items))) }
{
    let Some(place) = place_of(&p.compiled.image, mark) else {
        return Err(Stop::With {
            status: Status::Refused,
            line: no_number(mark),
        });
    };
    match best_named(alloc, p, setting, place) {
        Ok(best) => Ok(best),
        Err(WalkFault::TooLong) => Err(Stop::With {
            status: Status::TooLong,
            line: too_late(mark),
        }),
        Err(WalkFault::Memory) => Err(no_memory()),
    }
}
