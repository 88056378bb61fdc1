//! The best choices.

ghost use Rattle.std.specs.Prelude.{◌≡◌, ◌<◌, ◌^◌, ◌⊎◌, ℕ, map, length, All, IfOk, IfErr};
ghost use Rattle.start_file.specs.Starts.{seen};
ghost use Rattle.first_front.specs.declared.fault.WalkFault.TheVariants as fault;
ghost use Rattle.first_image.specs.Tuned.{IsPlaceOf};
ghost use Rattle.start_tune.specs.Runs.{Fits, AreBest, IsTooLate, OneIsUnending};

use crate::runs::classes;
use entry_run::fault::RunFault;
use env_contract::env::MachineEnv;
use env_contract::make::MakeEnv;
use first_front::class::Varied;
use first_front::fault::WalkFault;
use first_front::front::front;
use first_front::interval::Interval;
use first_image::place::numbers_in;
use label_code::image::Image;
use start_file::start::Start;
use std::alloc::Global;

/// The intervals that begin with the best first predictions of the mitigate whose estimate is pushed at a place, for runs from
/// starts in the environments that a maker makes. Told apart are the miss counts of the relevant mitigates, by their marks.
///
/// # Errors
/// `TooLong` where a run takes more cycles than the limit without the waits of its mitigations, or ends after cycle 2^64 - 1
/// with some first prediction from 1 to 2^40; `Memory` where memory is wanting.
pub fn best<E: MachineEnv + Drop, M: MakeEnv<E>>(
    alloc: Global,
    maker: &M,
    image: &Image,
    starts: &[Start],
    place: u32,
    relevant: &[bool],
    limit: u64,
) -> Result<Vec<Interval>, WalkFault>
    requires fit { All (Fits image.now) (map seen starts.now) }
    requires few { length starts.now < 2 ^ 32 }
    ensures best { IfOk result (λ is. (mark : ℕ) → IsPlaceOf image.now.instrs mark place
        → AreBest E.env (M.made maker.now) limit image.now mark relevant.now (map seen starts.now) is.items) }
    ensures fault { IfErr result (λ e. e ≡ fault.TooLong → (mark : ℕ) → IsPlaceOf image.now.instrs mark place
        → OneIsUnending E.env (M.made maker.now) limit image.now (map seen starts.now)
        ⊎ IsTooLate E.env (M.made maker.now) limit image.now mark relevant.now (map seen starts.now)) }
{
    let classes = match classes(alloc, maker, image, starts, limit) {
        Ok(classes) => classes,
        Err(RunFault::Unfinished) => return Err(WalkFault::TooLong),
        Err(RunFault::Memory) => return Err(WalkFault::Memory),
    };
    let written = numbers_in(alloc, image)?;
    let varied = Varied {
        written: &written,
        place,
        relevant,
    };
    match front(alloc, &classes, &varied, limit) {
        Ok(best) => Ok(best),
        Err(fault) => Err(fault),
    }
}
