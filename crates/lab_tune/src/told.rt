//! Which of the best choices are told.

ghost use Rattle.std.specs.Prelude.{◌≡◌, ◌∷◌, [], ℕ, List, IfOk, IfErr};
ghost use Rattle.timing_types.specs.Labelled.{LabelledProgram};
ghost use Rattle.start_file.specs.Starts.{StartValue};
ghost use Rattle.tool_stages.specs.declared.envs.Environment.{Environment};
ghost use Rattle.tool_texts.specs.Ends.{IsStop};
ghost use Rattle.lab_tune.specs.Answer.{AreTold, BestIn, FewStops};

use crate::lines::none_enough;
use first_front::enough::enough;
use first_front::interval::Interval;
use std::alloc::Global;
use text_base::pos::Memory;
use tool_texts::status::Status;
use tool_texts::stop::{Stop, no_memory};

// A list of one interval.
fn only(alloc: Global, interval: Interval) -> Result<Vec<Interval>, Memory>
    ensures { IfOk result (λ is. is.items ≡ interval ∷ []) }
{
    let mut one = Vec::new(alloc);
    one.push(interval)?;
    Ok(one)
}

/// The choices that are told of the best ones for the mitigate with a mark: all of them, or the cheapest that tells at most 2^bits
/// things.
///
/// # Errors
/// Stops with `Refused` where each of them tells more, or with `Memory`.
pub(crate) fn told(
    alloc: Global,
    best: Vec<Interval>,
    mark: u32,
    bits: Option<u32>,
) -> Result<Vec<Interval>, Stop>
    ensures told { IfOk result (λ is. (e : Environment) (t : ℕ) (q : LabelledProgram) (o : ℕ) (ss : List StartValue) → BestIn e t q o mark ss best.items
        → AreTold e t q o mark bits ss best.items is.items) }
    ensures stop { IfErr result (λ s. (e : Environment) (t : ℕ) (q : LabelledProgram) (o : ℕ) (ss : List StartValue) → BestIn e t q o mark ss best.items
        → IsStop (FewStops e t q o mark bits ss) s) }
{
    let Some(bits) = bits else {
        return Ok(best);
    };
    let Some(interval) = enough(best.as_slice(), bits) else {
        return Err(Stop::With {
            status: Status::Refused,
            line: none_enough(mark, bits),
        });
    };
    match only(alloc, interval) {
        Ok(one) => Ok(one),
        Err(_) => Err(no_memory()),
    }
}
