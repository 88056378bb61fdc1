//! A run to its halt, without the waits of its mitigations.

ghost use Rattle.std.specs.Prelude.{◌≡◌, IfOk, IfErr, length};
ghost use Rattle.label_code.specs.Machine.{start};
ghost use Rattle.run_entries.specs.Entries.{entries_of};
ghost use Rattle.entry_run.specs.declared.fault.RunFault.TheVariants as fault;
ghost use Rattle.entry_run.specs.Runs.{Tells, IsTooLong};

use crate::deed::deed_at;
use crate::fault::RunFault;
use crate::kept::Kept;
use crate::work::{Pace, work};
use cycle_machine::state::State;
use doubling_schedule::misses::MissTable;
use env_contract::env::MachineEnv;
use label_code::image::Image;
use run_entries::entry::Entry;
use std::alloc::Global;

/// The entries of the run of an image to its halt, from a value for each variable and a state of the environment, whatever
/// first predictions are. Takes at most as many steps as the limit has cycles.
///
/// # Errors
/// `Unfinished` where the run does not halt by the limit even without the waits of its mitigations, so that it does not
/// with any first predictions; `Memory` where memory is wanting.
pub fn entries<E: MachineEnv + Drop>(
    alloc: Global,
    image: &Image,
    memory: Vec<i64>,
    env: E,
    limit: u64,
) -> Result<Vec<Entry>, RunFault>
    requires values { length memory.items ≡ image.now.variables }
    requires serves { E.serves image.now.order env }
    ensures tells { IfOk result (λ es. Tells E.env image.now.instrs limit (start memory.items env) (entries_of es.items)) }
    ensures fault { IfErr result (λ e. e ≡ fault.Unfinished → IsTooLong E.env image.now.instrs limit (start memory.items env)) }
{
    image.laws();
    let operands = Vec::with_capacity(alloc, image.operands() as usize)?;
    let opened = Vec::with_capacity(alloc, image.nesting() as usize)?;
    let mut state = State {
        place: 0,
        operands,
        memory,
        opened,
        misses: MissTable::new(),
        env,
        clock: 0,
    };
    let mut kept = Kept::new(alloc);
    'run: loop {
        let begun = state.clock;
        let deed = deed_at(image, &state);
        match work(image, &mut state, limit) {
            Pace::Went => kept.put(state.clock - begun, deed)?,
            Pace::Halted => {
                kept.put(state.clock - begun, deed)?;
                let entries = kept.done()?;
                return Ok(entries);
            }
            Pace::Late => return Err(RunFault::Unfinished),
        }
    }
}
