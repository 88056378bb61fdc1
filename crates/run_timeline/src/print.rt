//! Printing the timeline of a run.

ghost use Rattle.std.specs.Prelude.{◌≡◌, ◌<◌, ◌≤◌, ◌+◌, ℕ, length, OnOk, OnErr, IfOk, IfSome, slice_index_or};
ghost use Rattle.tim_base.specs.Faults.{Rose};
ghost use Rattle.mit_syntax.specs.Declarations.{variables};
ghost use Rattle.mit_syntax.specs.Program.{plan_of};
ghost use Rattle.label_code.specs.Machine.{start};
ghost use Rattle.cycle_machine.specs.Seen.{seen};
ghost use Rattle.cycle_machine.specs.Took.{Stands};
ghost use Rattle.run_timeline.specs.declared.tally.Tally.{Tally};
ghost use Rattle.run_timeline.specs.Places.{places};
ghost use Rattle.run_timeline.specs.Printed.{Printed, PrintedPart, end_of_run};
ghost use Rattle.run_timeline.specs.Tallied.{HaveRoom, Grown};

use crate::lines::last_line;
use crate::listing::{Listing, note};
use crate::moment::Step;
use crate::step::step;
use crate::write::write_moment;
use cycle_machine::end::RunEnd;
use cycle_machine::state::State;
use env_contract::env::MachineEnv;
use label_code::image::Image;
use label_lattice::label::Label;
use run_watch::{RunNumber, Watch};
use tim_base::sink::{Sink, SinkFault, write_all};
use timing_types::labelled::Labelled;

// After how many steps who looks at the sink is told how far the run is.
const STAGE: u32 = 1 << 18;

const ONE_RUN: RunNumber = RunNumber { run: 1, runs: 1 };

// Tells who looks at the sink how far the run is, once in so many steps.
#[inline(always)]
fn tell_steps<W: Sink>(out: &W, steps: u32, clock: u64, limit: u64) {
    if steps % STAGE == 0 {
        out.tell(ONE_RUN, clock, limit);
    }
}

/// Runs an image from a start to a limit in cycles, and writes a line for each beginning and each end of a
/// mitigation, a line for each assignment, or of those that the observer sees, and then how it ended. Counts
/// each mitigation that ended. The image has as many variables as the program, and the observer is a label of
/// it. Takes no memory.
///
/// # Errors
/// The sink's fault, where a prefix of the text is written.
pub fn print_timeline<E: MachineEnv + Drop, W: Sink>(
    image: &Image,
    mut state: State<E>,
    p: &Labelled,
    listing: &mut Listing,
    observer: Option<Label>,
    limit: u64,
    out: &mut W,
) -> Result<RunEnd, SinkFault>
    requires stands { Stands E.serves image.now state }
    requires start { seen state ≡ start state.memory.items state.env }
    requires variables { image.now.variables ≡ variables p.now.program.declarations }
    requires observer { IfSome observer (λ o. o.number < p.now.program.order.size) }
    requires places { listing.old.places.items ≡ places (plan_of p.now.program) }
    requires room { HaveRoom limit listing.old.tallies.items }
    ensures end { IfOk result (λ end. end ≡ end_of_run E.env image.now.instrs limit (record { memory = state.memory.items; env = state.env })) }
    ensures printed { OnOk result (Printed E.env image.now.instrs limit (record { memory = state.memory.items; env = state.env })
        p.now observer (W.taken out.old) (W.taken out.new) listing.old.tallies.items listing.new.tallies.items) }
    ensures prefix { OnErr result (PrintedPart E.env image.now.instrs limit (record { memory = state.memory.items; env = state.env })
        p.now observer (W.taken out.old) (W.taken out.new)) }
    ensures places { listing.new.places ≡ listing.old.places }
    ensures grown { Grown limit listing.old.tallies.items listing.new.tallies.items }
    ensures later { W.faults out.old ≤ W.faults out.new }
    ensures fault { OnErr result (Rose (W.faults out.old) (W.faults out.new)) }
{
    image.laws();
    let order = p.program().lattice();
    let mut steps = 0u32;
    'run: loop {
        steps = steps.wrapping_add(1);
        tell_steps(&*out, steps, state.clock, limit);
        match step(image, &mut state, limit) {
            Step::Went => {}
            Step::Told(moment) => {
                note(&mut listing.tallies, moment);
                let places = listing.places.as_slice();
                write_moment(p, order, places, observer, moment, out)?;
            }
            Step::Stopped(end) => {
                let line = last_line(end);
                write_all(out, line.bytes())?;
                return Ok(end);
            }
        }
    }
}
