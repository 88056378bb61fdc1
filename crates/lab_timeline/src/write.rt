//! The lines of one run.

ghost use Rattle.std.specs.Prelude.{◌≡◌, ◌≤◌, ◌<◌, ℕ, IfOk, OnOk, IsErrOf, IfSome, map};
ghost use Rattle.tim_base.specs.Faults.{Rose};
ghost use Rattle.mit_syntax.specs.Program.{plan_of};
ghost use Rattle.label_code.specs.Machine.{start};
ghost use Rattle.cycle_machine.specs.Seen.{seen as state_seen};
ghost use Rattle.cycle_machine.specs.Took.{Stands};
ghost use Rattle.code_lower.specs.Lowered.{lowered};
ghost use Rattle.start_file.specs.Starts.{seen, IsFor};
ghost use Rattle.leak_audit.specs.Agreement.{start_of};
ghost use Rattle.run_timeline.specs.Places.{places};
ghost use Rattle.run_timeline.specs.Text.{run_text};
ghost use Rattle.run_timeline.specs.Tallied.{HaveRoom, Grown};
ghost use Rattle.lab_runs.specs.ShownViews.{shown_of};
ghost use Rattle.lab_timeline.specs.Written.{WritesRun, BreaksRun};

use cycle_machine::state::State;
use env_contract::env::MachineEnv;
use env_contract::make::MakeEnv;
use lab_runs::fault::RunFault;
use lab_runs::shown::ShownProgram;
use run_timeline::listing::Listing;
use run_timeline::load::load;
use run_timeline::print::print_timeline;
use seen_line::cells::put_number;
use start_file::start::Start;
use std::alloc::Global;
use text_base::pos::Memory;
use tim_base::line::Line;
use tim_base::sink::{Sink, write_all};

// The state at a start, in the environment that a maker makes of its touches.
fn state_at<E: MachineEnv + Drop, M: MakeEnv<E>>(
    alloc: Global,
    maker: &M,
    program: &ShownProgram,
    from: &Start,
) -> Result<State<E>, Memory>
    requires image { program.now.image ≡ lowered (shown_of program.now.labels).labelled }
    requires from { IsFor (shown_of program.now.labels).labelled.program (seen from.now) }
    ensures at { IfOk result (λ s. state_seen s ≡ start s.memory.items s.env) }
    ensures memory { IfOk result (λ s. s.memory.items ≡ from.now.memory.items) }
    ensures env { IfOk result (λ s. s.env ≡ M.made maker.now (shown_of program.now.labels).labelled.program.order from.now.touches.items) }
    ensures stands { IfOk result (Stands E.serves program.now.image) }
{
    let env = maker.make(
        alloc,
        program.image.shared_lattice(),
        from.touches.as_slice(),
    )?;
    let memory = from.memory.clone()?;
    let state = load(alloc, &program.image, memory, env)?;
    Ok(state)
}

// The line with which a run begins.
fn run_line(number: u32) -> Line
    ensures { result ≡ run_text number }
{
    let mut line = Line::new();
    put_number(&mut line, b"run ", u64::from(number));
    line.put_text(b"\n");
    line
}

/// Writes the lines of the run from a start, in the environment that a maker makes, and counts its mitigations.
///
/// # Errors
/// `Memory`, with nothing written, or `Sink`, where a prefix of the lines is written.
pub fn write_run<E: MachineEnv + Drop, M: MakeEnv<E>, W: Sink>(
    alloc: Global,
    maker: &M,
    program: &ShownProgram,
    start: &Start,
    number: u32,
    listing: &mut Listing,
    limit: u64,
    out: &mut W,
) -> Result<(), RunFault>
    requires image { program.now.image ≡ lowered (shown_of program.now.labels).labelled }
    requires observer { IfSome program.now.observer (λ o. o.number < (shown_of program.now.labels).labelled.program.order.size) }
    requires start { IsFor (shown_of program.now.labels).labelled.program (seen start.now) }
    requires places { listing.old.places.items ≡ places (plan_of (shown_of program.now.labels).labelled.program) }
    requires room { HaveRoom limit listing.old.tallies.items }
    ensures written { OnOk result (WritesRun E.env program.now.image limit
        (start_of (M.made maker.now) (shown_of program.now.labels).labelled.program.order (seen start.now))
        (shown_of program.now.labels).labelled program.now.observer number (W.taken out.old) (W.taken out.new)
        listing.old.tallies.items listing.new.tallies.items) }
    ensures memory { IsErrOf result RunFault.Memory → W.taken out.new ≡ W.taken out.old }
    ensures prefix { IsErrOf result RunFault.Sink → BreaksRun E.env program.now.image limit
        (start_of (M.made maker.now) (shown_of program.now.labels).labelled.program.order (seen start.now))
        (shown_of program.now.labels).labelled program.now.observer number (W.taken out.old) (W.taken out.new) }
    ensures places { listing.new.places ≡ listing.old.places }
    ensures grown { Grown limit listing.old.tallies.items listing.new.tallies.items }
    ensures fault { IsErrOf result RunFault.Sink → Rose (W.faults out.old) (W.faults out.new) }
    ensures later { W.faults out.old ≤ W.faults out.new }
{
    let Ok(state) = state_at(alloc, maker, program, start) else {
        return Err(RunFault::Memory);
    };
    let head = run_line(number);
    let (labelled, image) = (program.labels.labelled(), &program.image);
    let Ok(()) = write_all(out, head.bytes()) else {
        return Err(RunFault::Sink);
    };
    match print_timeline(
        image,
        state,
        labelled,
        listing,
        program.observer,
        limit,
        out,
    ) {
        Ok(_) => Ok(()),
        Err(_) => Err(RunFault::Sink),
    }
}
