//! `run`: a program runs on the machine that counts cycles, and its assignments are written while it runs.

ghost use Rattle.std.specs.Prelude.{◌≡◌, ◌≢◌, ◌≤◌, ◌<◌, ◌∷◌, IfSome, option_map};
ghost use Rattle.tim_base.specs.Kept.{KeepsFiles, NoCountFalls};
ghost use Rattle.tim_base.specs.Faults.{Rose};
ghost use Rattle.label_code.specs.Run.{run_from};
ghost use Rattle.start_file.specs.Starts.{seen, IsFor};
ghost use Rattle.cycle_machine.specs.Rest.{told_by};
ghost use Rattle.tool_words.specs.WordsAsked.{run};
ghost use Rattle.tool_texts.specs.Ends.{EndsBy, Nothing};
ghost use Rattle.tool_stages.specs.Envs.{machine_of};
ghost use Rattle.tool_stages.specs.Stages.{HasImage};
ghost use Rattle.tool_stages.specs.Fetches.{HasFetched, named};
ghost use Rattle.mit_tool.specs.Logged.{HasWritten, AreLines, IsRunLine};
ghost use Rattle.mit_tool.specs.Answers.{HasTold, HasRun};
ghost use Rattle.mit_tool.specs.Commands.{IsAnswer};

use cycle_machine::end::RunEnd;
use cycle_machine::machine::Machine;
use env_contract::env::MachineEnv;
use env_contract::make::MakeEnv;
use event_print::print::print_run;
use start_file::start::Start;
use std::alloc::Global;
use tim_base::shelf::Shelf;
use tim_base::sink::Sink;
use tool_stages::compiled::Compiled;
use tool_stages::envs::MachineMaker;
use tool_stages::in_named;
use tool_stages::laws::makers_tell_as_histories;
use tool_stages::setting::NamedSetting;
use tool_stages::started::ready;
use tool_texts::finish::{stop, stop_for_memory};
use tool_texts::status::Status;

// Runs a program in the environment that a maker makes.
fn run_in<E: MachineEnv + Drop, M: MakeEnv<E>, W: Sink>(
    alloc: Global,
    maker: &M,
    program: &Compiled,
    start: Start,
    budget: u64,
    out: &mut W,
) -> Status
    requires image { HasImage program.now.typed.labelled program.now.image }
    requires start { IsFor program.now.typed.labelled.program (seen start) }
    requires observer { IfSome program.now.observer (λ o. o.number < program.now.typed.labelled.program.order.size) }
    ensures ended { EndsBy (W.taken out.old) (W.taken out.new) Nothing (HasTold program.now.typed.labelled program.now.observer
        (told_by (run_from E.env program.now.image.instrs budget
        (record { memory = start.memory.items; env = M.made maker.now program.now.typed.labelled.program.order start.touches.items })))) result }
    ensures later { W.faults out.old ≤ W.faults out.new }
    ensures fault { result ≡ Status.WriteFault → Rose (W.faults out.old) (W.faults out.new) }
    ensures pieces { HasWritten (AreLines IsRunLine) result (W.log out.old) (W.log out.new) }
    ensures unread { result ≢ Status.ReadFault }
{
    let Compiled {
        typed,
        image,
        observer,
    } = program;
    let source = typed.labelled().program();
    source.laws();
    let lattice = source.shared_lattice();
    let Ok(env) = maker.make(alloc, lattice, start.touches.as_slice()) else {
        return stop_for_memory(out);
    };
    let Ok(mut machine) = Machine::load(alloc, image, start.memory, env) else {
        return stop_for_memory(out);
    };
    match print_run(&mut machine, typed, *observer, budget, out) {
        Ok(RunEnd::Halted(_)) => Status::Done,
        Ok(RunEnd::Limit(_)) => Status::Budget,
        Err(_) => Status::WriteFault,
    }
}

// Runs a program in the environment that a maker makes, which has the name.
fn run_as<E: MachineEnv + Drop, M: MachineMaker<E>, W: Sink>(
    alloc: Global,
    maker: &M,
    program: &Compiled,
    start: Start,
    setting: NamedSetting,
    out: &mut W,
) -> Status
    requires image { HasImage program.now.typed.labelled program.now.image }
    requires start { IsFor program.now.typed.labelled.program (seen start) }
    requires observer { IfSome program.now.observer (λ o. o.number < program.now.typed.labelled.program.order.size) }
    requires machine { machine_of setting.env ≡ M.machine maker.now }
    ensures ended { EndsBy (W.taken out.old) (W.taken out.new) Nothing
        (HasRun setting.env setting.budget program.now.typed.labelled program.now.observer program.now.image (seen start)) result }
    ensures later { W.faults out.old ≤ W.faults out.new }
    ensures fault { result ≡ Status.WriteFault → Rose (W.faults out.old) (W.faults out.new) }
    ensures pieces { HasWritten (AreLines IsRunLine) result (W.log out.old) (W.log out.new) }
    ensures unread { result ≢ Status.ReadFault }
{
    program.image.laws();
    makers_tell_as_histories::<E, M>();
    run_in(alloc, maker, program, start, setting.budget, out)
}

// Runs a program in the environment of a name.
fn run_named<W: Sink>(
    alloc: Global,
    program: &Compiled,
    start: Start,
    setting: NamedSetting,
    out: &mut W,
) -> Status
    requires image { HasImage program.now.typed.labelled program.now.image }
    requires start { IsFor program.now.typed.labelled.program (seen start) }
    requires observer { IfSome program.now.observer (λ o. o.number < program.now.typed.labelled.program.order.size) }
    ensures ended { EndsBy (W.taken out.old) (W.taken out.new) Nothing
        (HasRun setting.env setting.budget program.now.typed.labelled program.now.observer program.now.image (seen start)) result }
    ensures later { W.faults out.old ≤ W.faults out.new }
    ensures fault { result ≡ Status.WriteFault → Rose (W.faults out.old) (W.faults out.new) }
    ensures pieces { HasWritten (AreLines IsRunLine) result (W.log out.old) (W.log out.new) }
    ensures unread { result ≢ Status.ReadFault }
{
    in_named!(setting.env, maker => run_as(alloc, maker, program, start, setting, out))
}

/// Runs the program of a file from the first start of another one, or from zeros.
pub fn run<S: Shelf, W: Sink>(
    alloc: Global,
    shelf: &mut S,
    out: &mut W,
    file: &str,
    starts: Option<&str>,
    name: Option<&str>,
    setting: NamedSetting,
) -> Status
    ensures same { KeepsFiles (S.content shelf.old) (S.content shelf.new) }
    ensures later { NoCountFalls (S.faults shelf.old) (S.faults shelf.new) }
    ensures later_out { W.faults out.old ≤ W.faults out.new }
    ensures answered { EndsBy (W.taken out.old) (W.taken out.new) Nothing
        (IsAnswer (λ name. Rose (S.faults shelf.old name) (S.faults shelf.new name)) (S.content shelf.old)
        (run file.now (option_map (λ s. s.now) starts.entry) setting.env setting.budget (option_map (λ s. s.now) name.entry))) result }
    ensures write { result ≡ Status.WriteFault → Rose (W.faults out.old) (W.faults out.new) }
    ensures fetched { HasFetched (file.now ∷ named (option_map (λ s. s.now) starts.entry)) result (S.log shelf.old) (S.log shelf.new) }
    ensures pieces { HasWritten (AreLines IsRunLine) result (W.log out.old) (W.log out.new) }
{
    match ready(alloc, shelf, file, starts, name) {
        Ok((program, start)) => run_named(alloc, &program, start, setting, out),
        Err(e) => stop(out, e),
    }
}
