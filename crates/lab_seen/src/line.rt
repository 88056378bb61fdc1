//! The line of a run.

ghost use Rattle.std.specs.Prelude.{◌≡◌, ◌<◌, ◌≤◌, ◌++◌, OnOk, OnErr, codes, decimal};
ghost use Rattle.std.specs.Io.KnownBytes.{Appends};
ghost use Rattle.tim_base.specs.Faults.{Rose};
ghost use Rattle.tim_base.specs.Sinks.{AppendsPrefix};
ghost use Rattle.mit_syntax.specs.Declarations.{variables};
ghost use Rattle.cycle_machine.specs.Rest.{rest_of};
ghost use Rattle.lab_seen.specs.Seen.{line_text};

use cycle_machine::machine::Machine;
use env_contract::env::MachineEnv;
use label_lattice::label::Label;
use run_watch::RunNumber;
use seen_line::cells::put_number;
use seen_line::write::write_seen;
use tim_base::line::Line;
use tim_base::sink::{Sink, SinkFault, write_all};
use timing_types::labelled::Labelled;

// The number of a run and a tab.
fn head_line(number: u32) -> Line
    ensures { result ≡ decimal number ++ codes "\t" }
{
    let mut line = Line::new();
    put_number(&mut line, b"", u64::from(number));
    line.put_text(b"\t");
    line
}

/// Runs a machine to a limit in cycles, and writes the line of the run: its number, a tab, and what the observer
/// sees of it as one field. The machine's image has as many variables as the program, and the observer is a label
/// of it. The sink is told how far the run has come, and that there are so many runs.
///
/// # Errors
/// The sink's fault, where a prefix of the line is written.
pub fn write_line<E: MachineEnv + Drop, W: Sink>(
    machine: &mut Machine<E>,
    p: &Labelled,
    observer: Label,
    number: u32,
    runs: usize,
    limit: u64,
    out: &mut W,
) -> Result<(), SinkFault>
    requires variables { machine.old.code.variables ≡ variables p.now.program.declarations }
    requires observer { observer.number < p.now.program.order.size }
    ensures text { OnOk result (Appends (W.taken out.old) (W.taken out.new) (line_text p.now observer number (rest_of E.env limit machine.old))) }
    ensures prefix { OnErr result (AppendsPrefix (W.taken out.old) (W.taken out.new)
        (line_text p.now observer number (rest_of E.env limit machine.old))) }
    ensures later { W.faults out.old ≤ W.faults out.new }
    ensures fault { OnErr result (Rose (W.faults out.old) (W.faults out.new)) }
{
    let head = head_line(number);
    write_all(out, head.bytes())?;
    let place = RunNumber {
        run: number as usize,
        runs,
    };
    write_seen(machine, p, observer, limit, place, out)?;
    write_all(out, b"\n")?;
    Ok(())
}
