//! Writing what is seen of a run.

ghost use Rattle.std.specs.Prelude.{◌≡◌, ◌<◌, ◌≤◌, OnOk, OnErr};
ghost use Rattle.std.specs.Io.KnownBytes.{Appends};
ghost use Rattle.tim_base.specs.Faults.{Rose};
ghost use Rattle.tim_base.specs.Sinks.{AppendsPrefix};
ghost use Rattle.mit_syntax.specs.Declarations.{variables};
ghost use Rattle.timing_types.specs.Labelled.{order_of, labels_of};
ghost use Rattle.label_code.specs.Visible.{visible};
ghost use Rattle.cycle_machine.specs.Rest.{rest_of};
ghost use Rattle.seen_line.specs.Field.{seen_text, ArePrintable};

use crate::turns::write_turn;
use cycle_machine::machine::Machine;
use env_contract::env::MachineEnv;
use event_print::shown::shown_variables;
use label_lattice::label::Label;
use run_watch::{RunNumber, Watched};
use tim_base::line::Line;
use tim_base::sink::{Sink, SinkFault};
use timing_types::labelled::Labelled;

/// Runs a machine to a limit in cycles, and writes what an observer sees of the run as one field: each
/// assignment that it sees as `X=V@C`, with the place of an element in brackets after its array's name, and a
/// space between two of them; or `-` where it sees nothing. The machine's image has as many variables as the
/// program, and the observer is a label of it. Takes no memory. The sink is told how far the run, which has that number, has
/// come.
///
/// # Errors
/// The sink's fault, where a prefix of the field is written.
pub fn write_seen<E: MachineEnv + Drop, W: Sink>(
    m: &mut Machine<E>,
    p: &Labelled,
    observer: Label,
    limit: u64,
    number: RunNumber,
    out: &mut W,
) -> Result<(), SinkFault>
    requires variables { m.old.code.variables ≡ variables p.now.program.declarations }
    requires observer { observer.number < p.now.program.order.size }
    ensures text { OnOk result (Appends (W.taken out.old) (W.taken out.new) (seen_text p.now observer (rest_of E.env limit m.old))) }
    ensures prefix { OnErr result (AppendsPrefix (W.taken out.old) (W.taken out.new) (seen_text p.now observer (rest_of E.env limit m.old))) }
    ensures printable { OnOk result (ArePrintable (variables p.now.program.declarations)
        (visible (order_of p.now) (labels_of p.now) observer.number (rest_of E.env limit m.old).events)) }
    ensures later { W.faults out.old ≤ W.faults out.new }
    ensures fault { OnErr result (Rose (W.faults out.old) (W.faults out.new)) }
{
    m.laws();
    let shown = shown_variables(p, Some(observer));
    let mut line = Line::new();
    let mut none = true;
    'run: loop {
        m.laws();
        let watch = Watched::new(&*out, number);
        let turn = m.next_shown(limit, &shown, &watch);
        let written = write_turn(p.program(), none, turn, &mut line, out)?;
        if written.last {
            return Ok(());
        }
        none = written.none;
    }
}
