//! Printing a run.

ghost use Rattle.std.specs.Prelude.{◌≡◌, ◌<◌, ◌≤◌, ◌∷◌, [], Some, OnOk, OnErr, IfOk, IfSome};
ghost use Rattle.std.specs.Io.KnownBytes.{Appends};
ghost use Rattle.tim_base.specs.Faults.{Rose};
ghost use Rattle.tim_base.specs.Logs.{HasSent, HasBroken};
ghost use Rattle.tim_base.specs.Sinks.{AppendsPrefix};
ghost use Rattle.mit_syntax.specs.Declarations.{variables};
ghost use Rattle.cycle_machine.specs.Rest.{rest_of, StandsAfter, turn_of, end_of_turn, IsTurnBelow};
ghost use Rattle.event_print.specs.Pieces.{SendsLines, BreaksLines};
ghost use Rattle.event_print.specs.Text.{text_of, event_line, last_line, text_of_turn};

use crate::lines::{event_line, last_line};
use crate::shown::shown_variables;
use cycle_machine::end::RunEnd;
use cycle_machine::machine::Machine;
use cycle_machine::turn::Turn;
use env_contract::env::MachineEnv;
use label_lattice::label::Label;
use mit_syntax::program::Program;
use run_watch::{RunNumber, Watched};
use tim_base::line::Line;
use tim_base::sink::{Sink, SinkFault, write_all};
use timing_types::typed::Typed;

// Writes the line of a turn, if it has one, and answers the end that it tells. A line is lent, to be filled anew.
#[inline(always)]
fn print_turn<W: Sink>(
    p: &Program,
    turn: Turn,
    line: &mut Line,
    out: &mut W,
) -> Result<Option<RunEnd>, SinkFault>
    requires { IsTurnBelow (variables p.now.declarations) turn }
    ensures end { IfOk result (λ end. end ≡ end_of_turn turn) }
    ensures text { OnOk result (Appends (W.taken out.old) (W.taken out.new) (text_of_turn p.now.declarations turn)) }
    ensures prefix { OnErr result (AppendsPrefix (W.taken out.old) (W.taken out.new) (text_of_turn p.now.declarations turn)) }
    ensures sent { OnOk result (SendsLines p.now.declarations (W.log out.old) (W.log out.new)) }
    ensures broken { OnErr result (BreaksLines p.now.declarations (W.log out.old) (W.log out.new)) }
    ensures later { W.faults out.old ≤ W.faults out.new }
    ensures fault { OnErr result (Rose (W.faults out.old) (W.faults out.new)) }
{
    match turn {
        Turn::Event {
            variable,
            value,
            cycle,
        } => {
            print_event(p, variable, value, cycle, line, out)?;
            Ok(None)
        }
        Turn::Began { .. } | Turn::Ended { .. } => Ok(None),
        Turn::Halted { cycle } => print_end(RunEnd::Halted(cycle), out),
        Turn::Limit { cycle } => print_end(RunEnd::Limit(cycle), out),
    }
}

// Writes the line of an assignment. It has a frame of its own, so that a turn without a line pays for none.
#[inline(never)]
fn print_event<W: Sink>(
    p: &Program,
    variable: u32,
    value: i64,
    cycle: u64,
    line: &mut Line,
    out: &mut W,
) -> Result<(), SinkFault>
    requires { variable < variables p.now.declarations }
    ensures text { OnOk result (Appends (W.taken out.old) (W.taken out.new) (event_line p.now.declarations variable value cycle)) }
    ensures prefix { OnErr result (AppendsPrefix (W.taken out.old) (W.taken out.new) (event_line p.now.declarations variable value cycle)) }
    ensures sent { OnOk result (HasSent (W.log out.old) (W.log out.new) (event_line p.now.declarations variable value cycle ∷ [])) }
    ensures broken { OnErr result (HasBroken (W.log out.old) (W.log out.new) (event_line p.now.declarations variable value cycle ∷ [])) }
    ensures later { W.faults out.old ≤ W.faults out.new }
    ensures fault { OnErr result (Rose (W.faults out.old) (W.faults out.new)) }
{
    event_line(line, p, variable, value, cycle);
    write_all(out, line.bytes())?;
    Ok(())
}

// Writes the last line.
#[inline(never)]
fn print_end<W: Sink>(end: RunEnd, out: &mut W) -> Result<Option<RunEnd>, SinkFault>
    ensures end { IfOk result (λ e. e ≡ Some end) }
    ensures text { OnOk result (Appends (W.taken out.old) (W.taken out.new) (last_line end)) }
    ensures prefix { OnErr result (AppendsPrefix (W.taken out.old) (W.taken out.new) (last_line end)) }
    ensures sent { OnOk result (HasSent (W.log out.old) (W.log out.new) (last_line end ∷ [])) }
    ensures broken { OnErr result (HasBroken (W.log out.old) (W.log out.new) (last_line end ∷ [])) }
    ensures later { W.faults out.old ≤ W.faults out.new }
    ensures fault { OnErr result (Rose (W.faults out.old) (W.faults out.new)) }
{
    let line = last_line(end);
    write_all(out, line.bytes())?;
    Ok(Some(end))
}

/// Runs a machine to a limit in cycles, and writes a line for each assignment that it makes, or of those
/// that the observer sees, and then how it ended: `X = V @C`, with the place of an element in brackets
/// after its array's name, and `end @C` or `limit @C`. The machine's image has as many variables as the
/// program, and the observer is a label of it. Each line is written as one piece. Takes no memory. The sink is told how far
/// the run has come.
///
/// # Errors
/// The sink's fault, where a prefix of the text is written. The machine then stands after the last step that
/// it took.
pub fn print_run<E: MachineEnv + Drop, W: Sink>(
    m: &mut Machine<E>,
    p: &Typed,
    observer: Option<Label>,
    limit: u64,
    out: &mut W,
) -> Result<RunEnd, SinkFault>
    requires variables { m.old.code.variables ≡ variables p.now.labelled.program.declarations }
    requires observer { IfSome observer (λ o. o.number < p.now.labelled.program.order.size) }
    ensures end { IfOk result (λ end. end ≡ (rest_of E.env limit m.old).end) }
    ensures text { OnOk result (Appends (W.taken out.old) (W.taken out.new) (text_of p.now.labelled observer (rest_of E.env limit m.old))) }
    ensures prefix { OnErr result (AppendsPrefix (W.taken out.old) (W.taken out.new) (text_of p.now.labelled observer (rest_of E.env limit m.old))) }
    ensures sent { OnOk result (SendsLines p.now.labelled.program.declarations (W.log out.old) (W.log out.new)) }
    ensures broken { OnErr result (BreaksLines p.now.labelled.program.declarations (W.log out.old) (W.log out.new)) }
    ensures later { W.faults out.old ≤ W.faults out.new }
    ensures fault { OnErr result (Rose (W.faults out.old) (W.faults out.new)) }
    ensures stopped { IfOk result (λ end. m.new.stopped ≡ Some (turn_of end)) }
    ensures stands { StandsAfter E.env limit m.old m.new }
{
    let labelled = p.labelled();
    m.laws();
    let shown = shown_variables(labelled, observer);
    let mut line = Line::new();
    'run: loop {
        m.laws();
        let watch = Watched::new(&*out, RunNumber { run: 1, runs: 1 });
        let turn = m.next_shown(limit, &shown, &watch);
        if let Some(end) = print_turn(labelled.program(), turn, &mut line, out)? {
            return Ok(end);
        }
    }
}
