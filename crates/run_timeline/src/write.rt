//! Writing the line of a moment.

ghost use Rattle.std.specs.Prelude.{◌≡◌, ◌≤◌, ◌++◌, OnOk, OnErr};
ghost use Rattle.std.specs.Io.KnownBytes.{Appends};
ghost use Rattle.tim_base.specs.Faults.{Rose};
ghost use Rattle.tim_base.specs.Sinks.{AppendsPrefix};
ghost use Rattle.mit_syntax.specs.Declarations.{variables};
ghost use Rattle.run_timeline.specs.Steps.{IsMomentBelow};
ghost use Rattle.run_timeline.specs.Text.{moment_text};

use crate::lines::{begin_line, end_line, event_line, head_line};
use crate::moment::Moment;
use crate::shown::shows;
use label_lattice::label::Label;
use label_lattice::lattice::Lattice;
use text_base::pos::Pos;
use tim_base::sink::{Sink, SinkFault, write_all};
use timing_types::labelled::Labelled;

/// Writes two pieces, one after the other.
pub fn write_both<W: Sink>(one: &[u8], two: &[u8], out: &mut W) -> Result<(), SinkFault>
    ensures text { OnOk result (Appends (W.taken out.old) (W.taken out.new) (one.now ++ two.now)) }
    ensures prefix { OnErr result (AppendsPrefix (W.taken out.old) (W.taken out.new) (one.now ++ two.now)) }
    ensures later { W.faults out.old ≤ W.faults out.new }
    ensures fault { OnErr result (Rose (W.faults out.old) (W.faults out.new)) }
{
    write_all(out, one)?;
    write_all(out, two)?;
    Ok(())
}

/// Writes the line of a moment, if it is shown. The order is the program's.
pub fn write_moment<W: Sink>(
    p: &Labelled,
    order: &Lattice,
    places: &[Pos],
    observer: Option<Label>,
    moment: Moment,
    out: &mut W,
) -> Result<(), SinkFault>
    requires below { IsMomentBelow (variables p.now.program.declarations) moment }
    requires order { order.now ≡ p.now.program.order }
    ensures text { OnOk result (Appends (W.taken out.old) (W.taken out.new) (moment_text p.now places.now observer moment)) }
    ensures prefix { OnErr result (AppendsPrefix (W.taken out.old) (W.taken out.new) (moment_text p.now places.now observer moment)) }
    ensures later { W.faults out.old ≤ W.faults out.new }
    ensures fault { OnErr result (Rose (W.faults out.old) (W.faults out.new)) }
{
    match moment {
        Moment::Assigned {
            variable,
            value,
            cycle,
        } => {
            if shows(p, order, observer, variable) {
                let line = event_line(p.program(), variable, value, cycle);
                write_all(out, line.bytes())?;
            }
            Ok(())
        }
        Moment::Begins {
            mark,
            estimate,
            predicts,
            misses,
            cycle,
        } => {
            let head = head_line(p, places, b"begin", mark);
            let rest = begin_line(estimate, predicts, misses, cycle);
            write_both(head.bytes(), rest.bytes(), out)?;
            Ok(())
        }
        Moment::Ends {
            mark,
            worked,
            lasts,
            before,
            after,
            cycle,
        } => {
            let head = head_line(p, places, b"end", mark);
            let rest = end_line(worked, lasts, before, after, cycle);
            write_both(head.bytes(), rest.bytes(), out)?;
            Ok(())
        }
    }
}
