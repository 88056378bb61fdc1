//! What turns of the machine add to a field.

ghost use Rattle.std.specs.Prelude.{◌≡◌, ◌<◌, ◌≤◌, ◌++◌, OnOk, OnErr, IfOk};
ghost use Rattle.std.specs.Io.KnownBytes.{Appends};
ghost use Rattle.tim_base.specs.Faults.{Rose};
ghost use Rattle.tim_base.specs.Sinks.{AppendsPrefix};
ghost use Rattle.mit_syntax.specs.Declarations.{variables};
ghost use Rattle.cycle_machine.specs.Rest.{IsTurnBelow};
ghost use Rattle.seen_line.specs.Field.{IsPrintableTurn, lead, item, piece, next_none, is_last};

use crate::items::item_line;
use cycle_machine::turn::Turn;
use mit_syntax::program::Program;
use tim_base::line::Line;
use tim_base::sink::{Sink, SinkFault, write_all};

/// Where a field stands after a turn.
#[derive(Clone, Copy)]
pub struct Written {
    /// Nothing is seen so far.
    pub none: bool,
    /// The run has ended.
    pub last: bool,
}

/// Writes the item of a turn, if it has one; or at the end of a run of which nothing was seen, `-`. A line is
/// lent, to be filled anew.
pub fn write_turn<W: Sink>(
    p: &Program,
    none: bool,
    turn: Turn,
    line: &mut Line,
    out: &mut W,
) -> Result<Written, SinkFault>
    requires { IsTurnBelow (variables p.now.declarations) turn }
    ensures none { IfOk result (λ r. r.none ≡ next_none none turn) }
    ensures last { IfOk result (λ r. r.last ≡ is_last turn) }
    ensures printable { IfOk result (λ _. IsPrintableTurn turn) }
    ensures text { OnOk result (Appends (W.taken out.old) (W.taken out.new) (piece p.now.declarations none turn)) }
    ensures prefix { OnErr result (AppendsPrefix (W.taken out.old) (W.taken out.new) (piece p.now.declarations none turn)) }
    ensures later { W.faults out.old ≤ W.faults out.new }
    ensures fault { OnErr result (Rose (W.faults out.old) (W.faults out.new)) }
{
    match turn {
        Turn::Event {
            variable,
            value,
            cycle,
        } => {
            write_item(p, none, variable, value, cycle, line, out)?;
            Ok(Written {
                none: false,
                last: false,
            })
        }
        Turn::Began { .. } | Turn::Ended { .. } => Ok(Written { none, last: false }),
        Turn::Halted { .. } | Turn::Limit { .. } => {
            if none {
                write_all(out, b"-")?;
            }
            Ok(Written { none, last: true })
        }
    }
}

// Writes the item of an assignment.
#[inline(never)]
fn write_item<W: Sink>(
    p: &Program,
    none: bool,
    variable: u32,
    value: i64,
    cycle: u64,
    line: &mut Line,
    out: &mut W,
) -> Result<(), SinkFault>
    requires { variable < variables p.now.declarations }
    ensures text { OnOk result (Appends (W.taken out.old) (W.taken out.new) (lead none ++ item p.now.declarations variable value cycle)) }
    ensures prefix { OnErr result (AppendsPrefix (W.taken out.old) (W.taken out.new) (lead none ++ item p.now.declarations variable value cycle)) }
    ensures later { W.faults out.old ≤ W.faults out.new }
    ensures fault { OnErr result (Rose (W.faults out.old) (W.faults out.new)) }
{
    item_line(line, p, none, variable, value, cycle);
    write_all(out, line.bytes())?;
    Ok(())
}
