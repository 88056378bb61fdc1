//! The steps of a run without its time.

ghost use Rattle.std.specs.Prelude.{◌≡◌, ◌≤◌, length, IfOk, OnOk, OnErr, IsErrOf};
ghost use Rattle.std.specs.Io.KnownBytes.{Appends};
ghost use Rattle.tim_base.specs.Faults.{Rose};
ghost use Rattle.tim_base.specs.Sinks.{AppendsPrefix};
ghost use Rattle.mit_syntax.specs.Declarations.{variables};
ghost use Rattle.mit_syntax.specs.Program.{plan_of};
ghost use Rattle.tim_base.specs.Logs.{HasSent, HasBroken};
ghost use Rattle.mit_tool.specs.Logged.{IsMeaningLine, SentLines, BrokenLines};
ghost use Rattle.mit_tool.specs.Means.{IsLastLine, lines_after, text_of_walk, pieces_of_walk, IsWalkBelow, WritesSome, BreaksOff};

use mit_syntax::program::Program;
use run_watch::{RunNumber, Watch};
use source_meaning::walk::Walk;
use source_meaning::walker::Walker;
use std::alloc::Global;
use tim_base::line::Line;
use tim_base::sink::{Sink, SinkFault, write_all};
use tool_texts::lines::steps::{ended, not_ended, value_line};

/// Why steps were not all taken.
#[derive(Clone, Copy, Debug, PartialEq, Eq)]
pub enum WalkFault {
    /// Want of memory. The lines of the steps so far were written.
    Memory,
    /// The sink failed. A prefix of those lines was written.
    Sink,
}

// How often who looks at the sink is told of steps. They are no run of the machine, and have no number of one.
const STAGE: u64 = 1 << 18;

const NO_RUN: RunNumber = RunNumber { run: 0, runs: 0 };

// Tells who looks at the sink how many steps are taken, once in so many.
#[inline(always)]
fn tell_steps<W: Sink>(out: &W, taken: u64, steps: u64) {
    if taken % STAGE == 0 {
        out.tell(NO_RUN, taken, steps);
    }
}

// Writes the line of a step, if it has one. A line is lent, to be filled anew.
#[inline(always)]
fn print_step<W: Sink>(
    p: &Program,
    walk: Walk,
    line: &mut Line,
    out: &mut W,
) -> Result<(), SinkFault>
    requires { IsWalkBelow (variables p.now.declarations) walk }
    ensures text { OnOk result (Appends (W.taken out.old) (W.taken out.new) (text_of_walk p.now.declarations walk)) }
    ensures prefix { OnErr result (AppendsPrefix (W.taken out.old) (W.taken out.new) (text_of_walk p.now.declarations walk)) }
    ensures sent { OnOk result (HasSent (W.log out.old) (W.log out.new) (pieces_of_walk p.now.declarations walk)) }
    ensures broken { OnErr result (HasBroken (W.log out.old) (W.log out.new) (pieces_of_walk p.now.declarations walk)) }
    ensures later { W.faults out.old ≤ W.faults out.new }
    ensures fault { OnErr result (Rose (W.faults out.old) (W.faults out.new)) }
{
    match walk {
        Walk::Assigned(x, n) => {
            value_line(line, p, x, n);
            write_all(out, line.bytes())
        }
        Walk::Began(_) | Walk::Silent | Walk::Ended => Ok(()),
    }
}

/// Takes at most so many steps of a program from a memory, writes the line of each assignment, and gives the
/// last line, which is not written.
pub fn walk<W: Sink>(
    alloc: Global,
    p: &Program,
    memory: &[i64],
    steps: u64,
    out: &mut W,
) -> Result<Line, WalkFault>
    requires { length memory.now ≡ variables p.now.declarations }
    ensures last { IfOk result (IsLastLine (plan_of p.now) memory.now steps) }
    ensures text { OnOk result (Appends (W.taken out.old) (W.taken out.new) (lines_after p.now memory.now steps)) }
    ensures some { IsErrOf result WalkFault.Memory → WritesSome (W.taken out.old) (W.taken out.new) p.now memory.now steps }
    ensures prefix { IsErrOf result WalkFault.Sink → BreaksOff (W.taken out.old) (W.taken out.new) p.now memory.now steps }
    ensures fault { IsErrOf result WalkFault.Sink → Rose (W.faults out.old) (W.faults out.new) }
    ensures sent { OnOk result (SentLines (W.log out.old) (W.log out.new)) }
    ensures sent_some { IsErrOf result WalkFault.Memory → SentLines (W.log out.old) (W.log out.new) }
    ensures broken { IsErrOf result WalkFault.Sink → BrokenLines (W.log out.old) (W.log out.new) }
    ensures last_line { IfOk result IsMeaningLine }
    ensures later { W.faults out.old ≤ W.faults out.new }
{
    p.laws();
    let Ok(mut walker) = Walker::new(alloc, p, memory) else {
        return Err(WalkFault::Memory);
    };
    let mut line = Line::new();
    let mut taken: u64 = 0;
    'steps: loop {
        let Ok(walk) = walker.step() else {
            return Err(WalkFault::Memory);
        };
        if let Walk::Ended = walk {
            return Ok(ended(taken));
        }
        if taken >= steps {
            return Ok(not_ended(steps));
        }
        tell_steps(&*out, taken, steps);
        match print_step(p, walk, &mut line, out) {
            Ok(()) => taken += 1,
            Err(_) => return Err(WalkFault::Sink),
        }
    }
}
