//! A program with its least labels, whether or not they type it.

ghost use Rattle.std.specs.Prelude.{◌≡◌, ◌≤◌, true, OnOk, OnErr, IfOk, IfErr};
ghost use Rattle.std.specs.Io.KnownBytes.{Appends};
ghost use Rattle.tim_base.specs.Faults.{Rose};
ghost use Rattle.tim_base.specs.Sinks.{AppendsPrefix};
ghost use Rattle.timing_types.specs.Labelled.{IsTypeFault};
ghost use Rattle.label_infer.specs.Least.{IsLeast, TypesMost};
ghost use Rattle.tool_texts.specs.Ends.{IsStop};
ghost use Rattle.lab_runs.specs.Shown.{Shows, ShowStops, head_line};
ghost use Rattle.lab_runs.specs.ShownViews.{shown_of};

use label_infer::infer::infer;
use mit_syntax::program::Program;
use std::alloc::Global;
use tim_base::line::Line;
use tim_base::sink::{Sink, SinkFault, write_all};
use timing_types::check::check;
use timing_types::labelled::Labelled;
use timing_types::rule::TypeFault;
use timing_types::typed::Typed;
use tool_stages::types::typed;
use tool_texts::lines;
use tool_texts::stop::{Stop, no_memory};

/// A program with its least labels.
#[derive(Drop)]
pub enum LeastLabelled {
    /// They type it.
    Accepted(Typed),
    /// No labels type it; with the line of its refusal.
    Refused(Labelled, Line),
}

impl LeastLabelled {
    /// The labelled program.
    pub fn labelled(&self) -> &Labelled
        ensures { result.now ≡ (shown_of self.now).labelled }
    {
        match self {
            LeastLabelled::Accepted(typed) => typed.labelled(),
            LeastLabelled::Refused(labelled, _) => labelled,
        }
    }

    /// Writes what stands before the runs: of an accepted program nothing, of a refused one a line that says that it is
    /// refused, and that it runs by its least labels and no bound holds.
    ///
    /// # Errors
    /// The sink's fault, where a prefix of that is written.
    pub fn write_head<W: Sink>(&self, out: &mut W) -> Result<(), SinkFault>
        ensures text { OnOk result (Appends (W.taken out.old) (W.taken out.new) (shown_of self.now).head) }
        ensures prefix { OnErr result (AppendsPrefix (W.taken out.old) (W.taken out.new) (shown_of self.now).head) }
        ensures later { W.faults out.old ≤ W.faults out.new }
        ensures fault { OnErr result (Rose (W.faults out.old) (W.faults out.new)) }
    {
        match self {
            LeastLabelled::Accepted(_) => Ok(()),
            LeastLabelled::Refused(_, refusal) => write_refusal(refusal, out),
        }
    }
}

/// Writes the line before the runs of a refused program, from the line of its refusal.
///
/// # Errors
/// The sink's fault, where a prefix of that is written.
pub fn write_refusal<W: Sink>(refusal: &Line, out: &mut W) -> Result<(), SinkFault>
    ensures text { OnOk result (Appends (W.taken out.old) (W.taken out.new) (head_line refusal.now)) }
    ensures prefix { OnErr result (AppendsPrefix (W.taken out.old) (W.taken out.new) (head_line refusal.now)) }
    ensures later { W.faults out.old ≤ W.faults out.new }
    ensures fault { OnErr result (Rose (W.faults out.old) (W.faults out.new)) }
{
    let line = refusal.bytes();
    let words = &line[..line.len().saturating_sub(1)];
    write_all(out, words)?;
    write_all(out, b"; it runs by its least labels, and no bound holds\n")?;
    Ok(())
}

// What runs of a program whose least labels do not type it.
fn refused(labelled: Labelled, fault: TypeFault) -> Result<LeastLabelled, Stop>
    requires least { IsLeast labelled.program labelled.labels }
    requires types { TypesMost labelled.program labelled.labels }
    requires fault { IsTypeFault labelled fault }
    ensures ok { IfOk result (λ x. Shows true labelled.program (shown_of x)) }
    ensures stop { IfErr result (IsStop (ShowStops true labelled.program)) }
{
    match fault {
        TypeFault::Refused {
            rule,
            pos,
            have,
            allowed,
        } => {
            let order = labelled.program().lattice();
            let refusal = lines::refused(order, rule, pos, have, allowed);
            Ok(LeastLabelled::Refused(labelled, refusal))
        }
        TypeFault::Memory => Err(no_memory()),
    }
}

// What runs of any program.
fn any(alloc: Global, p: Program) -> Result<LeastLabelled, Stop>
    ensures ok { IfOk result (λ x. Shows true p (shown_of x)) }
    ensures stop { IfErr result (IsStop (ShowStops true p)) }
{
    let Ok(labelled) = infer(alloc, p) else {
        return Err(no_memory());
    };
    match check(alloc, labelled) {
        Ok(typed) => Ok(LeastLabelled::Accepted(typed)),
        Err((labelled, fault)) => refused(labelled, fault),
    }
}

/// Gives a program its least labels, and checks them. With `refused_too` a program runs also where they do not type it.
///
/// # Errors
/// Stops with `Refused` where no labelling types the program and refused ones are not asked for, or with `Memory`.
pub fn least_labelled(alloc: Global, p: Program, refused_too: bool) -> Result<LeastLabelled, Stop>
    ensures ok { IfOk result (λ x. Shows refused_too p (shown_of x)) }
    ensures stop { IfErr result (IsStop (ShowStops refused_too p)) }
{
    if refused_too {
        return any(alloc, p);
    }
    match typed(alloc, p) {
        Ok(typed) => Ok(LeastLabelled::Accepted(typed)),
        Err(stop) => Err(stop),
    }
}
