//! From where to where labels flow in a program, as a graph of places.

use crate::step::Spot;
use crate::target::{Target, is_high_in};
use crate::written::written_at;
use label_lattice::label::Label;
use label_lattice::lattice::Lattice;
use mit_syntax::ast::{Command, Expr, Form};
use mit_syntax::program::Program;
use std::alloc::{AllocError, Global};

/// From here nothing flows: no place has this number.
const NOWHERE: u32 = u32::MAX;

/// What a flow costs: nothing, a step, or a step that is faint.
#[derive(Clone, Copy)]
pub(crate) enum Toll {
    Free,
    Plain,
    Faint,
}

/// A flow to a place, and after which flow the one before it from the same place stands, or 0.
#[derive(Clone, Copy)]
pub(crate) struct Flow {
    pub(crate) to: u32,
    pub(crate) toll: Toll,
    pub(crate) before: u32,
}

/// The flows, and after which of them the last one from each place stands, or 0. The first places are the variables, by
/// their numbers, and then comes the place of the written labels at which a chain may begin; the others are times and
/// guards. For each variable, from which place its label comes.
#[derive(Drop)]
pub(crate) struct Flows {
    pub(crate) flows: Vec<Flow>,
    pub(crate) lasts: Vec<u32>,
    pub(crate) sources: Vec<u32>,
    pub(crate) start: u32,
    lattice: Lattice,
    target: Target,
}

/// A number of places or flows; there are never more.
fn short(count: usize) -> u32 {
    count.min(NOWHERE as usize) as u32
}

impl Flows {
    /// The variables, and no flows.
    fn new(alloc: Global, p: &Program, target: &Target) -> Result<Flows, AllocError> {
        let lattice = p.lattice();
        let start = p.variables();
        let mut lasts = Vec::new(alloc);
        let mut sources = Vec::new(alloc);
        for x in 0..start {
            let source = match written_at(p, &Spot::Variable(x)) {
                None => x,
                Some(label) => {
                    if is_high_in(lattice, label, target) {
                        start
                    } else {
                        NOWHERE
                    }
                }
            };
            lasts.push(0)?;
            sources.push(source)?;
        }
        lasts.push(0)?;
        Ok(Flows {
            flows: Vec::new(alloc),
            lasts,
            sources,
            start,
            lattice: *lattice,
            target: *target,
        })
    }

    /// A new place.
    fn place(&mut self) -> Result<u32, AllocError> {
        let place = short(self.lasts.len());
        self.lasts.push(0)?;
        Ok(place)
    }

    /// Adds a flow.
    fn add(&mut self, from: u32, to: u32, toll: Toll) -> Result<(), AllocError> {
        if (from as usize) < self.lasts.len() {
            let before = self.lasts[from as usize];
            self.flows.push(Flow { to, toll, before })?;
            self.lasts[from as usize] = short(self.flows.len());
        }
        Ok(())
    }

    /// From where the label of a variable comes.
    fn source(&self, x: u32) -> u32 {
        if (x as usize) < self.sources.len() {
            self.sources[x as usize]
        } else {
            NOWHERE
        }
    }

    /// Adds the flow from the label of a variable.
    fn add_from(&mut self, x: u32, to: u32, toll: Toll) -> Result<(), AllocError> {
        self.add(self.source(x), to, toll)
    }

    /// Adds that from the read label that a command writes.
    fn add_label(
        &mut self,
        labels: &Option<(Label, Label)>,
        to: u32,
        toll: Toll,
    ) -> Result<(), AllocError> {
        match labels {
            Some(pair) => {
                if is_high_in(&self.lattice, pair.0, &self.target) {
                    self.add(self.start, to, toll)
                } else {
                    Ok(())
                }
            }
            None => Ok(()),
        }
    }
}

/// Adds those from the variables and arrays of an expression.
fn add_reads(e: &Expr, to: u32, toll: Toll, flows: &mut Flows) -> Result<(), AllocError> {
    match e {
        Expr::Number(_) => Ok(()),
        Expr::Variable(x) => flows.add_from(*x, to, toll),
        Expr::Binary(_, left, right) => {
            add_reads(left, to, toll, flows)?;
            add_reads(right, to, toll, flows)
        }
        Expr::Element {
            first,
            length: _,
            index,
        } => {
            flows.add_from(*first, to, toll)?;
            add_reads(index, to, toll, flows)
        }
    }
}

/// A place that comes after another one, and to which something more flows, if something does; else that place.
fn joined(before: u32, place: u32, count: usize, flows: &mut Flows) -> Result<u32, AllocError> {
    if flows.flows.len() == count {
        return Ok(before);
    }
    flows.add(before, place, Toll::Free)?;
    Ok(place)
}

/// The time after a command that reads an expression.
fn after(
    t: u32,
    labels: &Option<(Label, Label)>,
    e: &Expr,
    flows: &mut Flows,
) -> Result<u32, AllocError> {
    let count = flows.flows.len();
    let place = flows.place()?;
    add_reads(e, place, Toll::Plain, flows)?;
    flows.add_label(labels, place, Toll::Faint)?;
    joined(t, place, count, flows)
}

/// The time after an assignment.
fn after_set(
    t: u32,
    labels: &Option<(Label, Label)>,
    x: u32,
    e: &Expr,
    index: Option<&Expr>,
    flows: &mut Flows,
) -> Result<u32, AllocError> {
    let count = flows.flows.len();
    let place = flows.place()?;
    add_reads(e, place, Toll::Faint, flows)?;
    if let Some(i) = index {
        add_reads(i, place, Toll::Faint, flows)?;
    }
    flows.add_label(labels, place, Toll::Faint)?;
    flows.add_from(x, place, Toll::Faint)?;
    joined(t, place, count, flows)
}

/// The guards around the parts of a command.
fn inside(pc: u32, guard: &Expr, flows: &mut Flows) -> Result<u32, AllocError> {
    let count = flows.flows.len();
    let place = flows.place()?;
    add_reads(guard, place, Toll::Plain, flows)?;
    joined(pc, place, count, flows)
}

/// Adds those to an omitted label that is assigned to, and tells the time after that.
fn assigned(
    pc: u32,
    t: u32,
    labels: &Option<(Label, Label)>,
    x: u32,
    e: &Expr,
    index: Option<&Expr>,
    flows: &mut Flows,
) -> Result<u32, AllocError> {
    if flows.source(x) == x {
        add_reads(e, x, Toll::Plain, flows)?;
        if let Some(i) = index {
            add_reads(i, x, Toll::Plain, flows)?;
        }
        flows.add_label(labels, x, Toll::Plain)?;
        flows.add(pc, x, Toll::Free)?;
        flows.add(t, x, Toll::Free)?;
    }
    after_set(t, labels, x, e, index, flows)
}

/// Adds those by the conditions of a command, and tells the time after it. A loop's time flows back to its start.
#[cycle(flows)]
fn command_flows(c: &Command, pc: u32, t: u32, flows: &mut Flows) -> Result<u32, AllocError> {
    match &c.form {
        Form::Skip => after(t, &c.labels, &Expr::Number(0), flows),
        Form::Assign { variable, value } => {
            assigned(pc, t, &c.labels, *variable, value, None, flows)
        }
        Form::Put {
            first,
            length: _,
            index,
            value,
        } => assigned(pc, t, &c.labels, *first, value, Some(index), flows),
        Form::Sleep { time } => after(t, &c.labels, time, flows),
        Form::If {
            guard,
            then_part,
            else_part,
        } => {
            let start = after(t, &c.labels, guard, flows)?;
            let inner = inside(pc, guard, flows)?;
            let one = list_flows(then_part, inner, start, flows)?;
            let other = list_flows(else_part, inner, start, flows)?;
            if one == other {
                return Ok(one);
            }
            let end = flows.place()?;
            flows.add(one, end, Toll::Free)?;
            flows.add(other, end, Toll::Free)?;
            Ok(end)
        }
        Form::While { guard, body } => {
            let start = after(t, &c.labels, guard, flows)?;
            let inner = inside(pc, guard, flows)?;
            let again = flows.place()?;
            flows.add(start, again, Toll::Free)?;
            let end = list_flows(body, inner, again, flows)?;
            flows.add(end, again, Toll::Free)?;
            Ok(again)
        }
        Form::Mitigate {
            mark: _,
            estimate,
            level: _,
            body,
        } => {
            let start = after(t, &c.labels, estimate, flows)?;
            let _end = list_flows(body, pc, start, flows)?;
            Ok(start)
        }
    }
}

/// Adds those by the conditions of a list, and tells the time after it.
#[cycle(flows)]
fn list_flows(commands: &[Command], pc: u32, t: u32, flows: &mut Flows) -> Result<u32, AllocError> {
    let mut end = t;
    for c in commands {
        end = command_flows(c, pc, end, flows)?;
    }
    Ok(end)
}

/// The flows of a program, where chains are to end at a target.
#[inline(never)]
pub(crate) fn flows_of(alloc: Global, p: &Program, target: &Target) -> Result<Flows, AllocError> {
    let mut flows = Flows::new(alloc, p, target)?;
    let _end = list_flows(p.body(), NOWHERE, NOWHERE, &mut flows)?;
    Ok(flows)
}
