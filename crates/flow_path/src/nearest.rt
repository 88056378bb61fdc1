//! What the cheapest chains to each label cost, by one search forwards from where they begin.

ghost use Rattle.std.specs.Prelude.{IfOk};
ghost use Rattle.flow_path.specs.declared.target.Target.{Target as ATarget};
ghost use Rattle.flow_path.specs.Distances.{IsKnownOf};

use crate::cost::Cost;
use crate::flows::{Flows, Toll, flows_of};
use crate::known_costs::{Known, starts};
use crate::target::Target;
use mit_syntax::program::Program;
use std::alloc::{AllocError, Global};

/// A place that was reached, and what a chain costs that leads there.
#[derive(Clone, Copy)]
struct Reached {
    place: u32,
    cost: Cost,
}

/// Of a place, whether the search has gone on from it, and whether it waits for that by a plain step or by a faint one.
#[derive(Clone, Copy)]
struct Seen {
    done: bool,
    plain: bool,
    faint: bool,
}

/// The places from which the search is to go on: those that were reached at no cost more, and those that were reached by
/// a plain step or by a faint one. The costs of both rise, so the cheapest of all is the next of one of them.
#[derive(Drop)]
struct Front {
    seen: Vec<Seen>,
    free: Vec<Reached>,
    plain: Vec<Reached>,
    faint: Vec<Reached>,
    next_plain: usize,
    next_faint: usize,
}

impl Front {
    fn new(alloc: Global, places: usize) -> Result<Front, AllocError> {
        let none = Seen {
            done: false,
            plain: false,
            faint: false,
        };
        let seen = vec![in alloc; none; places]?;
        Ok(Front {
            seen,
            free: Vec::new(alloc),
            plain: Vec::new(alloc),
            faint: Vec::new(alloc),
            next_plain: 0,
            next_faint: 0,
        })
    }

    /// Lets a place wait that was reached from a place with this cost.
    fn reach(&mut self, place: u32, toll: Toll, cost: Cost) -> Result<(), AllocError> {
        if (place as usize) >= self.seen.len() {
            return Ok(());
        }
        let seen = self.seen[place as usize];
        if seen.done {
            return Ok(());
        }
        let steps = cost.steps.saturating_add(1);
        match toll {
            Toll::Free => self.free.push(Reached { place, cost })?,
            Toll::Plain => {
                if !seen.plain {
                    self.seen[place as usize].plain = true;
                    let faint = cost.faint;
                    self.plain.push(Reached {
                        place,
                        cost: Cost { faint, steps },
                    })?;
                }
            }
            Toll::Faint => {
                if !seen.faint {
                    self.seen[place as usize].faint = true;
                    let faint = cost.faint.saturating_add(1);
                    self.faint.push(Reached {
                        place,
                        cost: Cost { faint, steps },
                    })?;
                }
            }
        }
        Ok(())
    }

    /// The next place to go on from: the cheapest one.
    fn next(&mut self) -> Option<Reached> {
        if let Some(reached) = self.free.pop() {
            return Some(reached);
        }
        let plain = self.plain.get(self.next_plain).copied();
        let faint = self.faint.get(self.next_faint).copied();
        match (plain, faint) {
            (Some(one), Some(other)) => {
                if other.cost.is_less(one.cost) {
                    self.next_faint += 1;
                    faint
                } else {
                    self.next_plain += 1;
                    plain
                }
            }
            (Some(_), None) => {
                self.next_plain += 1;
                plain
            }
            (None, Some(_)) => {
                self.next_faint += 1;
                faint
            }
            (None, None) => None,
        }
    }

    /// Goes on from a place, unless that was done.
    fn go_on(&mut self, flows: &Flows, at: Reached) -> Result<(), AllocError> {
        if (at.place as usize) >= self.seen.len() || (at.place as usize) >= flows.lasts.len() {
            return Ok(());
        }
        if self.seen[at.place as usize].done {
            return Ok(());
        }
        self.seen[at.place as usize].done = true;
        let mut next = flows.lasts[at.place as usize] as usize;
        for _ in 0..flows.flows.len() {
            if next == 0 || next > flows.flows.len() {
                break;
            }
            let flow = flows.flows[next - 1];
            self.reach(flow.to, flow.toll, at.cost)?;
            next = flow.before as usize;
        }
        Ok(())
    }
}

/// Goes on from the cheapest place that waits, if one does, and takes its cost for known.
fn turn(p: &Program, flows: &Flows, known: &mut Known, front: &mut Front) -> Result<(), AllocError>
    ensures { (t : ATarget) → IsKnownOf p.now t known.old → IsKnownOf p.now t known.new }
{
    match front.next() {
        None => Ok(()),
        Some(reached) => {
            known.guess(p, reached.place, reached.cost);
            front.go_on(flows, reached)
        }
    }
}

/// What the cheapest chains to each label cost. Each is right where one pass over the program finds the same.
#[inline(never)]
pub(crate) fn nearest(alloc: Global, p: &Program, target: &Target) -> Result<Known, AllocError>
    ensures { IfOk result (IsKnownOf p.now target.now) }
{
    let mut known = starts(alloc, p, target)?;
    let flows = flows_of(alloc, p, target)?;
    let mut front = Front::new(alloc, flows.lasts.len())?;
    let start = Reached {
        place: flows.start,
        cost: Cost::nothing_yet(),
    };
    front.go_on(&flows, start)?;
    // Each flow lets one place wait at most.
    for _ in 0..flows.flows.len() {
        turn(p, &flows, &mut known, &mut front)?;
    }
    Ok(known)
}
