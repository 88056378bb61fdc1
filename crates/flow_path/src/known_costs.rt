//! What the cheapest chains to each label cost, as far as it is known.

ghost use Rattle.std.specs.Prelude.{◌≡◌, ◌<◌, ◌≤◌, [], length, true, None, IfOk, IfSome, take};
ghost use Rattle.flow_path.specs.declared.target.Target.{Target as ATarget};
ghost use Rattle.mit_syntax.specs.Declarations.{variables as variables_of};
ghost use Rattle.flow_path.specs.declared.step.Spot.TheVariants.{Variable as AVariable};
ghost use Rattle.flow_path.specs.Steps.{written};
ghost use Rattle.flow_path.specs.Distances.{cost_by, cost_to, IsKnownOf, AreStarts};

use crate::cost::Cost;
use crate::step::Spot;
use crate::target::{Target, is_high_in};
use crate::written::written_at;
use label_lattice::lattice::Lattice;
use mit_syntax::program::Program;
use std::alloc::{AllocError, Global};

/// The most steps of a chain whose cost is taken.
const MAX_STEPS: usize = u32::MAX as usize;

/// What a cheapest chain to the label of each variable costs, where it is known, and the order of the labels.
#[derive(Drop)]
pub(crate) struct Known {
    pub(crate) variables: Vec<Option<Cost>>,
    pub(crate) lattice: Lattice,
}

/// What a round of the search goes by: the program, what is known of what chains in it cost, and where they are to end.
#[derive(Drop)]
pub(crate) struct Round<'a> {
    pub(crate) program: &'a Program,
    pub(crate) known: &'a Known,
    pub(crate) target: &'a Target,
}

/// What a chain costs before its first step, if it may begin at a spot.
fn start_at(p: &Program, lattice: &Lattice, target: &Target, spot: &Spot) -> Option<Cost>
    requires { lattice.now ≡ p.now.order }
    ensures { result ≡ cost_by p.now target.now [] spot.now (written p.now spot.now) }
{
    match written_at(p, spot) {
        Some(label) => {
            if is_high_in(lattice, label, target) {
                Some(Cost::nothing_yet())
            } else {
                None
            }
        }
        None => None,
    }
}

/// What is known before the search: where chains may begin.
pub(crate) fn starts(alloc: Global, p: &Program, target: &Target) -> Result<Known, AllocError>
    ensures { IfOk result (λ k. AreStarts p.now target.now k) }
{
    let lattice = p.lattice();
    let mut variables = Vec::new(alloc);
    for y in 0..p.variables() {
        variables.push(start_at(p, lattice, target, &Spot::Variable(y)))?;
    }
    Ok(Known {
        variables,
        lattice: *lattice,
    })
}

impl Known {
    /// What a cheapest chain to a spot costs, as far as it is known.
    pub(crate) fn cost_to(&self, p: &Program, target: &Target, spot: &Spot) -> Option<Cost>
        requires { IsKnownOf p.now target.now self.now }
        ensures cost { result ≡ cost_to p.now target.now self.now.variables.items spot.now }
        ensures few { IfSome result (λ c. (c.faint ≤ c.steps) × (c.steps ≤ 4294967295)) }
    {
        match spot {
            Spot::Variable(y) => {
                if (*y as usize) < self.variables.len() {
                    self.variables[*y as usize]
                } else {
                    start_at(p, &self.lattice, target, spot)
                }
            }
            Spot::Command(_) => start_at(p, &self.lattice, target, spot),
            Spot::Level(_, _) => start_at(p, &self.lattice, target, spot),
        }
    }

    /// Whether a label is omitted, its cost not known, and this a cost that a chain may have.
    fn may_be(&self, p: &Program, y: u32, cost: Cost) -> bool
        ensures { result ≡ true → (y < length self.now.variables.items) × (written p.now (AVariable y) ≡ None) × (cost.faint ≤ cost.steps)
            × (cost.steps ≤ 4294967295) }
    {
        if (y as usize) >= self.variables.len() || cost.faint > cost.steps {
            return false;
        }
        if self.variables[y as usize].is_some() {
            return false;
        }
        match written_at(p, &Spot::Variable(y)) {
            Some(_) => false,
            None => cost.steps <= MAX_STEPS,
        }
    }

    /// Takes a cost for that of a label, if it may be and none is known: the first one that is told stays.
    pub(crate) fn guess(&mut self, p: &Program, y: u32, cost: Cost)
        ensures { (t : ATarget) → IsKnownOf p.now t self.old → IsKnownOf p.now t self.new }
    {
        if self.may_be(p, y, cost) {
            self.variables[y as usize] = Some(cost);
        }
    }
}
