//! The first of the cheapest steps to each label.

ghost use Rattle.std.specs.Prelude.{Option, ◌≡◌, ◌++◌, ◌∷◌, ◌<◌, [], ℕ, List, length, IfOk, IfSome, None, Some, replicate};
ghost use Rattle.mit_syntax.specs.Program.{Syntax};
ghost use Rattle.flow_path.specs.declared.cost.Cost.{Cost as ACost};
ghost use Rattle.flow_path.specs.declared.step.Part.{Part as APart};
ghost use Rattle.flow_path.specs.declared.step.Step.{Step as AStep};
ghost use Rattle.flow_path.specs.declared.target.Target.{Target as ATarget};
ghost use Rattle.flow_path.specs.declared.step.Spot.TheVariants.{Variable as AVariable};
ghost use Rattle.flow_path.specs.Steps.{to, to_write_label};
ghost use Rattle.flow_path.specs.Targets.{IsGoalBy};
ghost use Rattle.flow_path.specs.Distances.{IsBest, IsFound, IsGoalFound, GoalCosts, SideCosts, AreSides};

use crate::best::Best;
use crate::cost::Cost;
use crate::step::{Spot, Step};
use crate::target::{Target, is_goal};
use label_lattice::label::Label;
use mit_syntax::program::Program;
use std::alloc::{AllocError, Global};
use text_base::pos::Pos;
use timing_types::rule::Rule;

/// A step, and what a chain costs that ends by it.
#[derive(Clone, Copy)]
pub(crate) struct Found {
    pub(crate) step: Step,
    pub(crate) cost: Cost,
}

/// The first of the cheapest steps to where a chain is to end, and to the label of each variable.
#[derive(Drop)]
pub(crate) struct Sides {
    pub(crate) goal: Option<Found>,
    pub(crate) variables: Vec<Option<Found>>,
}

/// The step by a condition from the part that was found.
fn found_by(rule: Rule, pos: Pos, side: Spot, best: Best) -> Option<Found>
    ensures { result ≡ Some (record { step = record { rule = rule; pos = pos; part = best.part; side = side }; cost = best.cost }) }
{
    Some(Found {
        step: Step {
            rule,
            pos,
            part: best.part,
            side,
        },
        cost: best.cost,
    })
}

/// The first of the cheapest steps, where those by one more condition follow.
fn then(slot: Option<Found>, rule: Rule, pos: Pos, side: Spot, best: Option<Best>) -> Option<Found>
    ensures goal { (s : Syntax) (t : ATarget) (ds : List (Option ACost)) (ss : List AStep) (ps : List APart) → IsBest s t ds ps best
        → IsGoalBy s t rule pos side → IsFound (GoalCosts s t ds) ss slot → IsFound (GoalCosts s t ds) (ss ++ to rule pos side ps) result }
    ensures side { (s : Syntax) (t : ATarget) (ds : List (Option ACost)) (y : ℕ) (ss : List AStep) (ps : List APart) → IsBest s t ds ps best
        → side ≡ AVariable y → IsFound (SideCosts s t ds y) ss slot → IsFound (SideCosts s t ds y) (ss ++ to rule pos side ps) result }
{
    match best {
        None => slot,
        Some(b) => match slot {
            None => found_by(rule, pos, side, b),
            Some(f) => {
                if b.cost.is_less(f.cost) {
                    found_by(rule, pos, side, b)
                } else {
                    slot
                }
            }
        },
    }
}

/// That of the steps to where a chain is to end, where a chain may end by this condition: by the first of them to which a chain
/// leads, where chains are to end at the broken condition.
fn then_there(
    slot: Option<Found>,
    rule: Rule,
    pos: Pos,
    side: Spot,
    best: Option<Best>,
    target: &Target,
) -> Option<Found>
    ensures { (s : Syntax) (ds : List (Option ACost)) (bs : List (List AStep)) (ps : List APart) → IsBest s target.now ds ps best
        → IsGoalBy s target.now rule pos side → IsGoalFound s target.now ds bs slot
        → IsGoalFound s target.now ds (bs ++ (to rule pos side ps ∷ [])) result }
{
    match target {
        Target::Broken {
            rule: _,
            pos: _,
            allowed: _,
        } => match slot {
            Some(_) => slot,
            None => then(None, rule, pos, side, best),
        },
        Target::From { spot: _, label: _ } => then(slot, rule, pos, side, best),
    }
}

/// That of the steps to where a chain is to end.
fn then_goal(
    slot: Option<Found>,
    rule: Rule,
    pos: Pos,
    side: Spot,
    best: Option<Best>,
    p: &Program,
    target: &Target,
) -> Option<Found>
    ensures { (ds : List (Option ACost)) (bs : List (List AStep)) (ps : List APart) → IsBest p.now target.now ds ps best
        → IsGoalFound p.now target.now ds bs slot → IsGoalFound p.now target.now ds (bs ++ (to rule pos side ps ∷ [])) result }
{
    if is_goal(rule, pos, side, p, target) {
        then_there(slot, rule, pos, side, best, target)
    } else {
        slot
    }
}

/// Which of the first variables a label belongs to.
fn variable_of(side: Spot, count: usize) -> Option<usize>
    ensures some { IfSome result (λ y. (side ≡ AVariable y) × (y < count)) }
    ensures none { (y : ℕ) → y < count → side ≡ AVariable y → result ≡ Some y }
{
    match side {
        Spot::Variable(y) => {
            if (y as usize) < count {
                Some(y as usize)
            } else {
                None
            }
        }
        Spot::Command(_) | Spot::Level(_, _) => None,
    }
}

impl Sides {
    /// Adds the steps by one more condition.
    pub(crate) fn add(
        &mut self,
        rule: Rule,
        pos: Pos,
        side: Spot,
        best: Option<Best>,
        p: &Program,
        target: &Target,
    )
        ensures { (ds : List (Option ACost)) (bs : List (List AStep)) (ps : List APart) → IsBest p.now target.now ds ps best
            → AreSides p.now target.now ds bs self.old → AreSides p.now target.now ds (bs ++ (to rule pos side ps ∷ [])) self.new }
    {
        self.goal = then_goal(self.goal, rule, pos, side, best, p, target);
        match variable_of(side, self.variables.len()) {
            Some(y) => {
                let slot = self.variables[y];
                self.variables[y] = then(slot, rule, pos, side, best);
            }
            None => {}
        }
    }

    /// Adds those by the condition on a write label, where one is written.
    pub(crate) fn add_label(
        &mut self,
        rule: Rule,
        pos: Pos,
        labels: &Option<(Label, Label)>,
        best: Option<Best>,
        p: &Program,
        target: &Target,
    )
        ensures { (ds : List (Option ACost)) (bs : List (List AStep)) (ps : List APart) → IsBest p.now target.now ds ps best
            → AreSides p.now target.now ds bs self.old
            → AreSides p.now target.now ds (bs ++ (to_write_label rule pos labels.now ps ∷ [])) self.new }
    {
        if let Some(pair) = labels {
            self.add(rule, pos, Spot::Command(pair.1), best, p, target);
        }
    }
}

fn all_none(alloc: Global, count: usize) -> Result<Vec<Option<Found>>, AllocError>
    ensures { IfOk result (λ v. v.items ≡ replicate count None) }
{
    vec![in alloc; None; count]
}

/// Those by no conditions.
pub(crate) fn no_sides(alloc: Global, count: usize) -> Result<Sides, AllocError>
    ensures { IfOk result (λ v. (s : Syntax) (t : ATarget) (ds : List (Option ACost)) → length ds ≡ count → AreSides s t ds [] v) }
{
    let variables = all_none(alloc, count)?;
    Ok(Sides {
        goal: None,
        variables,
    })
}
