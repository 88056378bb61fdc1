//! What a search looks for.

ghost use Rattle.std.specs.Prelude.{◌≡◌, true, Some};
ghost use Rattle.mit_syntax.specs.Program.{Syntax};
ghost use Rattle.flow_path.specs.Steps.{written};
ghost use Rattle.flow_path.specs.Targets.{IsGoalBy, is_high};

use crate::step::Spot;
use crate::written::written_at;
use label_lattice::label::Label;
use label_lattice::lattice::Lattice;
use mit_syntax::program::Program;
use text_base::pos::Pos;
use timing_types::rule::Rule;

/// Where chains are to end: at the condition that a refusal tells of, or, those from one written label, at an omitted one.
#[derive(Clone, Copy)]
pub(crate) enum Target {
    Broken {
        rule: Rule,
        pos: Pos,
        allowed: Label,
    },
    From {
        spot: Spot,
        label: Label,
    },
}

/// Whether a right side is that of the broken condition.
fn is_broken(side: Spot, p: &Program, allowed: Label) -> bool
    ensures goal { result ≡ true → written p.now side ≡ Some allowed.number }
    ensures only { written p.now side ≡ Some allowed.number → result ≡ true }
{
    match written_at(p, &side) {
        Some(label) => label.number == allowed.number,
        None => false,
    }
}

/// Whether a chain is to end by the condition with this rule, position and right side.
pub(crate) fn is_goal(rule: Rule, pos: Pos, side: Spot, p: &Program, target: &Target) -> bool
    ensures goal { result ≡ true → IsGoalBy p.now target.now rule pos side }
    ensures only { IsGoalBy p.now target.now rule pos side → result ≡ true }
{
    match target {
        Target::Broken {
            rule: broken,
            pos: place,
            allowed,
        } => rule == *broken && pos == *place && is_broken(side, p, *allowed),
        Target::From { spot, label: _ } => side == *spot,
    }
}

/// Whether a chain is to begin at a written label of this order.
pub(crate) fn is_high_in(lattice: &Lattice, label: Label, target: &Target) -> bool
    ensures { (s : Syntax) → lattice.now ≡ s.order → result ≡ is_high s target.now label.number }
{
    match target {
        Target::Broken {
            rule: _,
            pos: _,
            allowed,
        } => !lattice.flows(label, *allowed),
        Target::From {
            spot: _,
            label: own,
        } => label.number == own.number,
    }
}
