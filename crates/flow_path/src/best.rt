//! The first of the cheapest parts of a left side.

ghost use Rattle.std.specs.Prelude.{Option, ◌≡◌, ◌++◌, ◌∷◌, [], ◌≤◌, List, IfSome};
ghost use Rattle.mit_syntax.specs.Program.{Syntax};
ghost use Rattle.flow_path.specs.declared.cost.Cost.{Cost as ACost};
ghost use Rattle.flow_path.specs.declared.step.Part.{Part as APart};
ghost use Rattle.flow_path.specs.declared.target.Target.{Target as ATarget};
ghost use Rattle.flow_path.specs.Distances.{IsKnownIn, IsBest, IsBestIn, best_by, and_then};

use crate::cost::Cost;
use crate::known_costs::Round;
use crate::step::Part;

/// The first of the cheapest parts of a list, and what a chain costs that ends by a step from it.
#[derive(Clone, Copy)]
pub(crate) struct Best {
    pub(crate) part: Part,
    pub(crate) cost: Cost,
}

/// The only part of a list.
fn only(part: Part, cost: Option<Cost>) -> Option<Best>
    requires { IfSome cost (λ c. (c.faint ≤ c.steps) × (c.steps ≤ 4294967295)) }
    ensures { result ≡ best_by part (and_then cost part.how) }
{
    match cost {
        Some(c) => Some(Best {
            part,
            cost: c.add(part.how),
        }),
        None => None,
    }
}

/// That of the list of one part.
pub(crate) fn single(part: Part, round: &Round) -> Option<Best>
    requires { IsKnownIn round.now }
    ensures { IsBestIn round.now (part ∷ []) result }
{
    only(
        part,
        round.known.cost_to(round.program, round.target, &part.spot),
    )
}

/// That of two lists, one after the other.
pub(crate) fn better(a: Option<Best>, b: Option<Best>) -> Option<Best>
    ensures { (s : Syntax) (t : ATarget) (ds : List (Option ACost)) (ps qs : List APart) → IsBest s t ds ps a → IsBest s t ds qs b
        → IsBest s t ds (ps ++ qs) result }
{
    match a {
        Some(one) => match b {
            Some(other) => { if other.cost.is_less(one.cost) { b } else { a } }
            None => a,
        },
        None => b,
    }
}
