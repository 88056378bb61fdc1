//! The one chain that is told, back from where it ends.

ghost use Rattle.std.specs.Prelude.{◌≡◌, ℕ, None, Some, IfOk, IfSome, IfNone, slice_index_or};
ghost use Rattle.flow_path.specs.declared.target.Target.{Target as ATarget};
ghost use Rattle.flow_path.specs.declared.step.Spot.TheVariants.{Variable as AVariable};
ghost use Rattle.flow_path.specs.Steps.{written};
ghost use Rattle.mit_syntax.specs.Valid.{IsValid};
ghost use Rattle.flow_path.specs.Search.{Where, IsKnown};
ghost use Rattle.flow_path.specs.Distances.{AreSettled, IsPicked, StartsWritten, IsPickedOf};

use crate::settle::settled;
use crate::sides::{Found, Sides};
use crate::step::{Spot, Step};
use crate::target::Target;
use crate::written::written_at;
use mit_syntax::program::Program;
use std::alloc::{AllocError, Global};

/// The step of a variable, if there is one.
fn found_at(found: &[Option<Found>], y: usize) -> Option<Found>
    ensures { result ≡ slice_index_or found.now y None }
{
    if y < found.len() { found[y] } else { None }
}

/// The first of the cheapest steps to an omitted label.
fn step_to(p: &Program, all: &Sides, spot: &Spot) -> Option<Found>
    ensures some { IfSome result (λ f. (n : ℕ) × (spot.now ≡ AVariable n) × (written p.now (AVariable n) ≡ None)
        × (slice_index_or all.now.variables.items n None ≡ Some f)) }
    ensures none { IfNone result ((n : ℕ) → spot.now ≡ AVariable n → written p.now (AVariable n) ≡ None
        → slice_index_or all.now.variables.items n None ≡ None) }
{
    match spot {
        Spot::Variable(y) => {
            if written_at(p, spot).is_some() {
                None
            } else {
                found_at(&all.variables, *y as usize)
            }
        }
        Spot::Command(_) | Spot::Level(_, _) => None,
    }
}

/// The chain that ends by a step, of which each step is the first of the cheapest to where it leads.
pub(crate) fn chain_to(
    alloc: Global,
    p: &Program,
    all: &Sides,
    last: Found,
) -> Result<Vec<Step>, AllocError>
    requires settled { (t : ATarget) × AreSettled p.now t all.now }
    requires last { all.now.goal ≡ Some last }
    ensures { IfOk result (λ v. IsPicked p.now all.now v.items × StartsWritten p.now v.items) }
{
    let mut chain = Vec::new(alloc);
    chain.push(last.step)?;
    let mut now = last;
    while let Some(next) = step_to(p, all, &now.step.part.spot) {
        chain.push(next.step)?;
        now = next;
    }
    chain.reverse();
    Ok(chain)
}

/// The chain that is told.
pub(crate) fn told_chain(
    alloc: Global,
    p: &Program,
    target: &Target,
) -> Result<Vec<Step>, AllocError>
    requires valid { IsValid p.now }
    requires known { (x : Where) × (x.program ≡ p.now) × (x.target ≡ target.now) × IsKnown x }
    ensures { IfOk result (λ v. IsPickedOf p.now target.now v.items) }
{
    let all = settled(alloc, p, target)?;
    match all.goal {
        Some(last) => {
            let chain = chain_to(alloc, p, &all, last)?;
            Ok(chain)
        }
        None => unreachable!(),
    }
}
