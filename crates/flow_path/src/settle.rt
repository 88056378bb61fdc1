//! What the cheapest chains to all labels cost, the cheapest first.

ghost use Rattle.std.specs.Prelude.{Option, ◌≡◌, ◌<◌, ◌≤◌, ◌+◌, ℕ, List, length, true, false, IfOk, slice_index_or, option_map, None, Some};
ghost use Rattle.mit_syntax.specs.Program.{Syntax};
ghost use Rattle.flow_path.specs.declared.cost.Cost.{Cost as ACost};
ghost use Rattle.flow_path.specs.declared.sides.Found.{Found as AFound};
ghost use Rattle.flow_path.specs.Steps.{conditions_of};
ghost use Rattle.flow_path.specs.Distances.{IsKnownOf, IsNew, IsNewAt, IsLeastNew, IsSetBy, AreSides, AreSettled, Agrees};

use crate::cost::Cost;
use crate::known_costs::{Known, Round, starts};
use crate::nearest::nearest;
use crate::pass::list_pass;
use crate::sides::{Found, Sides, no_sides};
use crate::step::Spot;
use crate::target::Target;
use crate::written::written_at;
use mit_syntax::program::Program;
use std::alloc::{AllocError, Global};

/// What a chain to the label of a variable costs, where one was found and its cost was not known.
fn new_at(p: &Program, known: &[Option<Cost>], found: &[Option<Found>], y: usize) -> Option<Cost>
    requires known { y < length known.now }
    requires found { y < length found.now }
    requires room { y ≤ 4294967295 }
    ensures { IsNewAt p.now known.now found.now y result }
{
    if known[y].is_some() {
        return None;
    }
    match found[y] {
        None => None,
        Some(f) => {
            if written_at(p, &Spot::Variable(y as u32)).is_some() {
                None
            } else {
                Some(f.cost)
            }
        }
    }
}

/// The cheaper of two costs.
fn less(a: Option<Cost>, b: Option<Cost>) -> Option<Cost>
    ensures { (s : Syntax) (ds : List (Option ACost)) (vs : List (Option AFound)) (n : ℕ) → IsLeastNew s ds vs n a → IsNewAt s ds vs n b
        → IsLeastNew s ds vs (n + 1) result }
{
    match a {
        None => b,
        Some(x) => match b {
            None => a,
            Some(y) => { if y.is_less(x) { b } else { a } }
        },
    }
}

/// The least of the new costs.
fn least_new(p: &Program, known: &[Option<Cost>], found: &[Option<Found>]) -> Option<Cost>
    requires fit { length found.now ≡ length known.now }
    requires room { length known.now ≤ 4294967295 }
    ensures { IsLeastNew p.now known.now found.now (length known.now) result }
{
    let mut least = None;
    for y in 0..known.len() {
        least = less(least, new_at(p, known, found, y));
    }
    least
}

/// Whether a new cost is this one.
fn is_new(
    p: &Program,
    known: &[Option<Cost>],
    found: &[Option<Found>],
    y: usize,
    cost: Cost,
) -> bool
    requires known { y < length known.now }
    requires found { y < length found.now }
    requires room { y ≤ 4294967295 }
    ensures yes { result ≡ true → IsNew p.now known.now found.now y cost }
    ensures no { result ≡ false → IsNew p.now known.now found.now y cost → ⊥ }
{
    match new_at(p, known, found, y) {
        Some(c) => c.is_same(cost),
        None => false,
    }
}

/// Takes the cost of a variable for known, if it is new and this one.
fn settle_at(
    p: &Program,
    known: &mut Vec<Option<Cost>>,
    found: &[Option<Found>],
    y: usize,
    cost: Cost,
)
    requires known { y < length known.old.items }
    requires found { y < length found.now }
    requires room { y ≤ 4294967295 }
    ensures fit { length known.new.items ≡ length known.old.items }
    ensures set { (ds : List (Option ACost)) → y < length ds → IsSetBy p.now ds found.now cost y known.old.items
        → IsSetBy p.now ds found.now cost (y + 1) known.new.items }
{
    if is_new(p, known, found, y, cost) {
        known[y] = Some(cost);
    }
}

/// Takes the new costs that are this one for known.
fn settle(p: &Program, known: &mut Vec<Option<Cost>>, found: &[Option<Found>], cost: Cost)
    requires fit { length found.now ≡ length known.old.items }
    requires room { length known.old.items ≤ 4294967295 }
    ensures { IsSetBy p.now known.old.items found.now cost (length known.old.items) known.new.items }
{
    for y in 0..known.len() {
        settle_at(p, known, found, y, cost);
    }
}

/// How many variables there are.
fn count_of(known: &[Option<Cost>]) -> usize
    ensures { result ≡ length known.now }
{
    known.len()
}

/// The first of the cheapest steps to each label, by what is known.
fn found_with(
    alloc: Global,
    p: &Program,
    known: &Known,
    target: &Target,
) -> Result<Sides, AllocError>
    requires { IsKnownOf p.now target.now known.now }
    ensures { IfOk result (λ v. AreSides p.now target.now known.now.variables.items (conditions_of p.now) v) }
{
    let mut sides = no_sides(alloc, count_of(&known.variables))?;
    let round = Round {
        program: p,
        known,
        target,
    };
    let _end = list_pass(p.body(), None, None, &mut sides, &round, false);
    Ok(sides)
}

/// What a chain costs that was found to the label of a variable.
fn cost_at(found: &[Option<Found>], y: usize) -> Option<Cost>
    requires { y < length found.now }
    ensures { result ≡ option_map (λ (f : AFound). f.cost) (slice_index_or found.now y None) }
{
    match found[y] {
        Some(f) => Some(f.cost),
        None => None,
    }
}

/// Whether two costs are the same.
fn is_same(a: Option<Cost>, b: Option<Cost>) -> bool
    ensures { result ≡ true → a ≡ b }
{
    match a {
        Some(x) => match b {
            Some(y) => x.is_same(y),
            None => false,
        },
        None => b.is_none(),
    }
}

/// Whether the label of a variable is written, or its cost is known and the one that was found.
fn agrees(p: &Program, known: &[Option<Cost>], found: &[Option<Found>], y: usize) -> bool
    requires known { y < length known.now }
    requires found { y < length found.now }
    requires room { y ≤ 4294967295 }
    ensures { result ≡ true → Agrees p.now known.now found.now y }
{
    match written_at(p, &Spot::Variable(y as u32)) {
        Some(_) => true,
        None => is_same(cost_at(found, y), known[y]),
    }
}

/// Whether all that is known is what was found.
fn all_agree(p: &Program, known: &[Option<Cost>], found: &[Option<Found>]) -> bool
    requires fit { length found.now ≡ length known.now }
    requires room { length known.now ≤ 4294967295 }
    ensures { result ≡ true → (y : ℕ) → y < length known.now → Agrees p.now known.now found.now y }
{
    for y in 0..known.len() {
        if !agrees(p, known, found, y) {
            return false;
        }
    }
    true
}

/// The first of the cheapest steps to each label, where the costs are found in rounds, the least first: a pass for each
/// different cost.
#[inline(never)]
fn settled_in_rounds(alloc: Global, p: &Program, target: &Target) -> Result<Sides, AllocError>
    ensures { IfOk result (λ v. AreSettled p.now target.now v) }
{
    let mut known = starts(alloc, p, target)?;
    let mut all = found_with(alloc, p, &known, target)?;
    while let Some(cost) = least_new(p, &known.variables, &all.variables) {
        settle(p, &mut known.variables, &all.variables, cost);
        all = found_with(alloc, p, &known, target)?;
    }
    Ok(all)
}

/// The first of the cheapest steps to each label: where a pass finds the costs that it was given, they are right, and
/// one pass is enough.
pub(crate) fn settled(alloc: Global, p: &Program, target: &Target) -> Result<Sides, AllocError>
    ensures { IfOk result (λ v. AreSettled p.now target.now v) }
{
    let known = nearest(alloc, p, target)?;
    let all = found_with(alloc, p, &known, target)?;
    if all_agree(p, &known.variables, &all.variables) {
        return Ok(all);
    }
    let all = settled_in_rounds(alloc, p, target)?;
    Ok(all)
}
