//! In which order chains from several labels are told.

ghost use Rattle.std.specs.Prelude.{◌≡◌, true, false};
ghost use Rattle.flow_path.specs.Costs.{cost_of};
ghost use Rattle.flow_path.specs.Ranks.{IsAhead, IsBefore, IsPlace};

use crate::cost::Cost;
use crate::origins::Origin;
use crate::step::Step;
use label_lattice::lattice::Lattice;

/// What a chain costs.
fn cost_of(chain: &[Step]) -> Cost
    ensures { result ≡ cost_of chain.now }
{
    let mut cost = Cost::nothing_yet();
    let mut i = chain.len();
    while i > 0 {
        i -= 1;
        cost = cost.add(chain[i].part.how);
    }
    cost
}

/// Whether of two chains that cost as much the first is told before the second: more labels flow to its label, or as many
/// and its label has the smaller number.
fn is_ahead(lattice: &Lattice, a: &Origin, b: &Origin) -> bool
    ensures yes { result ≡ true → IsAhead lattice.now a.now b.now }
    ensures no { result ≡ false → IsAhead lattice.now a.now b.now → ⊥ }
{
    let one = lattice.not_below(a.label);
    let other = lattice.not_below(b.label);
    if one == other {
        a.label.number < b.label.number
    } else {
        one < other
    }
}

/// Whether a chain is told before another: it costs less, or as much and it is ahead.
fn is_before(lattice: &Lattice, a: &Origin, b: &Origin) -> bool
    ensures yes { result ≡ true → IsBefore lattice.now a.now b.now }
    ensures no { result ≡ false → IsBefore lattice.now a.now b.now → ⊥ }
{
    let one = cost_of(&a.chain);
    let other = cost_of(&b.chain);
    if one.is_same(other) {
        is_ahead(lattice, a, b)
    } else {
        one.is_less(other)
    }
}

/// Where a chain stands among others that are in order: after those that it is not told before.
pub(crate) fn place(lattice: &Lattice, told: &[Origin], new: &Origin) -> usize
    ensures { IsPlace lattice.now new.now told.now result }
{
    let mut i = 0;
    while i < told.len() && !is_before(lattice, new, &told[i]) {
        i += 1;
    }
    i
}
