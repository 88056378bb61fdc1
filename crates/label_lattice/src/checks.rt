//! What keeps labels from being a lattice.

ghost use Rattle.std.specs.Prelude.{◌≡◌, ℕ, ◌<◌, ◌≤◌, IsTrue, ◌↔◌, MatchOption};
ghost use Rattle.label_lattice.specs.Chains.{IsNoPair, IsFirstPair};
ghost use Rattle.label_lattice.specs.Tables.{IsSet, IsRefused};

use crate::bounds::{is_lowest, join_of};
use crate::closure::{Flows, is_set};
use crate::label::{Label, MAX_LABELS};

/// What is refused of two labels.
#[derive(Clone, Copy)]
pub enum Check {
    /// They flow to each other.
    Cycle,
    /// No other label flows to either.
    Bottom,
    /// They have no join.
    Join,
}

fn is_refused(check: Check, flows: &Flows, size: u32, a: u32, b: u32) -> bool
    requires size { size ≤ MAX_LABELS }
    requires a { a < MAX_LABELS }
    requires b { b < MAX_LABELS }
    ensures { IsTrue result ↔ IsRefused check size (IsSet flows.now) a b }
{
    match check {
        Check::Cycle => is_set(flows, a, b) && is_set(flows, b, a),
        Check::Bottom => is_lowest(flows, size, a) && is_lowest(flows, size, b),
        Check::Join => join_of(flows, size, a, b).is_none(),
    }
}

// The first label above a with which it is refused.
fn first_above(check: Check, flows: &Flows, size: u32, a: u32) -> Option<u32>
    requires size { size ≤ MAX_LABELS }
    requires a { a < size }
    ensures { MatchOption result ((d : ℕ) → a < d → d < size → IsRefused check size (IsSet flows.now) a d → ⊥)
        (λ b. (a < b) × (b < size) × IsRefused check size (IsSet flows.now) a b
        × ((d : ℕ) → a < d → d < b → IsRefused check size (IsSet flows.now) a d → ⊥)) }
{
    for b in a + 1..size {
        if is_refused(check, flows, size, a, b) {
            return Some(b);
        }
    }
    None
}

/// The first two labels that are refused.
pub fn first_pair(check: Check, flows: &Flows, size: u32) -> Option<(Label, Label)>
    requires size { size ≤ MAX_LABELS }
    ensures { MatchOption result (IsNoPair size (IsRefused check size (IsSet flows.now)))
        (λ p. IsFirstPair size (IsRefused check size (IsSet flows.now)) p.0.number p.1.number) }
{
    for a in 0..size {
        if let Some(b) = first_above(check, flows, size, a) {
            return Some((Label::new(a as u8), Label::new(b as u8)));
        }
    }
    None
}
