//! Which conditions wait, and the values of left sides.

ghost use Rattle.std.specs.Prelude.{◌≡◌, ◌+◌, ◌<◌, ◌≤◌, ◌||◌, ℕ, cond, length, replicate, slice_get, Some, true, false, IfOk, MatchOption};
ghost use Rattle.label_lattice.specs.Order.{lattice_of};
ghost use Rattle.timing_types.specs.Labelling.{label_at};
ghost use Rattle.label_infer.specs.declared.constraints.Condition.{Condition as Listed};
ghost use Rattle.label_infer.specs.Blocks.{AreBlocks};
ghost use Rattle.label_infer.specs.LeftSideOf.{left_side_of};
ghost use Rattle.label_infer.specs.Sets.{has_of};
ghost use Rattle.label_infer.specs.Constraints.{value};
ghost use Rattle.label_infer.specs.Work.{waits_at, woken, joined};

use crate::blocks::Blocks;
use crate::constraints::Condition;
use crate::left_side::LeftSide;
use crate::row::MAX_NUMBERS;
use crate::variables::Variables;
use label_lattice::label::Label;
use label_lattice::lattice::Lattice;
use std::alloc::{AllocError, Global};

/// Lets this many conditions wait.
pub(crate) fn all_wait(alloc: Global, count: usize) -> Result<Vec<bool>, AllocError>
    ensures { IfOk result (λ v. v.items ≡ replicate count true) }
{
    vec![in alloc; true; count]
}

/// The last of the first `end` conditions that waits.
fn last_waiting(waits: &[bool], end: usize) -> Option<usize>
    requires { end ≤ length waits.now }
    ensures { MatchOption result ((i : ℕ) → i < end → waits_at waits.now i ≡ false) (λ i. (i < length waits.now) × (waits_at waits.now i ≡ true)) }
{
    let mut i = end;
    while i > 0 {
        i -= 1;
        if waits[i] {
            return Some(i);
        }
    }
    None
}

/// A condition that waits: the last one before the cursor, or else the last one of all.
pub(crate) fn next_waiting(waits: &[bool], cursor: usize) -> Option<usize>
    requires { cursor ≤ length waits.now }
    ensures { MatchOption result ((i : ℕ) → waits_at waits.now i ≡ false) (λ i. (i < length waits.now) × (waits_at waits.now i ≡ true)) }
{
    match last_waiting(waits, cursor) {
        Some(i) => Some(i),
        None => last_waiting(waits, waits.len()),
    }
}

/// The value of a left side.
pub(crate) fn value(form: &LeftSide, variables: &Variables, order: &Lattice) -> Label
    requires { length variables.now ≤ MAX_NUMBERS }
    ensures { result.number ≡ value (lattice_of order.now) (length variables.now) (label_at order.now.bottom variables.now) (left_side_of form.now) }
{
    variables.value(form, order)
}

/// Lets each condition of a block wait that has a variable in its left side.
fn wake_block(x: u32, conditions: &[Condition], start: usize, waits: &mut [bool])
    requires fit { length waits.old ≡ length conditions.now }
    requires small { x < MAX_NUMBERS }
    requires start { start ≤ length conditions.now }
    ensures fit { length waits.new ≡ length waits.old }
    ensures before { (k : ℕ) → k < start → waits_at waits.new k ≡ waits_at waits.old k }
    ensures inside { (k : ℕ) (c : Listed) → start ≤ k → k < start + 64 → slice_get conditions.now k ≡ Some c
        → waits_at waits.new k ≡ (waits_at waits.old k || has_of c.have.variables x) }
    ensures after { (k : ℕ) → start + 64 ≤ k → waits_at waits.new k ≡ waits_at waits.old k }
{
    let end = start + (conditions.len() - start).min(64);
    for i in start..end {
        if !waits[i] && conditions[i].have.variables.has(x) {
            waits[i] = true;
        }
    }
}

/// Lets each condition wait that has a variable in its left side. A block is passed over where none of its
/// conditions was taken up yet, or none has the variable.
pub(crate) fn wake(x: u32, conditions: &[Condition], blocks: &Blocks, waits: &mut [bool])
    requires fit { length waits.old ≡ length conditions.now }
    requires small { x < MAX_NUMBERS }
    requires blocks { AreBlocks conditions.now waits.old blocks.now }
    ensures { waits.new ≡ woken x conditions.now waits.old }
{
    for b in 0..blocks.rows.len() {
        if blocks.taken[b] && blocks.rows[b].has(x) {
            wake_block(x, conditions, b * 64, waits);
        }
    }
}

/// A condition, by its place.
pub(crate) fn condition_at(conditions: &[Condition], i: usize) -> &Condition
    requires { i < length conditions.now }
    ensures { slice_get conditions.now i ≡ Some result.now }
{
    &conditions[i]
}

/// Joins a label into the label with a number.
pub(crate) fn lift(place: usize, have: Label, order: &Lattice, labels: &mut [Label])
    requires { place < length labels.old }
    ensures { labels.new ≡ joined (lattice_of order.now) order.now.bottom labels.old place have.number }
{
    labels[place] = order.join(labels[place], have);
}

/// Joins a label into that of a variable. Where that rises, all conditions with the variable in their left
/// sides wait.
pub(crate) fn raise(
    x: u32,
    have: Label,
    order: &Lattice,
    conditions: &[Condition],
    blocks: &Blocks,
    waits: &mut [bool],
    variables: &mut Variables,
)
    requires fit { length waits.old ≡ length conditions.now }
    requires small { length variables.old ≤ MAX_NUMBERS }
    requires there { x < length variables.old }
    requires blocks { AreBlocks conditions.now waits.old blocks.now }
    ensures waits { waits.new ≡ cond ((lattice_of order.now).flows have.number (label_at order.now.bottom variables.old x)) waits.old
        (woken x conditions.now waits.old) }
    ensures variables { variables.new ≡ cond ((lattice_of order.now).flows have.number (label_at order.now.bottom variables.old x)) variables.old
        (joined (lattice_of order.now) order.now.bottom variables.old x have.number) }
{
    let so_far = variables.label(x);
    if !order.flows(have, so_far) {
        variables.set(x, order.join(so_far, have));
        wake(x, conditions, blocks, waits);
    }
}
