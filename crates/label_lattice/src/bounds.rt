//! Lowest labels and joins by a table of what flows.

ghost use Rattle.std.specs.Prelude.{◌≡◌, ℕ, ◌<◌, ◌≤◌, IsTrue, ◌↔◌, MatchOption, slice_index_or};
ghost use Rattle.label_lattice.specs.Chains.{IsLowest, IsJoin, HaveNoJoin};
ghost use Rattle.label_lattice.specs.Tables.{IsSet, IsJoinOf};

use crate::closure::{CELLS, Flows, ROOM, is_set};
use crate::label::MAX_LABELS;

/// Whether no other label flows to this one.
pub fn is_lowest(flows: &Flows, size: u32, a: u32) -> bool
    requires size { size ≤ MAX_LABELS }
    requires a { a < MAX_LABELS }
    ensures { IsTrue result ↔ IsLowest size (IsSet flows.now) a }
{
    for c in 0..size {
        if c != a && is_set(flows, c, a) {
            return false;
        }
    }
    true
}

fn is_join(flows: &Flows, size: u32, a: u32, b: u32, c: u32) -> bool
    requires size { size ≤ MAX_LABELS }
    requires a { a < MAX_LABELS }
    requires b { b < MAX_LABELS }
    requires c { c < MAX_LABELS }
    ensures { IsTrue result ↔ IsJoin size (IsSet flows.now) a b c }
{
    if !is_set(flows, a, c) || !is_set(flows, b, c) {
        return false;
    }
    for d in 0..size {
        if is_set(flows, a, d) && is_set(flows, b, d) && !is_set(flows, c, d) {
            return false;
        }
    }
    true
}

/// The join of two labels, if there is one.
pub fn join_of(flows: &Flows, size: u32, a: u32, b: u32) -> Option<u32>
    requires size { size ≤ MAX_LABELS }
    requires a { a < MAX_LABELS }
    requires b { b < MAX_LABELS }
    ensures { MatchOption result (HaveNoJoin size (IsSet flows.now) a b) (λ c. (c < size) × IsJoin size (IsSet flows.now) a b c) }
{
    for c in 0..size {
        if is_join(flows, size, a, b, c) {
            return Some(c);
        }
    }
    None
}

/// A label to which no other label flows.
pub fn lowest(flows: &Flows, size: u32) -> Option<u32>
    requires size { size ≤ MAX_LABELS }
    ensures { MatchOption result ((a : ℕ) → a < size → IsLowest size (IsSet flows.now) a → ⊥)
        (λ a. (a < size) × IsLowest size (IsSet flows.now) a) }
{
    for a in 0..size {
        if is_lowest(flows, size, a) {
            return Some(a);
        }
    }
    None
}

// The join of the row's label and the column's at a place of the table, or 0 where there is none.
fn join_at(flows: &Flows, size: u32, i: usize) -> u8
    requires size { size ≤ MAX_LABELS }
    requires i { i < CELLS }
    ensures { IsJoinOf size flows.now i result }
{
    match join_of(flows, size, (i / ROOM) as u32, (i % ROOM) as u32) {
        Some(c) => c as u8,
        None => 0,
    }
}

/// All joins, in rows.
pub fn joins(flows: &Flows, size: u32) -> [u8; CELLS]
    requires { size ≤ MAX_LABELS }
    ensures { (i : ℕ) → i < CELLS → IsJoinOf size flows.now i (slice_index_or result i 0) }
{
    let mut joins = [0; CELLS];
    for i in 0..CELLS {
        joins[i] = join_at(flows, size, i);
    }
    joins
}
