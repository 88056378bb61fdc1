//! What written pairs of labels say, as a table.

ghost use Rattle.std.specs.Prelude.{◌≡◌, ℕ, ◌<◌, false, IsTrue, ◌↔◌, slice_index_or};
ghost use Rattle.label_lattice.specs.Chains.{AreBelow};
ghost use Rattle.label_lattice.specs.Tables.{IsSet, IsClosure, on_diagonal, extended};

use crate::label::{Label, MAX_LABELS};

/// How many labels there is room for.
pub const ROOM: usize = MAX_LABELS as usize;

/// How many pairs of labels there is room for.
pub const CELLS: usize = ROOM * ROOM;

/// For each pair of labels whether the first flows to the second, in rows.
pub type Flows = [bool; CELLS];

fn diagonal() -> Flows
    ensures { (i : ℕ) → i < CELLS → slice_index_or result i false ≡ on_diagonal i }
{
    let mut flows = [false; CELLS];
    for i in 0..CELLS {
        flows[i] = i / ROOM == i % ROOM;
    }
    flows
}

// At a place of the table: set before, or by way of the pair.
fn by_way(old: &Flows, x: usize, y: usize, i: usize) -> bool
    requires x { x < ROOM }
    requires y { y < ROOM }
    requires i { i < CELLS }
    ensures { result ≡ extended old.now x y i }
{
    old[i] || (old[i / ROOM * ROOM + x] && old[y * ROOM + i % ROOM])
}

// One pair more: whatever flows to its first label flows to all to which its second one flows.
fn with_pair(old: &Flows, x: usize, y: usize) -> Flows
    requires x { x < ROOM }
    requires y { y < ROOM }
    ensures { (i : ℕ) → i < CELLS → slice_index_or result i false ≡ extended old.now x y i }
{
    let mut flows = [false; CELLS];
    for i in 0..CELLS {
        flows[i] = by_way(old, x, y, i);
    }
    flows
}

/// What flows to what by these pairs.
pub fn closure(pairs: &[(Label, Label)]) -> Flows
    requires { AreBelow MAX_LABELS pairs.now }
    ensures { IsClosure result pairs.now }
{
    let mut flows = diagonal();
    for (a, b) in pairs {
        let (x, y) = (usize::from(a.number), usize::from(b.number));
        if !flows[x * ROOM + y] {
            flows = with_pair(&flows, x, y);
        }
    }
    flows
}

/// Whether the table says so of the pair.
pub fn is_set(flows: &Flows, a: u32, b: u32) -> bool
    requires a { a < MAX_LABELS }
    requires b { b < MAX_LABELS }
    ensures { IsTrue result ↔ IsSet flows.now a b }
{
    flows[a as usize * ROOM + b as usize]
}
