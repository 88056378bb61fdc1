//! Conditions in blocks of 64.

ghost use Rattle.std.specs.Prelude.{◌≡◌, ◌+◌, ◌*◌, ◌/◌, ◌<◌, ◌≤◌, ℕ, Bool, List, length, replicate, slice_get, slice_set, Some, true, false, IfOk};
ghost use Rattle.label_infer.specs.declared.constraints.Condition.{Condition as Listed};
ghost use Rattle.label_infer.specs.declared.row.Row.{Row as Bits};
ghost use Rattle.label_infer.specs.Blocks.{Includes, Grow, AreBlocks};
ghost use Rattle.label_infer.specs.Sets.{has_of};

use crate::constraints::Condition;
use crate::row::Row;
use crate::variable_set::VariableSet;
use std::alloc::{AllocError, Global};

/// For each block of 64 conditions in a row, the variables in their left sides, and whether one of them was
/// taken up yet. Where a label rises, all conditions of the other blocks wait already, or none has the variable.
#[derive(Drop)]
pub(crate) struct Blocks {
    pub(crate) rows: Vec<Row>,
    pub(crate) taken: Vec<bool>,
}

/// Adds the variables of a condition to those of its block.
fn add_set(
    alloc: Global,
    i: usize,
    set: &VariableSet,
    rows: &mut Vec<Row>,
) -> Result<(), AllocError>
    requires { length rows.old.items ≡ (i + 63) / 64 }
    ensures fit { IfOk result (λ _. length rows.new.items ≡ (i + 64) / 64) }
    ensures grow { IfOk result (λ _. Grow rows.old.items rows.new.items) }
    ensures here { IfOk result (λ _. (r : Bits) → slice_get rows.new.items (i / 64) ≡ Some r → Includes r (has_of set.now)) }
{
    let block = i / 64;
    if block == rows.len() {
        let mut row = Row::empty(alloc)?;
        set.add_to(&mut row);
        rows.push(row)?;
        return Ok(());
    }
    set.add_to(&mut rows[block]);
    Ok(())
}

/// The rows of the blocks.
fn rows_of(alloc: Global, conditions: &[Condition]) -> Result<Vec<Row>, AllocError>
    ensures fit { IfOk result (λ v. length v.items ≡ (length conditions.now + 63) / 64) }
    ensures cover { IfOk result (λ v. (i : ℕ) (c : Listed) (r : Bits) → i < length conditions.now → slice_get conditions.now i ≡ Some c
        → slice_get v.items (i / 64) ≡ Some r → Includes r (has_of c.have.variables)) }
{
    let mut rows = Vec::new(alloc);
    for i in 0..conditions.len() {
        add_set(alloc, i, &conditions[i].have.variables, &mut rows)?;
    }
    Ok(rows)
}

impl Blocks {
    /// The blocks of conditions that all wait.
    pub(crate) fn new(alloc: Global, conditions: &[Condition]) -> Result<Blocks, AllocError>
        ensures { IfOk result (AreBlocks conditions.now (replicate (length conditions.now) true)) }
    {
        let rows = rows_of(alloc, conditions)?;
        let taken = vec![in alloc; false; rows.len()]?;
        Ok(Blocks { rows, taken })
    }

    /// A condition is taken up, and no longer waits.
    pub(crate) fn take(&mut self, i: usize)
        requires { i / 64 < length self.old.taken.items }
        ensures { (cs : List Listed) (ws : List Bool) → AreBlocks cs ws self.old → AreBlocks cs (slice_set ws i false) self.new }
    {
        self.taken[i / 64] = true;
    }
}
