//! How many ways there are in which mitigations of one level end that share their time.

ghost use Rattle.std.specs.Prelude.{ℕ, ◌≡◌, ◌-◌, ◌/◌, ◌<◌, ◌≤◌, List, length, Some, None, IfOk, IfSome};
ghost use Rattle.leak_bound.specs.Digits.{digits};
ghost use Rattle.leak_bound.specs.Rising.{rising};
ghost use Rattle.sharp_count.specs.Levels.{miss_counts};
ghost use Rattle.sharp_count.specs.Shares.{shares, IsRow, IsTable};
ghost use Rattle.sharp_count.specs.Ways.{AreWays};

use crate::count::miss_counts;
use std::alloc::{AllocError, Global};

/// The most mitigations for which `shared_count` tells the number.
pub const MAX_SHARED: u64 = 64;

/// A place for each number from 0 to `MAX_SHARED`.
const PLACES: usize = MAX_SHARED as usize + 1;

/// How many lists of so many powers of two fit into a sum, of which as much as the place tells is spent already.
type Row = [u128; PLACES];

/// There is one list of no powers, and it fits where no more is spent than there is.
fn of_none(most: u64, spent: u64) -> u128
    ensures { result ≡ shares (digits most) 0 most spent }
{
    if spent <= most { 1 } else { 0 }
}

/// The row for lists of no powers.
fn row_of_none(most: u64) -> Row
    ensures { IsRow most 0 result }
{
    let mut row = [0; PLACES];
    for (spent, place) in row.iter_mut().enumerate() {
        *place = of_none(most, spent as u64);
    }
    row
}

/// The row for lists of so many powers. Those with no 1 among them are lists for the half of the sum, and the others
/// have one power fewer after their first.
fn row_of(powers: usize, most: u64, halved: &Row, shorter: &Row) -> Row
    requires some { 0 < powers }
    requires few { powers ≤ 64 }
    requires left { 0 < most }
    requires halved { IsRow (most / 2) powers halved.now }
    requires shorter { IsRow most (powers - 1) shorter.now }
    ensures { IsRow most powers result }
{
    let odd = (most % 2) as usize;
    let mut row = [0; PLACES];
    for spent in 0..PLACES - powers {
        row[spent] = halved[(spent + 1 - odd) / 2] + shorter[spent + 1];
    }
    row
}

/// The table for a sum of nothing.
fn table_of_none(alloc: Global) -> Result<Vec<Row>, AllocError>
    ensures rows { IfOk result (λ v. length v.items ≡ 65) }
    ensures table { IfOk result (λ v. IsTable 0 v.items) }
{
    let mut table = Vec::with_capacity(alloc, PLACES)?;
    table.push(row_of_none(0))?;
    for _powers in 1..PLACES {
        table.push([0; PLACES])?;
    }
    Ok(table)
}

/// Makes the table for a sum from that for its half.
fn double(table: &mut [Row], most: u64)
    requires left { 0 < most }
    requires rows { length table.old ≡ 65 }
    requires halved { IsTable (most / 2) table.old }
    ensures rows { length table.new ≡ 65 }
    ensures table { IsTable most table.new }
{
    table[0] = row_of_none(most);
    for powers in 1..PLACES {
        table[powers] = row_of(powers, most, &table[powers], &table[powers - 1]);
    }
}

/// The number of ways in which mitigations of one level can end by cycle T that last one after the other: how many lists
/// of their miss counts never fall and have cycles that add up to at most T. `first` is their least first prediction,
/// and 0 stands for 1.
///
/// There is no answer for more than `MAX_SHARED` mitigations. The time that it takes grows with the binary digits of T,
/// and not with T.
///
/// # Errors
/// `AllocError` where memory runs out.
pub fn shared_count(
    alloc: Global,
    mitigations: u64,
    first: u64,
    t: u64,
) -> Result<Option<u128>, AllocError>
    ensures exact { IfOk result (λ r. mitigations ≤ 64 → (all : List (List (List ℕ)))
        → AreWays t (λ l. first) 1 (λ l. mitigations) all → r ≡ Some (length all)) }
    ensures left_out { IfOk result (λ r. 64 < mitigations → r ≡ None) }
    ensures few { IfOk result (λ r. IfSome r (λ n. n ≤ rising (miss_counts t first) mitigations)) }
    ensures one { IfOk result (λ r. mitigations ≡ 1 → r ≡ Some (miss_counts t first)) }
{
    if mitigations > MAX_SHARED {
        return Ok(None);
    }
    let most = t / first.max(1);
    let mut table = table_of_none(alloc)?;
    for place in (0..miss_counts(t, first)).rev() {
        double(&mut table, most >> place);
    }
    Ok(Some(table[mitigations as usize][0]))
}
