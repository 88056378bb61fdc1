//! The count by own first predictions, as a number.

ghost use Rattle.std.specs.Prelude.{◌≡◌, ◌+◌, ◌≤◌, ◌<◌, ℕ, None, length, map, slice_index_or, cond, ltb};
ghost use Rattle.sharp_count.specs.Count.{fitting};
ghost use Rattle.own_firsts.specs.Count.{own_by, own_of};
ghost use Rattle.own_firsts.specs.Rows.{IsRow};

use sharp_count::count::{miss_counts, product};

/// A place for each miss count from 0 to 64.
const PLACES: usize = 65;

/// How many lists of miss counts there are that begin at the one of the place or above it. None where these are 2^128 or more.
type Row = [Option<u128>; PLACES];

/// The sum of two numbers, each of which may be too large to be told.
fn plus(one: Option<u128>, other: Option<u128>) -> Option<u128>
    ensures { (m n : ℕ) → one ≡ fitting m → other ≡ fitting n → result ≡ fitting (m + n) }
{
    let Some(one) = one else {
        return None;
    };
    let Some(other) = other else {
        return None;
    };
    one.checked_add(other)
}

/// Of the lists of a row: how many may follow a miss count that has to be below a limit.
fn following(row: &Row, miss_count: usize, limit: u32) -> Option<u128>
    requires { miss_count < 65 }
    ensures { (n : ℕ) → slice_index_or row.now miss_count None ≡ fitting n → result ≡ fitting (cond (ltb miss_count limit) n 0) }
{
    if miss_count < limit as usize {
        return row[miss_count];
    }
    Some(0)
}

/// The row for lists with one miss count more in front, which is below a limit. All miss counts are below `values`.
fn with_one_before(row: &Row, limit: u32, values: u32) -> Row
    requires { values ≤ 64 }
    ensures long { length result ≡ 65 }
    ensures row { (limits : ℕ → ℕ) (i k : ℕ) → limits i ≡ limit → IsRow limits values (i + 1) k row.now → IsRow limits values i (k + 1) result }
{
    let mut next = [Some(0); PLACES];
    for miss_count in (0..values as usize).rev() {
        let above = next[miss_count + 1];
        next[miss_count] = plus(following(row, miss_count, limit), above);
    }
    next
}

/// The count by own first predictions of one level, of runs that halt by cycle T: how many lists of miss counts never fall, in
/// which each mitigation, with its own first prediction, ends by T. There is no answer where it is 2^128 or more.
///
/// The first predictions are told in the order in which the mitigations begin; 0 stands for 1. The time that it takes grows
/// with their number and with the binary digits of T.
pub fn own_count(firsts: &[u64], t: u64) -> Option<u128>
    ensures { result ≡ fitting (own_by t (λ i. slice_index_or firsts.now i 0) (length firsts.now)) }
{
    let values = miss_counts(t, 1);
    let mut row = [Some(1); PLACES];
    for place in (0..firsts.len()).rev() {
        row = with_one_before(&row, miss_counts(t, firsts[place]), values);
    }
    row[0]
}

/// The count by own first predictions of runs that halt by cycle T: the product over the levels of `own_count`. There is no
/// answer where it is 2^128 or more.
///
/// The levels are told in their order, each by the first predictions of its mitigations.
pub fn own_product(levels: &[Vec<u64>], t: u64) -> Option<u128>
    ensures { result ≡ fitting (own_of t (map (λ v. v.items) levels.now)) }
{
    let mut count = Some(1);
    for firsts in levels {
        count = product(own_count(firsts.as_slice(), t), count);
    }
    count
}
