//! How many lists of numbers never fall.

ghost use Rattle.std.specs.Prelude.{◌≡◌, ◌+◌, ◌<◌};
ghost use Rattle.leak_bound.specs.Rising.{rising};
ghost use Rattle.sharp_count.specs.Count.{fitting};

/// The number for one value more, from that for these values.
fn with_one_more(lists: u128, values: u32, entries: u64) -> Option<u128>
    requires values { 0 < values }
    requires lists { lists ≡ rising values entries }
    ensures { result ≡ fitting (rising (values + 1) entries) }
{
    let values = values as u128;
    let sum = entries as u128 + values;
    let Some(whole) = (lists / values).checked_mul(sum) else {
        return None;
    };
    whole.checked_add(lists % values * sum / values)
}

/// How many lists there are of so many entries, each one of so many values, that never fall. There is no answer where
/// these are 2^128 or more.
pub fn never_falling(values: u32, entries: u64) -> Option<u128>
    ensures { result ≡ fitting (rising values entries) }
{
    if values == 0 {
        return Some(if entries == 0 { 1 } else { 0 });
    }
    let mut lists: u128 = 1;
    for value in 1..values {
        let Some(more) = with_one_more(lists, value, entries) else {
            return None;
        };
        lists = more;
    }
    Some(lists)
}
