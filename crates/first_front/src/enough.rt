//! The cheapest of the choices that tell few things.

ghost use Rattle.std.specs.Prelude.{◌≡◌, ◌^◌, leb, MatchOption};
ghost use Rattle.first_front.specs.Enough.{AllTellMore, IsCheapest, is_cheaper};

use crate::interval::Interval;

// Whether a number of things is at most 2^bits.
fn is_few(things: usize, bits: u32) -> bool
    ensures { result ≡ leb things (2 ^ bits) }
{
    if bits >= 64 {
        return true;
    }
    things as u128 <= 2u128.pow(bits)
}

impl Interval {
    // Whether it tells at most 2^bits things, and costs less than what was found before, if something was.
    fn is_cheaper(&self, bits: u32, found: Option<Interval>) -> bool
        ensures { result ≡ is_cheaper self.now (2 ^ bits) found }
    {
        match found {
            None => is_few(self.things, bits),
            Some(known) => is_few(self.things, bits) && self.cost < known.cost,
        }
    }
}

/// The cheapest of some intervals that tell at most 2^bits things, the first of them where several are; none where each of
/// them tells more.
pub fn enough(intervals: &[Interval], bits: u32) -> Option<Interval>
    ensures { MatchOption result (AllTellMore intervals.now (2 ^ bits)) (IsCheapest intervals.now (2 ^ bits)) }
{
    let mut found = None;
    for interval in intervals {
        if interval.is_cheaper(bits, found) {
            found = Some(*interval);
        }
    }
    found
}
