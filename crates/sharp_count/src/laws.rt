//! What the numbers count, as a contract of a function that does nothing.

ghost use Rattle.sharp_count.specs.Lists.{RisingCounts, RisingOne};
ghost use Rattle.sharp_count.specs.Shared.{SharedIsEnough};
ghost use Rattle.sharp_count.specs.Ways.{WaysAreFew};

/// `rising b k`, a factor of the sharp count, is the exact number of lists of k numbers below b that never fall; for one
/// number that is b.
pub fn rising_counts()
    ensures exact { RisingCounts }
    ensures one { RisingOne }
{}

/// Of the choices of miss counts that the sharp count counts, those whose cycles add up to at most T are no more.
pub fn ways_are_few()
    ensures { WaysAreFew }
{}

/// The choices of miss counts whose cycles add up to at most T are no more than the count by shared time, which is at most
/// the sharp count. Where one level alone has mitigations, and no more than 64, it is their number.
pub fn shared_is_enough()
    ensures { SharedIsEnough }
{}
