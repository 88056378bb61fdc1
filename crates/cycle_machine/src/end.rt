/// How a run ended, with the clock in cycles.
#[derive(Clone, Copy, Debug, PartialEq, Eq)]
pub enum RunEnd {
    /// HALT was done; the clock is that after it.
    Halted(u64),
    /// The next step would end after the limit; the clock is that before it.
    Limit(u64),
}
