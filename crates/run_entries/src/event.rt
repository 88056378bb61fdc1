//! What a run's log tells.

/// What a run's log tells, with the cycle.
#[derive(Clone, Copy, Debug, PartialEq, Eq)]
pub enum Event {
    /// A variable got a value.
    Wrote {
        variable: u32,
        value: i64,
        cycle: u64,
    },
    /// A mitigation began.
    Began {
        mark: u32,
        cycle: u64,
    },
    /// A mitigation ended.
    Ended {
        mark: u32,
        cycle: u64,
    },
}
