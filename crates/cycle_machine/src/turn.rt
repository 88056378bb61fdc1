/// What ended a turn of the machine, with the clock at its end in cycles.
#[derive(Clone, Copy, Debug, PartialEq, Eq)]
pub enum Turn {
    /// A variable got a value.
    Event {
        variable: u32,
        value: i64,
        cycle: u64,
    },
    /// A mitigation began.
    Began {
        mark: u32,
        cycle: u64,
    },
    /// A mitigation ended.
    Ended {
        mark: u32,
        cycle: u64,
    },
    /// HALT was done.
    Halted {
        cycle: u64,
    },
    /// The next step would end after the limit; the clock is that before it.
    Limit {
        cycle: u64,
    },
}
