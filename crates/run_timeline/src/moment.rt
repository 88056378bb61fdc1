//! What a run tells.

use cycle_machine::end::RunEnd;

/// An assignment, or the beginning or the end of a mitigation, with the clock after it in cycles.
#[derive(Clone, Copy, Debug, PartialEq, Eq)]
pub enum Moment {
    /// A variable got a value.
    Assigned {
        variable: u32,
        value: i64,
        cycle: u64,
    },
    /// A mitigation began, with the value of its estimate, the length that is predicted, and the miss count of
    /// its level.
    Begins {
        mark: u32,
        estimate: i64,
        predicts: u128,
        misses: u32,
        cycle: u64,
    },
    /// A mitigation ended: the cycles from its beginning to the moment its body was done, the length that it
    /// was padded to, and the miss count of its level before it was settled and after.
    Ends {
        mark: u32,
        worked: u64,
        lasts: u64,
        before: u32,
        after: u32,
        cycle: u64,
    },
}

/// What one instruction did. After a limit the state is of no use but for its clock.
#[derive(Clone, Copy)]
pub enum Step {
    /// It told nothing.
    Went,
    /// It told this.
    Told(Moment),
    /// It was HALT, or would have ended after the limit.
    Stopped(RunEnd),
}
