/// What a step did.
#[derive(Clone, Copy, Debug, PartialEq, Eq)]
pub enum Walk {
    /// A variable got a value.
    Assigned(u32, i64),
    /// The mitigate with a number began.
    Began(u32),
    /// It did nothing that is told.
    Silent,
    /// There is nothing left to do.
    Ended,
}
