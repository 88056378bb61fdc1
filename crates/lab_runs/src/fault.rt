//! Why the texts of runs were not all written.

/// Why the texts of runs were not all written.
#[derive(Clone, Copy, Debug, PartialEq, Eq)]
pub enum RunFault {
    /// Want of memory. The texts of the runs before were written.
    Memory,
    /// The sink failed. A prefix of the texts was written.
    Sink,
}
