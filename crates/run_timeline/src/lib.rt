//! What a run tells of its mitigations: when each begins and ends, what was predicted, and how long its body took.
#![tactic(auto)]

mod closing;
pub mod laws;
mod lines;
pub mod listing;
pub mod load;
pub mod moment;
mod places;
pub mod print;
mod shown;
mod step;
pub mod summary;
pub mod tally;
mod write;
