//! Code of which one mitigate has another number for its estimate: what the runs of both tell of each other.
#![tactic(auto)]

pub mod laws;
pub mod place;
