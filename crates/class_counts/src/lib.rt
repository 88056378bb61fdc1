//! Classes by what is seen, each with how many starts it has: what is kept of any number of runs.
#![tactic(auto)]

pub mod counts;
pub mod laws;
