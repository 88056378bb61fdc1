//! The doubling schedule of mitigations: how a miss count is settled, and what it predicts.
#![tactic(auto)]

pub mod laws;
pub mod misses;
mod prediction;
