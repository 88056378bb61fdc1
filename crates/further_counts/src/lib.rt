//! Further counts, which no program uses: what many runs tell, how nearly counts are reached, and what the end tells.
#![tactic(auto)]

pub mod laws;
