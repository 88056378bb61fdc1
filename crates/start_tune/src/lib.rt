//! Which first predictions of one mitigate are best for starts.
#![tactic(auto)]

pub mod best;
pub mod laws;
pub mod runs;
