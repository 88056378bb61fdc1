//! The theorem on what timed observations can tell.
#![tactic(auto)]

pub mod count;
pub mod laws;
