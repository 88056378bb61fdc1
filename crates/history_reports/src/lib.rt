//! Reports over caches are reports over histories.
#![tactic(auto)]

pub mod laws;
