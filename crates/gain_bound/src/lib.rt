//! What a view is worth to one who has to act: any prior, and any question about the start.
#![tactic(auto)]

pub mod laws;
