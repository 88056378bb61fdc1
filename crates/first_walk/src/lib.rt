//! What runs tell where the first prediction of one mitigate is varied.
#![tactic(auto)]

pub mod laws;
