//! What runs tell where each mitigation counts with its own first prediction.
#![tactic(auto)]

pub mod count;
pub mod laws;
