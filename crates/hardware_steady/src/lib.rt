//! The worth of a yes of `lab steady` on machines.
#![tactic(auto)]

pub mod laws;
