//! What the numbers of `bound` say for any prior and any question.
#![tactic(auto)]

pub mod laws;
