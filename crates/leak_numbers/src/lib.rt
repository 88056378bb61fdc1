//! What the weights of classes tell of the starts: how many there are, the entropies as intervals in which they lie, and
//! what a guess of the start is worth.
#![tactic(auto)]

mod interval;
pub mod laws;
mod line;
pub mod numbers;
