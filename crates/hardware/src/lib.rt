//! Machines as values: banks of tags of any sizes and costs, partitioned by labels or shared by all.
#![tactic(auto)]

pub mod laws;
pub mod limits;
pub mod machine;
pub mod make;
mod seat;
#[cfg(test)]
mod tests;
