//! Machines as values, and the environments of those with a translation buffer and one or two levels of caches, each
//! with a partition for each label.
#![tactic(auto)]

pub mod bank;
pub mod by_history;
mod lookup;
pub mod part;
pub mod part2;
#[cfg(test)]
mod tests;
