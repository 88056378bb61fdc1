//! A cache with a partition for each label, whose look-ups read the partitions at or below a label.
#![tactic(auto)]

pub mod cache;
pub mod replacement;
#[cfg(test)]
mod tests;
mod ways;
