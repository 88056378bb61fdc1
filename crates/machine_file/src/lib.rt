//! Files that describe machines.
#![tactic(auto)]

pub mod fault;
mod limits;
pub mod read;
#[cfg(test)]
mod tests;
