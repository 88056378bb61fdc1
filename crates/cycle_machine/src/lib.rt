//! The machine that counts cycles: an image runs over an environment, from one event to the next.
#![tactic(auto)]

pub mod access;
pub mod end;
pub mod laws;
pub mod machine;
mod mitigation;
mod obey;
mod operands;
mod place;
mod run;
pub mod state;
#[cfg(test)]
mod tests;
pub mod turn;
