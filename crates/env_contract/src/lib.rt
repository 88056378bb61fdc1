//! What an access of the machine costs, and the laws of an environment.
#![tactic(auto)]

pub mod env;
pub mod flat;
pub mod make;
pub mod place;
