//! A black-box mitigator: events are released in slots whose distances double, and few different lists of
//! releases can be seen.
#![tactic(auto)]

pub mod audit;
mod class;
pub mod fault;
pub mod laws;
mod line;
pub mod ready;
pub mod release;
