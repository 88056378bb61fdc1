//! Start files: the values of the variables and the touches with which runs begin.
#![tactic(auto)]

pub mod fault;
mod memory;
mod run;
pub mod shared;
mod slot;
pub mod start;
pub mod starts;
pub mod table;
pub mod touch;
pub mod version;
