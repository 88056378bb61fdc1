//! Start files that give a space of starts: the values of the variables as lists of intervals, and the touches of all starts.
#![tactic(auto)]

pub mod fault;
mod interval;
mod keys;
mod list;
mod memory;
pub mod read;
