//! An audit of what an observer can tell of a list of starts up to a limit in cycles, whether or not the runs
//! have halted: how many different timed sequences they show, and the bound that is proved of that number.
#![tactic(auto)]

pub mod cut;
pub mod laws;
pub mod report;
