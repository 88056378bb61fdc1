//! The stage in which the runs of a program are audited.
#![tactic(auto)]

pub mod audited;
