//! The question whether an audit of the runs of a program is refused, and why.
#![tactic(auto)]

mod audit;
pub mod begun;
mod budget;
mod differs;
mod program;
mod ready;
mod rest;
pub mod typing;
pub mod why_audit;
