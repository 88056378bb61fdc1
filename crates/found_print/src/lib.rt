//! The objects of JSON that tell what is found in a program, each on a line of its own.
#![tactic(auto)]

pub mod accepted;
mod chain;
pub mod fault;
mod members;
pub mod place;
pub mod refused;
pub mod unread;
