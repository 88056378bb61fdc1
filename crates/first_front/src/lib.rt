//! What the first prediction of one mitigate tells and costs, over all from 1 to 2^40: the intervals on which no miss count
//! changes, and the choices that no other one betters.
#![tactic(auto)]

pub mod class;
pub mod enough;
pub mod fault;
pub mod front;
pub mod interval;
mod outcome;
#[cfg(test)]
mod tests;
pub mod walk;
