//! Made programs: a program of any size and starts for it, from two numbers.
#![tactic(auto)]

mod draws;
pub mod made;
mod starts;
mod unit;
