//! Security labels: their names, their order and their joins.
#![tactic(auto)]

mod bounds;
mod checks;
mod closure;
pub mod fault;
pub mod label;
pub mod lattice;
pub mod name;
