//! A run without the waits of its mitigations: its entries.
#![tactic(auto)]

mod deed;
pub mod fault;
mod kept;
pub mod run;
mod work;
