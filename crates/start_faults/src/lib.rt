//! The lines that tell what is wrong with a start file, beside the tool's own line: the place by its keys, what stands there, and what
//! has to stand there.
#![tactic(auto)]

pub mod faults;
mod found;
mod keys;
mod names;
mod touches;
mod values;
