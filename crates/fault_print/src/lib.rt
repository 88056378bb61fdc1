//! The lines that tell what is wrong with a text, beside the tool's own line: its line with a mark under the place, what stands there,
//! and what could stand there.
#![tactic(auto)]

pub mod faults;
mod hints;
pub mod marked;
pub mod names;
pub mod near;
pub mod text;
mod token;
mod traps;
pub mod words;
