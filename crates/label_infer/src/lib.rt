//! The labels that a program omits: the least ones.
#![tactic(auto)]

mod blocks;
pub mod complete;
mod constraints;
mod first;
pub mod infer;
pub mod laws;
mod left_side;
mod left_sides;
mod marks;
mod place;
mod row;
pub mod steps;
mod variable_set;
mod variables;
mod waiting;
pub mod worklist;
mod written_labels;
