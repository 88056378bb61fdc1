//! The question `steady`: whether the image of a program takes the same time from all starts that agree, and if not,
//! which command may let a secret change what is seen, or when, and by which variable.
#![tactic(auto)]

mod blame;
mod constant;
mod judge;
pub mod laws;
mod mend;
mod no;
mod owner;
mod program;
pub mod steady;
mod variable;
mod words;
mod yes;
