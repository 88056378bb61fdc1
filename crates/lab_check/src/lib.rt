//! The question `check`: what is found in a program, as one object of JSON on a line. Its members are the facts that `why` tells.
#![tactic(auto)]

mod answer;
pub mod check;
mod checked;
mod faulty;
