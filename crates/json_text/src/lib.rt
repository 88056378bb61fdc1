//! Texts of JSON: strings, numbers, and the members of objects.
#![tactic(auto)]

pub mod put;
