//! What the programs share: the words of their command lines, when their texts go out, and how far runs have come.
#![tactic(auto)]

pub mod output;
pub mod progress;
pub mod words;
