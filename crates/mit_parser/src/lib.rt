//! The parser: from the tokens of a text to the program that they spell.
#![tactic(auto)]

mod commands;
mod counts;
mod declarations;
mod expressions;
pub mod fault;
mod header;
mod names;
mod operators;
pub mod parse;
mod parser;
