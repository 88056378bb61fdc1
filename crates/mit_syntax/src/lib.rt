//! The language's texts: tokens, trees, programs and their canonical text.
#![tactic(auto)]

pub mod ast;
mod count;
pub mod declarations;
pub mod fault;
mod lexeme;
pub mod limits;
pub mod operators;
pub mod print;
pub mod program;
pub mod token;
pub mod tokens;
pub mod values;
