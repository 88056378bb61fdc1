//! The tool and the lab in a web page: words and files come from the host's memory, and the text goes back to it.
#![tactic(auto)]

mod call;
mod given;

pub use crate::call::{Ended, Program, lab_web_call, mit_web_call};
