//! The commands.

pub mod audit;
pub mod blackbox;
pub mod certify;
pub mod check;
pub mod compile;
pub mod cut;
pub mod generate;
pub mod infer;
pub mod meaning;
pub mod recheck;
pub mod run;
