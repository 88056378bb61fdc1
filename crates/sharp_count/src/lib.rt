//! The sharp count of what timed observations can tell, as a number.
#![tactic(auto)]

pub mod bits;
pub mod count;
pub mod laws;
pub mod lists;
pub mod shared;
pub mod shared_product;
#[cfg(test)]
mod tests;
