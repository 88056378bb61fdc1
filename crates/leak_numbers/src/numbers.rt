//! The lines.

ghost use Rattle.std.specs.Prelude.{◌≡◌, ◌+◌, ◌<◌, ◌≤◌, ◌^◌, ◌++◌, OnOk, length};
ghost use Rattle.fixed_log.specs.Entropy.{AllSome, starts, square_sum};
ghost use Rattle.leak_numbers.specs.Numbers.{NumbersPut, least_of, greatest_of};

use crate::interval::interval;
use crate::line::{counted, first, guesses, put_if, put_line, span};
use fixed_log::entropy::{count, shannon, squares};
use fixed_log::log::log2;
use std::alloc::AllocError;

// The least of some numbers and one more.
fn least(most: u64, weights: &[u64]) -> u64
    ensures { result ≡ least_of most weights.now }
{
    let mut least = most;
    for &weight in weights {
        least = least.min(weight);
    }
    least
}

// The greatest of some numbers.
fn greatest(weights: &[u64]) -> u64
    ensures { result ≡ greatest_of 0 weights.now }
{
    let mut greatest = 0;
    for &weight in weights {
        greatest = greatest.max(weight);
    }
    greatest
}

/// Appends what the weights of classes tell of so many starts: how many classes there are, the least and the greatest
/// weight, the entropies, and what a guess of the start is worth. Of no class nothing is told.
///
/// # Errors
/// `AllocError` where memory runs out.
pub fn put_numbers(text: &mut Vec<u8>, size: u64, weights: &[u64]) -> Result<(), AllocError>
    requires size { size ≤ 2 ^ 40 }
    requires few { starts weights.now ≤ 2 ^ 40 }
    requires some { AllSome weights.now }
    ensures { OnOk result (NumbersPut size weights.now text.old.items text.new.items) }
{
    let classes = weights.len() as u64;
    if classes == 0 {
        return Ok(());
    }
    let whole = count(weights);
    let even = whole == size;
    let log = log2(classes);
    let entropy = shannon(weights);
    put_line(text, &counted(b"distinct ", classes))?;
    put_line(text, &span(least(whole, weights), greatest(weights)))?;
    put_if(
        text,
        even,
        &interval(b"min-entropy ", log, u128::from(log) + 2),
    )?;
    let high = u128::from(entropy) + 3;
    put_line(
        text,
        &interval(b"shannon ", entropy.saturating_sub(2), high),
    )?;
    put_if(text, even, &first(size, classes))?;
    put_if(text, even, &guesses(size, squares(weights)))?;
    Ok(())
}
