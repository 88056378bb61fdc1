//! The place of the number that a mitigate takes for its estimate.

ghost use Rattle.std.specs.Prelude.{◌≡◌, ℕ, IfOk, MatchBool, MatchOption};
ghost use Rattle.first_image.specs.Tuned.{Estimates, IsPlaceOf, number_of, numbers_in};

use label_code::code::Work;
use label_code::image::Image;
use std::alloc::{AllocError, Global};

// Whether one instruction pushes a number and the next one begins the mitigate with a mark.
fn estimates(one: Work, next: Work, mark: u32) -> bool
    ensures { MatchBool result (Estimates one next mark) (Estimates one next mark → ⊥) }
{
    match (one, next) {
        (Work::Push(_), Work::Mitb { mark: other, .. }) => other == mark,
        _ => false,
    }
}

/// The first place of a number that is pushed for the estimate of the mitigate with a mark, if its estimate is a number.
pub fn place_of(image: &Image, mark: u32) -> Option<u32>
    ensures { MatchOption result ((place : ℕ) → IsPlaceOf image.now.instrs mark place → ⊥) (IsPlaceOf image.now.instrs mark) }
{
    for next in 1..image.len() {
        let place = next - 1;
        if estimates(image.at(place).work, image.at(next).work, mark) {
            return Some(place);
        }
    }
    None
}

// The number that an instruction pushes, or 0.
fn number_of(work: Work) -> i64
    ensures { result ≡ number_of work }
{
    match work {
        Work::Push(number) => number,
        _ => 0,
    }
}

/// The numbers that code pushes, by their places; 0 where none is pushed. Fails only for want of memory.
pub fn numbers_in(alloc: Global, image: &Image) -> Result<Vec<i64>, AllocError>
    ensures { IfOk result (λ numbers. numbers.items ≡ numbers_in image.now.instrs) }
{
    let mut numbers = Vec::new(alloc);
    for place in 0..image.len() {
        let number = number_of(image.at(place).work);
        numbers.push(number)?;
    }
    Ok(numbers)
}
