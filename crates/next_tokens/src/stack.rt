//! What is still to be read of a program: parts, of which the last is read first.

ghost use Rattle.std.specs.Prelude.{◌≡◌, IfOk, cond, is_some, Some, None};
ghost use Rattle.mit_parser.specs.Words.{Symbol};
ghost use Rattle.mit_parser.specs.Machine.{step};
ghost use Rattle.next_tokens.specs.Sorts.{sort_of};
ghost use Rattle.next_tokens.specs.Parts.{left_of};

use crate::part::{Move, Part, meet};
use crate::sort::Sort;
use std::alloc::AllocError;

/// Whether a token of a sort can stand before these parts.
pub fn takes(parts: &[Part], sort: Sort) -> bool
    ensures { (w : Symbol) → sort_of w ≡ sort → result ≡ is_some (step (left_of parts.now) w) }
{
    let mut i = parts.len();
    while i > 0 {
        i -= 1;
        match meet(parts[i], sort) {
            Move::Stuck => return false,
            Move::Over => (),
            Move::Goes(_) => return true,
        }
    }
    false
}

/// Reads a token of a sort, if it can stand before these parts, and says whether it can.
pub fn take(parts: &mut Vec<Part>, sort: Sort) -> Result<bool, AllocError>
    ensures { IfOk result (λ taken. (w : Symbol) → sort_of w ≡ sort
        → step (left_of parts.old.items) w ≡ cond taken (Some (left_of parts.new.items)) None) }
{
    while let Some(part) = parts.pop() {
        match meet(part, sort) {
            Move::Stuck => return Ok(false),
            Move::Over => (),
            Move::Goes(after) => {
                parts.extend_from_slice(after)?;
                return Ok(true);
            }
        }
    }
    Ok(false)
}
