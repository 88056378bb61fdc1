//! Bounds of what operators make.

ghost use Rattle.std.specs.Prelude.{◌≡◌};
ghost use Rattle.steady_code.specs.Steady.{sized as bound_sized, sum_bound, product_bound, quotient_bound, remainder_bound};
ghost use Rattle.steady_code.specs.Steady.{lesser as lesser_bound, one_less as less_by_one, is_small as small};

use crate::tag::Tag;

/// The greatest bound that is told: nothing up to it wraps.
const MOST: u128 = 1 << 62;

/// A bound, up to 2^62.
pub(crate) fn sized(bound: u128) -> Option<u64>
    ensures { result ≡ bound_sized bound }
{
    if bound <= MOST {
        Some(bound as u64)
    } else {
        None
    }
}

/// The bound of a sum or a difference.
pub(crate) fn sum(left: Option<u64>, right: Option<u64>) -> Option<u64>
    ensures { result ≡ sum_bound left right }
{
    match (left, right) {
        (Some(left), Some(right)) => sized(u128::from(left) + u128::from(right)),
        _ => None,
    }
}

/// The bound of a product.
pub(crate) fn product(left: Option<u64>, right: Option<u64>) -> Option<u64>
    ensures { result ≡ product_bound left right }
{
    match (left, right) {
        (Some(left), Some(right)) => sized(u128::from(left) * u128::from(right)),
        _ => None,
    }
}

/// The bound of a quotient: that of its dividend.
pub(crate) fn quotient(dividend: Option<u64>) -> Option<u64>
    ensures { result ≡ quotient_bound dividend }
{
    match dividend {
        Some(bound) => sized(u128::from(bound)),
        None => None,
    }
}

/// The lesser of two bounds.
fn lesser(one: Option<u64>, other: Option<u64>) -> Option<u64>
    ensures { result ≡ lesser_bound one other }
{
    match (one, other) {
        (Some(one), Some(other)) => Some(one.min(other)),
        (Some(bound), None) | (None, Some(bound)) => Some(bound),
        (None, None) => None,
    }
}

/// A bound less by one, at least 0.
fn one_less(bound: Option<u64>) -> Option<u64>
    ensures { result ≡ less_by_one bound }
{
    match bound {
        Some(bound) => Some(bound.saturating_sub(1)),
        None => None,
    }
}

/// The bound of a remainder: that of its dividend, and less than that of a divisor that is not 0. By 0 the dividend
/// remains.
pub(crate) fn remainder(dividend: Option<u64>, divisor: Tag) -> Option<u64>
    ensures { result ≡ remainder_bound dividend divisor }
{
    if divisor.nonzero {
        return lesser(dividend, one_less(divisor.bound));
    }
    dividend
}

/// Whether all within a bound is short: at least -32768 and at most 32767.
pub(crate) fn is_small(bound: Option<u64>) -> bool
    ensures { result ≡ small bound }
{
    match bound {
        Some(bound) => bound <= 32767,
        None => false,
    }
}
