//! Numbers and intervals of them, as a file writes them.

ghost use Rattle.std.specs.Prelude.{◌≡◌, ◌≤◌, ◌<◌, ◌-◌, ◌^◌, ◌&&◌, ◌==◌, nat_lt, slice_index, length, position, IfSome, Some};
ghost use Rattle.space_starts.specs.Space.{IsInterval};
ghost use Rattle.space_file.specs.Ranges.{with_digit, natural_of, number_of, between, ends_of, parted_at, item_of, only};

use space_starts::space::Interval;

/// The greatest number of 64 bits with a sign, and the least without its sign.
const MAX_NUMBER: u64 = (1 << 63) - 1;

const MAX_BELOW_ZERO: u64 = 1 << 63;

/// One value.
pub(crate) fn only(value: i64) -> Interval
    ensures value { result ≡ only value }
    ensures is { IsInterval result }
{
    Interval {
        first: value,
        more: 0,
    }
}

// A number with one digit more.
fn with_digit(most: u64, number: u64, byte: u8) -> Option<u64>
    ensures value { result ≡ with_digit most number byte }
    ensures few { IfSome result (λ n. n ≤ most) }
{
    if !byte.is_ascii_digit() {
        return None;
    }
    let more = u128::from(number) * 10 + u128::from(byte - b'0');
    if more <= u128::from(most) {
        Some(more as u64)
    } else {
        None
    }
}

// The number that at least one digit writes, if it is not above a limit.
fn natural(most: u64, digits: &[u8]) -> Option<u64>
    ensures value { result ≡ natural_of most digits.now }
    ensures few { IfSome result (λ n. n ≤ most) }
{
    if digits.is_empty() {
        return None;
    }
    let mut number = 0;
    for byte in digits {
        number = with_digit(most, number, *byte)?;
    }
    Some(number)
}

// The number that digits write, after a minus sign or not.
fn number(text: &[u8]) -> Option<i64>
    ensures { result ≡ number_of text.now }
{
    let (first, rest) = text.split_first()?;
    if *first == b'-' {
        let number = natural(MAX_BELOW_ZERO, rest)?;
        return Some((-i128::from(number)) as i64);
    }
    let number = natural(MAX_NUMBER, text)?;
    Some(number as i64)
}

// The numbers from one to another one.
fn between(first: i64, last: i64) -> Option<Interval>
    ensures value { result ≡ between first last }
    ensures is { IfSome result IsInterval }
{
    if first <= last {
        Some(Interval {
            first,
            more: last.abs_diff(first),
        })
    } else {
        None
    }
}

// Whether a point stands at a place.
fn is_point(text: &[u8], place: usize) -> bool
    ensures { result ≡ (nat_lt place (length text.now) && (slice_index text.now place == 46)) }
{
    place < text.len() && text[place] == b'.'
}

// The numbers from the one that digits write to another one.
fn ends(first: &[u8], last: &[u8]) -> Option<Interval>
    ensures value { result ≡ ends_of first.now last.now }
    ensures is { IfSome result IsInterval }
{
    let first = number(first)?;
    let last = number(last)?;
    between(first, last)
}

// The interval of a text whose first point stands at a place.
fn parted(text: &[u8], point: usize) -> Option<Interval>
    requires { point < length text.now }
    ensures value { result ≡ parted_at text.now (Some point) }
    ensures is { IfSome result IsInterval }
{
    if !is_point(text, point + 1) {
        return None;
    }
    ends(&text[..point], &text[point + 2..])
}

// The place of the first point.
fn first_point(text: &[u8]) -> Option<usize>
    ensures value { result ≡ position (λ b. b == 46) text.now }
    ensures inside { IfSome result (λ k. k < length text.now) }
{
    text.iter().position(|byte| *byte == b'.')
}

/// The numbers of an item: one, or those from one to another one.
pub(crate) fn item(text: &[u8]) -> Option<Interval>
    ensures value { result ≡ item_of text.now }
    ensures is { IfSome result IsInterval }
{
    match first_point(text) {
        Some(point) => parted(text, point),
        None => {
            let number = number(text)?;
            Some(only(number))
        }
    }
}
