//! Two ends between which a number lies.

ghost use Rattle.std.specs.Prelude.{◌≡◌, ◌+◌, ◌<◌, ◌≤◌, ◌^◌, ◌++◌, drop, decimal, length};
ghost use Rattle.leak_numbers.specs.Numbers.{billionths, interval_line};

use crate::line::{put, put_wide};
use itoa::Buffer;
use tim_base::line::Line;

/// A billion.
const BILLION: u128 = 1_000_000_000;

/// A unit of 2^-32 is one by so many.
const UNITS: u128 = 1 << 32;

// Appends nine digits, those of a number after a leading 1.
fn put_digits(line: &mut Line, n: u64)
    requires { length line.old ≤ 140 }
    ensures text { line.new ≡ line.old ++ drop 1 (decimal n) }
    ensures size { length line.new ≤ length line.old + 20 }
{
    let mut buffer = Buffer::new();
    if let Some((_, digits)) = buffer.format(n).as_bytes().split_first() {
        put(line, digits);
    }
}

// Appends a number of billionths.
fn put_billionths(line: &mut Line, n: u128)
    requires { length line.old ≤ 90 }
    ensures text { line.new ≡ line.old ++ billionths n }
    ensures size { length line.new ≤ length line.old + 61 }
{
    put_wide(line, n / BILLION);
    put(line, b".");
    put_digits(line, (BILLION + n % BILLION) as u64);
}

/// Words, and two ends in billionths between which units of 2^-32 lie.
pub(crate) fn interval(words: &[u8], low: u64, high: u128) -> Line
    requires words { length words.now ≤ 12 }
    requires high { high ≤ 2 ^ 65 }
    ensures { result ≡ interval_line words.now low high }
{
    let mut line = Line::new();
    put(&mut line, words);
    put_billionths(&mut line, u128::from(low) * BILLION / UNITS);
    put(&mut line, b" to ");
    put_billionths(&mut line, (high * BILLION + UNITS - 1) / UNITS);
    put(&mut line, b"\n");
    line
}
