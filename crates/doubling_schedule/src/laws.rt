//! What the count that is computed is.

ghost use Rattle.std.specs.Prelude.{ℕ, ℤ};
ghost use Rattle.doubling_schedule.specs.Doubling.{misses_after, Settles};

/// Says nothing at run time: the count that is computed is the least one from the old count on whose prediction is
/// above the elapsed time.
pub fn misses_settle()
    ensures { (estimate : ℤ) (elapsed old : ℕ) → Settles estimate elapsed old (misses_after estimate elapsed old) }
{}
