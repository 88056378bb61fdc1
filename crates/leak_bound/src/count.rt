//! The numbers of the bound.

ghost use Rattle.std.specs.Prelude.{◌≡◌, ◌<◌, ◌≤◌, ◌^◌, ◌↔◌, ℕ, IsTrue};
ghost use Rattle.leak_bound.specs.Digits.{digits};

/// How many binary digits a number of cycles has. The number is at least 1.
pub fn digits(t: u64) -> u32
    requires { 0 < t }
    ensures { result ≡ digits t }
{
    u64::BITS - t.leading_zeros()
}

/// Whether `count` is at most `base` to the power of `exponent`, whatever the size of the power. The base
/// is at least 1.
pub fn within(count: u64, base: u64, exponent: u32) -> bool
    requires { 0 < base }
    ensures { IsTrue result ↔ (count ≤ base ^ exponent) }
{
    if count <= 1 {
        return true;
    }
    if base == 1 {
        return false;
    }
    let mut power: u64 = 1;
    for _ in 0..exponent {
        let Some(next) = power.checked_mul(base) else {
            return true;
        };
        if next >= count {
            return true;
        }
        power = next;
    }
    false
}
