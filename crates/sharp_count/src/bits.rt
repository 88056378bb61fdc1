//! How many bits a count tells.

ghost use Rattle.std.specs.Prelude.{ℕ, ◌≤◌, ◌^◌};

/// The least number of bits that tell so many things apart.
pub fn bits(count: u128) -> u32
    ensures enough { count ≤ 2 ^ result }
    ensures least { (n : ℕ) → count ≤ 2 ^ n → result ≤ n }
{
    if count <= 1 {
        return 0;
    }
    u128::BITS - (count - 1).leading_zeros()
}
