ghost use Rattle.std.specs.Prelude.{◌≡◌, ◌^◌, ◌≤◌, max};
ghost use Rattle.doubling_schedule.specs.Doubling.{at_least_zero, prediction};

// The estimate, or 1 if it is less.
fn at_least_one(estimate: i64) -> u64
    ensures value { result ≡ max (at_least_zero estimate) 1 }
    ensures small { result ≤ 2 ^ 63 }
{
    if estimate < 1 { 1 } else { estimate as u64 }
}

/// The prediction in cycles for an estimate after so many misses, of which there are at most 64.
pub fn predicted(estimate: i64, misses: u8) -> u128
    requires { misses ≤ 64 }
    ensures value { result ≡ prediction estimate misses }
    ensures small { result ≤ 2 ^ 127 }
{
    u128::from(at_least_one(estimate)) * 2u128.pow(u32::from(misses))
}
