//! The limits of a machine.

ghost use Rattle.std.specs.Prelude.{◌≡◌, ◌≤◌, ◌↔◌, IsTrue, IfSome};
ghost use Rattle.hardware.specs.Limits.{IsGoodBank, HasGoodBanks, IsCheap, IsWithin, dearest};

use part_tlb::bank::{Bank, Hardware};

/// The most sets of a bank.
pub const MAX_SETS: u32 = 4096;

/// The most ways of a set.
pub const MAX_WAYS: u32 = 8;

/// The most cycles that an access costs beyond its instruction.
pub const MAX_COST: u64 = 1000;

/// Says nothing at run time: what the limits are.
pub fn limits_are()
    ensures sets { MAX_SETS ≡ 4096 }
    ensures ways { MAX_WAYS ≡ 8 }
    ensures cost { MAX_COST ≡ 1000 }
{}

// Whether a bank has sets, ways and bytes, and not more than there may be.
fn is_good(bank: Bank) -> bool
    ensures { IsTrue result ↔ IsGoodBank bank }
{
    bank.sets > 0
        && bank.sets <= MAX_SETS
        && bank.ways > 0
        && bank.ways <= MAX_WAYS
        && bank.bytes > 0
}

// Whether a bank is good, or there is none.
fn is_good_or_none(bank: Option<Bank>) -> bool
    ensures { IsTrue result ↔ IfSome bank IsGoodBank }
{
    match bank {
        None => true,
        Some(bank) => is_good(bank),
    }
}

// The most that a look-up costs: nothing where there is no bank.
fn most(bank: Option<Bank>) -> u64
    ensures value { result ≡ dearest bank }
    ensures small { result ≤ 4294967295 }
{
    match bank {
        None => 0,
        Some(bank) => u64::from(bank.hit.max(bank.miss)),
    }
}

// Whether each bank is a good one.
fn has_good_banks(hardware: Hardware) -> bool
    ensures { IsTrue result ↔ HasGoodBanks hardware }
{
    let buffer = is_good_or_none(hardware.buffer);
    let code = is_good_or_none(hardware.code_cache);
    let data = is_good_or_none(hardware.data_cache);
    let second = is_good_or_none(hardware.second);
    buffer && code && data && second
}

// Whether no access costs too much.
fn is_cheap(hardware: Hardware) -> bool
    ensures { IsTrue result ↔ IsCheap hardware }
{
    let ends = most(hardware.buffer) + most(hardware.second);
    let code = ends + most(hardware.code_cache);
    let data = ends + most(hardware.data_cache);
    code <= MAX_COST && data <= MAX_COST
}

/// Whether the machine is within the limits: each of its banks has 1 to `MAX_SETS` sets of 1 to `MAX_WAYS` ways and at
/// least a byte for a tag, and no access costs more than `MAX_COST`.
pub fn is_within(hardware: Hardware) -> bool
    ensures { IsTrue result ↔ IsWithin hardware }
{
    let banks = has_good_banks(hardware);
    let cheap = is_cheap(hardware);
    banks && cheap
}
