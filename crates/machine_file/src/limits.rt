//! The first limit that a machine breaks.

ghost use Rattle.std.specs.Prelude.{◌≡◌, ◌≤◌, None};
ghost use Rattle.hardware.specs.Limits.{IsWithin, dearest};
ghost use Rattle.machine_file.specs.Files.{bank_fault, most_of_all, cost_fault, limit_fault};

use crate::fault::MachineFault;
use env_contract::place::Place;
use hardware::limits::{MAX_COST, MAX_SETS, MAX_WAYS};
use part_tlb::bank::{Bank, Hardware};

// The first limit that a bank breaks.
fn bank_fault(place: Place, bank: Option<Bank>) -> Option<MachineFault>
    ensures { result ≡ bank_fault place bank }
{
    let bank = bank?;
    if bank.sets == 0 || bank.sets > MAX_SETS {
        return Some(MachineFault::Sets(place));
    }
    if bank.ways == 0 || bank.ways > MAX_WAYS {
        return Some(MachineFault::Ways(place));
    }
    if bank.bytes == 0 {
        return Some(MachineFault::Bytes(place));
    }
    None
}

// The most that a look-up costs: nothing where there is no bank.
fn dearest(bank: Option<Bank>) -> u64
    ensures value { result ≡ dearest bank }
    ensures small { result ≤ 4294967295 }
{
    match bank {
        None => 0,
        Some(bank) => u64::from(bank.hit.max(bank.miss)),
    }
}

// The most that an access costs.
fn most(hardware: Hardware) -> u64
    ensures { result ≡ most_of_all hardware }
{
    let page = dearest(hardware.buffer);
    let code = dearest(hardware.code_cache);
    let line = dearest(hardware.data_cache);
    let second = dearest(hardware.second);
    page + code.max(line) + second
}

// The fault of a machine where an access can cost too much.
fn cost_fault(hardware: Hardware) -> Option<MachineFault>
    ensures { result ≡ cost_fault hardware }
{
    let most = most(hardware);
    if most > MAX_COST {
        return Some(MachineFault::Costs(most));
    }
    None
}

/// The first limit that the machine breaks: place by place the sets of its bank, the ways and the bytes of a tag, and
/// last what an access can cost.
pub fn limit_fault(hardware: Hardware) -> Option<MachineFault>
    ensures value { result ≡ limit_fault hardware }
    ensures within { result ≡ None → IsWithin hardware }
{
    let page = bank_fault(Place::Page, hardware.buffer);
    let code = bank_fault(Place::Code, hardware.code_cache);
    let line = bank_fault(Place::Data, hardware.data_cache);
    let second = bank_fault(Place::Second, hardware.second);
    let costs = cost_fault(hardware);
    page.or(code.or(line.or(second.or(costs))))
}
