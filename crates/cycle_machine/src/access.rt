//! Accesses of the environment, and the clock.

ghost use Rattle.std.specs.Prelude.{◌≡◌, ◌<◌, ◌≤◌, ◌+◌, ◌*◌, ◌^◌, MatchOption};
ghost use Rattle.label_lattice.specs.Order.{Order};
ghost use Rattle.cycle_machine.specs.Took.{IsServed};

use env_contract::env::{MAX_PENALTY, MachineEnv};
use env_contract::place::Kind;
use label_code::image::MAX_INSTRUCTIONS;
use label_code::places::{code_address, data_address};
use label_lattice::label::Label;
use mit_syntax::declarations::MAX_CELLS;

/// Fetches the instruction at a place, and answers the penalty. Instruction k lies at byte 4k.
#[inline(always)]
pub fn fetch<E: MachineEnv>(env: &mut E, place: u32, er: Label, ew: Label) -> u64
    requires place { place < MAX_INSTRUCTIONS }
    requires served { IsServed E.serves env.old er ew }
    ensures cost { result ≡ E.env.cost_of Kind.Code (4 * place) er.number ew.number env.old }
    ensures next { env.new ≡ E.env.next_of Kind.Code (4 * place) er.number ew.number env.old }
    ensures small { result ≤ MAX_PENALTY }
    ensures serves { (order : Order) → E.serves order env.old → E.serves order env.new }
    ensures served { IsServed E.serves env.new er ew }
{
    u64::from(env.access(Kind::Code, code_address(place), er, ew))
}

/// Accesses the datum of a variable, and answers the penalty. Variable i lies at byte 2^20 + 8i.
#[inline(always)]
pub fn touch<E: MachineEnv>(env: &mut E, variable: u32, er: Label, ew: Label) -> u64
    requires few { variable < MAX_CELLS }
    requires served { IsServed E.serves env.old er ew }
    ensures cost { result ≡ E.env.cost_of Kind.Data (2 ^ 20 + 8 * variable) er.number ew.number env.old }
    ensures next { env.new ≡ E.env.next_of Kind.Data (2 ^ 20 + 8 * variable) er.number ew.number env.old }
    ensures small { result ≤ MAX_PENALTY }
    ensures serves { (order : Order) → E.serves order env.old → E.serves order env.new }
{
    u64::from(env.access(Kind::Data, data_address(variable), er, ew))
}

/// The clock after so many cycles more, if it is not above the limit.
#[inline(always)]
pub fn pass(clock: u64, cycles: u64, limit: u64) -> Option<u64>
    ensures { MatchOption result (limit < clock + cycles) (λ end. (end ≡ clock + cycles) × (end ≤ limit)) }
{
    match clock.checked_add(cycles) {
        Some(end) if end <= limit => Some(end),
        _ => None,
    }
}
