//! The lines of a machine file that is refused, and those that tell how a machine is shared.

ghost use Rattle.std.specs.Prelude.{◌≡◌, ◌≤◌, ◌++◌, OnOk, length, codes, decimal};
ghost use Rattle.tool_stages.specs.Envs.{hardware_of};
ghost use Rattle.tool_texts.specs.Reports.{place_name};
ghost use Rattle.machine_stage.specs.Lines.{place_line, machine_fault_line, machine_line, machine_head, no_bound_line};

use env_contract::place::Place;
use machine_file::fault::MachineFault;
use part_tlb::bank::Sharing;
use std::alloc::AllocError;
use tim_base::line::Line;
use tool_stages::envs::{EnvName, Environment};

// The name of a place, as start files and machine files write it.
fn place_name(place: Place) -> &'static [u8]
    ensures name { result.now ≡ place_name place }
    ensures short { length result.now ≤ 6 }
{
    match place {
        Place::Page => b"page",
        Place::Code => b"code",
        Place::Data => b"data",
        Place::Second => b"second",
    }
}

// A line of these words.
fn words(text: &[u8]) -> Line
    requires { length text.now ≤ 160 }
    ensures { result ≡ text.now }
{
    let mut line = Line::new();
    line.put_text(text);
    line
}

// What is wrong at a place.
fn at_place(place: Place, what: &[u8]) -> Line
    requires { length what.now ≤ 32 }
    ensures { result ≡ place_line place what.now }
{
    let mut line = Line::new();
    line.put_text(b"machine: ");
    line.put_text(place_name(place));
    line.put_text(b": ");
    line.put_text(what);
    line.put_text(b"\n");
    line
}

// What an access can cost.
fn costs(most: u64) -> Line
    ensures { result ≡ codes "machine: costs " ++ (decimal most ++ codes "\n") }
{
    let mut line = Line::new();
    line.put_text(b"machine: costs ");
    line.put_unsigned(most);
    line.put_text(b"\n");
    line
}

/// The line of a machine file that is refused.
pub fn machine_fault(fault: MachineFault) -> Line
    ensures { result ≡ machine_fault_line fault }
{
    match fault {
        MachineFault::NotToml => words(b"machine: not TOML\n"),
        MachineFault::Version => words(b"machine: version\n"),
        MachineFault::UnknownKey => words(b"machine: unknown key\n"),
        MachineFault::Sharing => words(b"machine: sharing\n"),
        MachineFault::BadBank(place) => at_place(place, b"not a bank"),
        MachineFault::Replacement(place) => at_place(place, b"replace"),
        MachineFault::Sets(place) => at_place(place, b"sets"),
        MachineFault::Ways(place) => at_place(place, b"ways"),
        MachineFault::Bytes(place) => at_place(place, b"bytes"),
        MachineFault::Costs(most) => costs(most),
        MachineFault::Memory => words(b"memory\n"),
    }
}

/// The line that tells whether each label has a partition of its own.
pub fn machine(sharing: Sharing) -> Line
    ensures { result ≡ machine_line sharing }
{
    match sharing {
        Sharing::Partitioned => words(b"machine partitioned\n"),
        Sharing::Shared => words(b"machine shared\n"),
    }
}

/// How the machine of an environment is shared.
pub fn sharing(environment: Environment) -> Sharing
    ensures { result ≡ (hardware_of environment).sharing }
{
    match environment {
        Environment::Named(EnvName::Flat) => Sharing::Partitioned,
        Environment::Named(EnvName::Part) => Sharing::Partitioned,
        Environment::Named(EnvName::Part2) => Sharing::Partitioned,
        Environment::Described(machine) => machine.hardware.sharing,
    }
}

/// Appends what stands in front of numbers: nothing of a machine that has a name, else how it is shared.
///
/// # Errors
/// `AllocError` where memory runs out.
pub fn put_head(text: &mut Vec<u8>, environment: Environment) -> Result<(), AllocError>
    ensures { OnOk result (text.new.items ≡ text.old.items ++ machine_head environment) }
{
    match environment {
        Environment::Named(_) => Ok(()),
        Environment::Described(described) => {
            let line = machine(described.hardware.sharing);
            text.extend_from_slice(line.bytes())
        }
    }
}

/// The line that stands in place of numbers that rest on laws, where all labels share the banks.
pub fn no_bound() -> Line
    ensures { result ≡ no_bound_line }
{
    words(b"no bound: all labels share the banks, and the law on the write label does not hold\n")
}
