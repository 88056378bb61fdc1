//! From a start to a machine.

ghost use Rattle.std.specs.Prelude.{◌≡◌, ℕ, IfOk};
ghost use Rattle.label_code.specs.Run.{run_from};
ghost use Rattle.code_lower.specs.Lowered.{lowered};
ghost use Rattle.start_file.specs.Starts.{seen, IsFor};
ghost use Rattle.cycle_machine.specs.Rest.{told_by, rest_of};
ghost use Rattle.leak_audit.specs.Agreement.{start_of};

use cycle_machine::machine::Machine;
use env_contract::env::MachineEnv;
use env_contract::make::MakeEnv;
use label_code::image::Image;
use start_file::start::Start;
use std::alloc::Global;
use text_base::pos::Memory;
use timing_types::labelled::Labelled;

/// A machine at a start of a labelled program's image, in the environment that a maker makes of its touches. Fails only for want of memory.
pub fn load<'a, E: MachineEnv + Drop, M: MakeEnv<E>>(
    alloc: Global,
    maker: &M,
    p: &Labelled,
    image: &'a Image,
    start: &Start,
) -> Result<Machine<'a, E>, Memory>
    requires image { image.now ≡ lowered p.now }
    requires start { IsFor p.now.program (seen start.now) }
    ensures code { IfOk result (λ m. m.code ≡ image.now) }
    ensures runs { IfOk result (λ m. (t : ℕ) → rest_of E.env t m
        ≡ told_by (run_from E.env image.now.instrs t (start_of (M.made maker.now) p.now.program.order (seen start.now)))) }
{
    let env = maker.make(alloc, image.shared_lattice(), start.touches.as_slice())?;
    let memory = start.memory.clone()?;
    let machine = Machine::load(alloc, image, memory, env)?;
    Ok(machine)
}
