//! Where a run begins.

ghost use Rattle.std.specs.Prelude.{◌≡◌, length, IfOk};
ghost use Rattle.label_code.specs.Machine.{start};
ghost use Rattle.cycle_machine.specs.Seen.{seen};
ghost use Rattle.cycle_machine.specs.Took.{Stands};

use cycle_machine::state::State;
use doubling_schedule::misses::MissTable;
use env_contract::env::MachineEnv;
use label_code::image::Image;
use std::alloc::Global;
use text_base::pos::Memory;

/// The state at the start of an image, with a value for each variable and the state of the environment. Takes
/// all memory of the run. Fails only for want of memory.
pub fn load<E: MachineEnv + Drop>(
    alloc: Global,
    image: &Image,
    memory: Vec<i64>,
    env: E,
) -> Result<State<E>, Memory>
    requires values { length memory.items ≡ image.now.variables }
    requires serves { E.serves image.now.order env }
    ensures start { IfOk result (λ s. seen s ≡ start memory.items env) }
    ensures memory { IfOk result (λ s. s.memory ≡ memory) }
    ensures env { IfOk result (λ s. s.env ≡ env) }
    ensures stands { IfOk result (Stands E.serves image.now) }
{
    image.laws();
    let operands = Vec::with_capacity(alloc, image.operands() as usize)?;
    let opened = Vec::with_capacity(alloc, image.nesting() as usize)?;
    Ok(State {
        place: 0,
        operands,
        memory,
        opened,
        misses: MissTable::new(),
        env,
        clock: 0,
    })
}
