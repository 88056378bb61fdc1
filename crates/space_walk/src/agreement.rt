//! Whether all starts of a space agree for an observer.

ghost use Rattle.std.specs.Prelude.{◌≡◌, ◌<◌, nat_lt, true, false, MatchOption, IfOk, length};
ghost use Rattle.label_lattice.specs.Lattice.{Flows};
ghost use Rattle.mit_syntax.specs.Declarations.{variables};
ghost use Rattle.timing_types.specs.Labelled.{order_of, labels_of};
ghost use Rattle.space_starts.specs.Space.{many, lists, seen, IsSpaceFor};
ghost use Rattle.space_walk.specs.Agreeing.{IsFirstRanging, NoneRanges, AllAgree};

use env_contract::env::MachineEnv;
use env_contract::make::MakeEnv;
use label_lattice::label::Label;
use space_starts::space::{Interval, Space};
use std::alloc::Global;
use text_base::pos::Memory;
use timing_types::labelled::Labelled;

// Whether there are two values or more.
fn are_several(values: &[Interval]) -> bool
    ensures { result ≡ nat_lt 1 (many values.now) }
{
    let Some((first, others)) = values.split_first() else {
        return false;
    };
    first.more > 0 || !others.is_empty()
}

// Whether an observer sees a variable that has these values, and these are two or more.
fn ranges(p: &Labelled, observer: Label, x: u32, values: &[Interval]) -> bool
    requires observer { observer.number < p.now.program.order.size }
    requires variable { x < variables p.now.program.declarations }
    ensures yes { result ≡ true → Flows (order_of p.now) (labels_of p.now x) observer.number × (1 < many values.now) }
    ensures no { result ≡ false → Flows (order_of p.now) (labels_of p.now x) observer.number → 1 < many values.now → ⊥ }
{
    if !are_several(values) {
        return false;
    }
    let lattice = p.program().lattice();
    lattice.flows(p.variable_label(x), observer)
}

/// The first variable that an observer sees and that has two values or more, of variables that have these values.
pub fn first_ranging(p: &Labelled, observer: Label, memory: &[Vec<Interval>]) -> Option<u32>
    requires observer { observer.number < p.now.program.order.size }
    requires memory { length memory.now ≡ variables p.now.program.declarations }
    ensures { MatchOption result (NoneRanges p.now observer.number (lists memory.now)) (IsFirstRanging p.now observer.number (lists memory.now)) }
{
    for x in 0..p.program().variables() {
        if ranges(p, observer, x, memory[x as usize].as_slice()) {
            return Some(x);
        }
    }
    None
}

/// Whether each two starts of a space agree for an observer, each with the environment that the touches make: `None`; or
/// else the first variable that the observer sees and that has two values or more. Looks once at each variable, and fails
/// only for want of memory.
pub fn space_agrees<E: MachineEnv + Drop, M: MakeEnv<E>>(
    alloc: Global,
    p: &Labelled,
    space: &Space,
    observer: Label,
    make: &M,
) -> Result<Option<u32>, Memory>
    requires observer { observer.number < p.now.program.order.size }
    requires space { IsSpaceFor p.now.program (seen space.now) }
    ensures { IfOk result (λ r. MatchOption r (AllAgree E.env E.serves (M.made make.now) p.now observer.number (seen space.now))
        (IsFirstRanging p.now observer.number (lists space.now.memory.items))) }
{
    if let Some(x) = first_ranging(p, observer, space.memory.as_slice()) {
        return Ok(Some(x));
    }
    let lattice = p.program().shared_lattice();
    let _made = make.make(alloc, lattice, space.touches.as_slice())?;
    Ok(None)
}
