//! Which mitigates are relevant for an observer.

ghost use Rattle.std.specs.Prelude.{◌≡◌, ◌<◌, IfOk};
ghost use Rattle.mit_syntax.specs.Program.{plan_of};
ghost use Rattle.timing_types.specs.Labelled.{order_of, labels_of, levels_of};
ghost use Rattle.leak_bound.specs.Relevant.{relevances};

use label_lattice::label::Label;
use std::alloc::Global;
use text_base::pos::Memory;
use timing_types::typed::Typed;

/// Of each mitigate, by its mark, whether it is relevant for an observer: its program-counter label flows to
/// the observer and its level does not. Fails only for want of memory.
pub fn relevant_marks(alloc: Global, p: &Typed, observer: Label) -> Result<Vec<bool>, Memory>
    ensures { IfOk result (λ v. v.items ≡ relevances (order_of p.now.labelled) (labels_of p.now.labelled) (levels_of p.now.labelled) observer.number
        (order_of p.now.labelled).bottom (plan_of p.now.labelled.program)) }
{
    let labelled = p.labelled();
    let program = labelled.program();
    let lattice = program.lattice();
    lattice.laws();
    program.laws();
    let count = program.mitigates();
    let mut relevant = Vec::with_capacity(alloc, count as usize)?;
    for mark in 0..count {
        let begins_low = lattice.flows(p.mitigate_pc(mark), observer);
        relevant.push(begins_low && !lattice.flows(labelled.level(mark), observer))?;
    }
    Ok(relevant)
}
