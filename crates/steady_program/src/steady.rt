//! The test of a program.

ghost use Rattle.std.specs.Prelude.{◌≡◌, ◌<◌, ◌≤◌, ℕ, IfOk, IfErr, IsTrue, MatchOption, length};
ghost use Rattle.mit_syntax.specs.Declarations.{variables};
ghost use Rattle.label_lattice.specs.Lattice.{IsLattice};
ghost use Rattle.timing_types.specs.Labelling.{variable_of};
ghost use Rattle.timing_types.specs.Labelled.{order_of};
ghost use Rattle.code_lower.specs.Lowered.{lowered, IsLowerFault};
ghost use Rattle.steady_code.specs.View.{label_in};
ghost use Rattle.steady_program.specs.Lowered.{IsEnd, IsSteady, IsFirstFault};

use code_lower::lower::{LowerFault, lower_labelled};
use label_code::image::Image;
use label_lattice::label::Label;
use std::alloc::{AllocError, Global};
use steady_code::check::first_fault;
use steady_code::costing::Costing;
use steady_code::fault::Fault;
use steady_code::tail::last_seen;
use timing_types::labelled::Labelled;

/// The labels of a program's variables, by their numbers.
fn labels(alloc: Global, p: &Labelled) -> Result<Vec<Label>, AllocError>
    ensures { IfOk result (λ v. (x : ℕ) → label_in p.now.program.order v.items x ≡ variable_of p.now.program.order p.now.labels x) }
{
    let count = p.program().variables();
    let mut labels = Vec::with_capacity(alloc, count as usize)?;
    for x in 0..count {
        labels.push(p.variable_label(x))?;
    }
    Ok(labels)
}

/// What is told of a program: its image, and the first fault of that or none, where nothing is asked from the place
/// `end` on.
#[derive(Drop)]
pub struct Answer {
    pub image: Image,
    pub end: u32,
    pub fault: Option<Fault>,
}

/// Whether a labelled program, typed or not, is steady for an observer, where the environments agree in what they keep
/// for labels that flow to `parts`, and operators cost what `costing` says: `steady_programs`, whose premise `lattice`
/// gives, says what is true of its runs then. With `whole` something is asked of each instruction, and so its runs end at one cycle too; else up to the last
/// thing that is seen.
///
/// # Errors
/// Those of `lower_labelled`.
pub fn steady(
    alloc: Global,
    p: &Labelled,
    observer: Label,
    parts: Label,
    costing: Costing,
    whole: bool,
) -> Result<Answer, LowerFault>
    ensures judged { IfOk result (λ a. MatchOption a.fault
        (IsSteady costing p.now observer.number parts.number a.end) (IsFirstFault costing p.now observer.number parts.number a.end)) }
    ensures image { IfOk result (λ a. a.image ≡ lowered p.now) }
    ensures short { IfOk result (λ a. length a.image.instrs ≤ 200000) }
    ensures end { IfOk result (λ a. IsEnd p.now observer.number whole a.end) }
    ensures whole { IfOk result (λ a. IsTrue whole → length (lowered p.now).instrs < a.end) }
    ensures fault { IfErr result (IsLowerFault p.now) }
    ensures lattice { IsLattice (order_of p.now) }
{
    let lattice = p.program().lattice();
    lattice.laws();
    let image = lower_labelled(alloc, p)?;
    let labels = labels(alloc, p)?;
    let end = if whole {
        image.len() + 1
    } else {
        last_seen(lattice, &labels, observer, &image)
    };
    let fault = first_fault(
        alloc, lattice, &labels, observer, parts, costing, &image, end,
    )?;
    Ok(Answer { image, end, fault })
}
