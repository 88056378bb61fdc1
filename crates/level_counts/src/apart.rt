//! Whether the mitigates that are relevant to an observer stand apart.

ghost use Rattle.std.specs.Prelude.{◌≡◌, ◌&&◌, ◌||◌, not, IfOk, slice_index_or, true, false};
ghost use Rattle.mit_syntax.specs.Plan.{Plan, command_plan, list_plan};
ghost use Rattle.mit_syntax.specs.Program.{plan_of};
ghost use Rattle.mit_syntax.specs.Todo.{commands_of};
ghost use Rattle.timing_types.specs.Labelled.{order_of, labels_of, levels_of};
ghost use Rattle.leak_bound.specs.Relevant.{is_relevant};
ghost use Rattle.sharp_bound.specs.Shared.{StandApart};
ghost use Rattle.level_counts.specs.Apart.{finds_apart};

use label_lattice::label::Label;
use leak_audit::relevance::relevant_marks;
use mit_syntax::ast::{Command, Form};
use std::alloc::Global;
use text_base::pos::Memory;
use timing_types::typed::Typed;

// Whether the mitigate with a mark is relevant.
fn is_relevant(relevant: &[bool], mark: u32) -> bool
    ensures { result ≡ slice_index_or relevant.now mark false }
{
    relevant.get(mark as usize).copied().unwrap_or(false)
}

// Whether the body of a mitigate stands in a relevant one: in this one, or in one around it.
fn is_within(inside: bool, here: bool) -> bool
    ensures { result ≡ (inside || here) }
{
    inside || here
}

// Whether a mitigate may stand where it does, and so may what stands in it.
fn may_stand(inside: bool, here: bool, body: bool) -> bool
    ensures { result ≡ (not (inside && here) && body) }
{
    !(inside && here) && body
}

// What the walk finds in a command. By their marks it is told which mitigates are relevant.
#[cycle(apart)]
fn command_apart(c: &Command, relevant: &[bool], inside: bool) -> bool
    ensures { (rest : Plan) → finds_apart (λ k. slice_index_or relevant.now k false) inside (command_plan c.now rest)
        ≡ (result && finds_apart (λ k. slice_index_or relevant.now k false) inside rest) }
{
    match &c.form {
        Form::Skip | Form::Assign { .. } | Form::Put { .. } | Form::Sleep { .. } => true,
        Form::If {
            guard: _,
            then_part,
            else_part,
        } => {
            let one = list_apart(then_part, relevant, inside);
            let other = list_apart(else_part, relevant, inside);
            one && other
        }
        Form::While { guard: _, body } => list_apart(body, relevant, inside),
        Form::Mitigate {
            mark,
            estimate: _,
            level: _,
            body,
        } => {
            let here = is_relevant(relevant, *mark);
            let body = list_apart(body, relevant, is_within(inside, here));
            may_stand(inside, here, body)
        }
    }
}

// What the walk finds in a list.
#[cycle(apart)]
fn list_apart(commands: &[Command], relevant: &[bool], inside: bool) -> bool
    ensures { result ≡ finds_apart (λ k. slice_index_or relevant.now k false) inside (list_plan commands.now) }
{
    for c in commands {
        if !command_apart(c, relevant, inside) {
            return false;
        }
    }
    true
}

/// Whether no mitigate of a program that is relevant to an observer stands in another one that is. The time that it takes
/// grows with the number of commands. Fails only for want of memory.
pub fn stand_apart(alloc: Global, p: &Typed, observer: Label) -> Result<bool, Memory>
    ensures apart { IfOk result (λ b. b ≡ true → StandApart (is_relevant (order_of p.now.labelled) (labels_of p.now.labelled) (levels_of p.now.labelled)
        observer.number (plan_of p.now.labelled.program)) (commands_of (plan_of p.now.labelled.program))) }
    ensures not_apart { IfOk result (λ b. b ≡ false → StandApart (is_relevant (order_of p.now.labelled) (labels_of p.now.labelled)
        (levels_of p.now.labelled) observer.number (plan_of p.now.labelled.program)) (commands_of (plan_of p.now.labelled.program)) → ⊥) }
{
    let relevant = relevant_marks(alloc, p, observer)?;
    let labelled = p.labelled();
    Ok(list_apart(labelled.program().body(), &relevant, false))
}
