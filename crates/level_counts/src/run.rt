//! One run, without its time.

ghost use Rattle.std.specs.Prelude.{◌≡◌, ◌<◌, ◌≤◌, ◌^◌, ℕ, [], ◌∷◌, IfOk, length, map};
ghost use Rattle.mit_syntax.specs.Expression.{expression_of};
ghost use Rattle.mit_syntax.specs.Declarations.{variables};
ghost use Rattle.mit_syntax.specs.Program.{plan_of};
ghost use Rattle.timing_types.specs.Labelled.{order_of, labels_of, levels_of};
ghost use Rattle.source_meaning.specs.Source.{HasEnded};
ghost use Rattle.leak_bound.specs.Relevant.{relevances};
ghost use Rattle.level_counts.specs.Estimates.{estimates_of};
ghost use Rattle.level_counts.specs.Begun.{AreTold};

use crate::note::{note, store};
use mit_syntax::ast::Expr;
use sharp_count::count::LevelRuns;
use source_meaning::walk::Walk;
use source_meaning::walker::Walker;
use std::alloc::Global;
use text_base::pos::Memory;
use timing_types::labelled::Labelled;

/// What is told of the levels of a run that begins nothing.
const NONE: LevelRuns = LevelRuns {
    mitigations: 0,
    first: 0,
};

/// What the run from a memory begins of each level. By their marks it is told which mitigates are relevant, and what
/// their estimates are. So many steps are enough for the run to end. Fails only for want of memory.
pub fn run_levels(
    alloc: Global,
    p: &Labelled,
    relevant: &[bool],
    estimates: &[&Expr],
    memory: &[i64],
    steps: u64,
) -> Result<Vec<LevelRuns>, Memory>
    requires estimates { map (λ e. expression_of e.now) estimates.now ≡ estimates_of (plan_of p.now.program) }
    requires long { length memory.now ≡ variables p.now.program.declarations }
    requires ends { HasEnded (plan_of p.now.program) memory.now steps }
    ensures { IfOk result (λ v. (o : ℕ) → relevant.now
        ≡ relevances (order_of p.now) (labels_of p.now) (levels_of p.now) o (order_of p.now).bottom (plan_of p.now.program)
        → AreTold p.now o (memory.now ∷ []) v.items) }
{
    let program = p.program();
    program.laws();
    let mut levels = vec![in alloc; NONE; program.lattice().size() as usize]?;
    let mut walker = Walker::new(alloc, program, memory)?;
    let mut memory = Vec::from_slice(alloc, memory)?;
    for taken in 0..steps {
        let walk = walker.step()?;
        if let Walk::Ended = walk {
            return Ok(levels);
        }
        note(p, relevant, estimates, walk, &memory, &mut levels);
        store(walk, &mut memory);
    }
    Ok(levels)
}
