//! What is told of the levels of a list of runs.

ghost use Rattle.std.specs.Prelude.{◌≡◌, ◌<◌, ℕ, All, IfOk, length, map};
ghost use Rattle.mit_syntax.specs.Program.{plan_of};
ghost use Rattle.source_meaning.specs.Source.{HasEnded};
ghost use Rattle.start_file.specs.Starts.{seen, IsFor};
ghost use Rattle.sharp_count.specs.Levels.{told_of};
ghost use Rattle.level_counts.specs.Begun.{AreTold, memories_of};
ghost use Rattle.level_counts.specs.Noted.{with_first};

use crate::estimates::estimates;
use crate::note::lesser;
use crate::run::run_levels;
use label_lattice::label::Label;
use leak_audit::relevance::relevant_marks;
use sharp_count::count::LevelRuns;
use start_file::start::Start;
use std::alloc::Global;
use text_base::pos::Memory;
use timing_types::typed::Typed;

// Takes the first predictions of one run more.
fn take_firsts(levels: &mut Vec<LevelRuns>, run: &[LevelRuns])
    requires { length levels.old.items ≡ length run.now }
    ensures size { length levels.new.items ≡ length levels.old.items }
    ensures told { (l : ℕ) → told_of levels.new.items l ≡ with_first (told_of levels.old.items l) (told_of run.now l) }
{
    for l in 0..run.len() {
        let told = levels[l];
        levels[l] = LevelRuns {
            mitigations: told.mitigations,
            first: lesser(told.first, run[l].first),
        };
    }
}

/// What the runs of a program from a list of starts begin of each level, by its number: how many mitigations of that
/// level that are relevant to an observer the first run begins, and the least of their first predictions in all runs, 0
/// where there is none. So many steps are enough for each run to end. The runs are taken without their time. Fails only
/// for want of memory.
pub fn level_counts(
    alloc: Global,
    p: &Typed,
    starts: &[Start],
    observer: Label,
    steps: u64,
) -> Result<Vec<LevelRuns>, Memory>
    requires some { 0 < length starts.now }
    requires starts { All (IsFor p.now.labelled.program) (map seen starts.now) }
    requires ends { All (λ s. HasEnded (plan_of p.now.labelled.program) s.memory steps) (map seen starts.now) }
    ensures { IfOk result (λ v. AreTold p.now.labelled observer.number (memories_of (map seen starts.now)) v.items) }
{
    let labelled = p.labelled();
    let relevant = relevant_marks(alloc, p, observer)?;
    let estimates = estimates(alloc, labelled.program())?;
    let memory = starts[0].memory.as_slice();
    let mut levels = run_levels(alloc, labelled, &relevant, &estimates, memory, steps)?;
    for i in 1..starts.len() {
        let memory = starts[i].memory.as_slice();
        let run = run_levels(alloc, labelled, &relevant, &estimates, memory, steps)?;
        take_firsts(&mut levels, &run);
    }
    Ok(levels)
}
