//! What a step adds to what is told of the levels.

ghost use Rattle.std.specs.Prelude.{◌≡◌, ◌<◌, ◌≤◌, ◌+◌, ◌^◌, ℕ, All, IfSome, length, map, slice_set, slice_index_or, Bool, false};
ghost use Rattle.mit_syntax.specs.Expression.{expression_of};
ghost use Rattle.mit_syntax.specs.Plan.{mitigates};
ghost use Rattle.mit_syntax.specs.Program.{plan_of};
ghost use Rattle.doubling_schedule.specs.Doubling.{prediction};
ghost use Rattle.timing_types.specs.Labelled.{levels_of};
ghost use Rattle.source_meaning.specs.InRange.{IsIn};
ghost use Rattle.sharp_count.specs.Levels.{told_of};
ghost use Rattle.level_counts.specs.Noted.{lesser, with_one, with_first, begun, noted, stored};

use mit_syntax::ast::Expr;
use mit_syntax::declarations::MAX_CELLS;
use sharp_count::count::LevelRuns;
use source_meaning::value::value;
use source_meaning::walk::Walk;
use timing_types::labelled::Labelled;

// What a mitigation is predicted to last while none of its level has missed.
fn first_prediction(estimate: i64) -> u64
    ensures value { result ≡ prediction estimate 0 }
{
    if estimate < 1 { 1 } else { estimate as u64 }
}

/// The lesser of two first predictions, where 0 stands for none.
pub fn lesser(a: u64, b: u64) -> u64
    ensures { result ≡ lesser a b }
{
    if a == 0 {
        b
    } else if b == 0 {
        a
    } else {
        a.min(b)
    }
}

// Counts a mitigation of a level with a first prediction.
fn count(levels: &mut Vec<LevelRuns>, level: usize, first: u64)
    requires level { level < length levels.old.items }
    requires room { (told_of levels.old.items level).mitigations + 1 < 2 ^ 64 }
    ensures { levels.new.items ≡ slice_set levels.old.items level (with_one (told_of levels.old.items level) first) }
{
    let told = levels[level];
    levels[level] = LevelRuns {
        mitigations: told.mitigations + 1,
        first: lesser(told.first, first),
    };
}

/// A mitigation that a step began.
#[derive(Clone, Copy, Debug, PartialEq, Eq)]
pub struct Mitigation {
    /// The number of its level.
    pub level: usize,
    /// Its first prediction.
    pub first: u64,
}

/// The mitigation that a step began, if it is relevant. By their marks it is told which mitigates are, and what their estimates
/// are.
pub fn begun(
    p: &Labelled,
    relevant: &[bool],
    estimates: &[&Expr],
    walk: Walk,
    memory: &[i64],
) -> Option<Mitigation>
    requires fit { length estimates.now ≡ mitigates (plan_of p.now.program) }
    requires within { All (IsIn (length memory.now)) (map (λ e. expression_of e.now) estimates.now) }
    requires few { length memory.now ≤ MAX_CELLS }
    ensures is { result ≡ begun (λ k. slice_index_or relevant.now k false) (levels_of p.now) (map (λ e. expression_of e.now) estimates.now) walk memory.now }
    ensures below { IfSome result (λ b. b.level < p.now.program.order.size) }
{
    let Walk::Began(mark) = walk else {
        return None;
    };
    let k = mark as usize;
    if !relevant.get(k).copied().unwrap_or(false) {
        return None;
    }
    let Some(estimate) = estimates.get(k) else {
        return None;
    };
    Some(Mitigation {
        level: usize::from(p.level(mark).number),
        first: first_prediction(value(estimate, memory)),
    })
}

/// Counts the mitigation that a step began, if it is relevant.
pub fn note(
    p: &Labelled,
    relevant: &[bool],
    estimates: &[&Expr],
    walk: Walk,
    memory: &[i64],
    levels: &mut Vec<LevelRuns>,
)
    requires fit { length estimates.now ≡ mitigates (plan_of p.now.program) }
    requires within { All (IsIn (length memory.now)) (map (λ e. expression_of e.now) estimates.now) }
    requires few { length memory.now ≤ MAX_CELLS }
    requires levels { length levels.old.items ≡ p.now.program.order.size }
    requires room { (l : ℕ) → (told_of levels.old.items l).mitigations + 1 < 2 ^ 64 }
    ensures { levels.new.items ≡ noted (λ k. slice_index_or relevant.now k false) (levels_of p.now) (map (λ e. expression_of e.now) estimates.now) walk
        memory.now levels.old.items }
{
    if let Some(begun) = begun(p, relevant, estimates, walk, memory) {
        count(levels, begun.level, begun.first);
    }
}

/// Gives a variable that a step assigned its value.
pub fn store(walk: Walk, memory: &mut Vec<i64>)
    ensures { memory.new.items ≡ stored walk memory.old.items }
{
    if let Walk::Assigned(x, n) = walk {
        if let Some(cell) = memory.get_mut(x as usize) {
            *cell = n;
        }
    }
}
