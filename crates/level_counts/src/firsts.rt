//! The first predictions of the mitigations that runs begin, by their places.

ghost use Rattle.std.specs.Prelude.{◌≡◌, ◌<◌, ◌≤◌, ◌^◌, ℕ, [], All, IfOk, OnOk, length, map, replicate, slice_index_or, false};
ghost use Rattle.mit_syntax.specs.Expression.{expression_of};
ghost use Rattle.mit_syntax.specs.Declarations.{variables};
ghost use Rattle.mit_syntax.specs.Plan.{mitigates};
ghost use Rattle.mit_syntax.specs.Program.{plan_of};
ghost use Rattle.timing_types.specs.Labelled.{order_of, labels_of, levels_of};
ghost use Rattle.source_meaning.specs.InRange.{IsIn};
ghost use Rattle.source_meaning.specs.Source.{HasEnded};
ghost use Rattle.start_file.specs.Starts.{seen, IsFor};
ghost use Rattle.leak_bound.specs.Relevant.{relevances};
ghost use Rattle.own_firsts.specs.Count.{many_at, first_at};
ghost use Rattle.level_counts.specs.Begun.{memories_of};
ghost use Rattle.level_counts.specs.Estimates.{estimates_of};
ghost use Rattle.level_counts.specs.Listed.{lists, IsListed, AreListed};
ghost use Rattle.level_counts.specs.Noted.{lesser, begun, with_listed};

use crate::estimates::estimates;
use crate::note::{Mitigation, begun, lesser, store};
use label_lattice::label::Label;
use leak_audit::relevance::relevant_marks;
use mit_syntax::ast::Expr;
use mit_syntax::declarations::MAX_CELLS;
use source_meaning::walk::Walk;
use source_meaning::walker::Walker;
use start_file::start::Start;
use std::alloc::{AllocError, Global};
use text_base::pos::Memory;
use timing_types::labelled::Labelled;
use timing_types::typed::Typed;

// So many lists of nothing.
fn empty_lists(alloc: Global, many: usize) -> Result<Vec<Vec<u64>>, AllocError>
    ensures { IfOk result (λ v. lists v.items ≡ replicate many []) }
{
    let mut listed = Vec::new(alloc);
    for _ in 0..many {
        listed.push(Vec::new(alloc))?;
    }
    Ok(listed)
}

// Lists the first prediction of a mitigation under its level.
fn list(listed: &mut Vec<Vec<u64>>, begun: Mitigation) -> Result<(), AllocError>
    requires { begun.level < length listed.old.items }
    ensures { OnOk result (lists listed.new.items ≡ with_listed (Some begun) (lists listed.old.items)) }
{
    listed[begun.level].push(begun.first)?;
    Ok(())
}

// Lists the first prediction of the mitigation that a step began, if it is relevant.
fn note_first(
    p: &Labelled,
    relevant: &[bool],
    estimates: &[&Expr],
    walk: Walk,
    memory: &[i64],
    listed: &mut Vec<Vec<u64>>,
) -> Result<(), AllocError>
    requires fit { length estimates.now ≡ mitigates (plan_of p.now.program) }
    requires within { All (IsIn (length memory.now)) (map (λ e. expression_of e.now) estimates.now) }
    requires few { length memory.now ≤ MAX_CELLS }
    requires levels { length (lists listed.old.items) ≡ p.now.program.order.size }
    ensures { OnOk result (lists listed.new.items ≡ with_listed (begun (λ k. slice_index_or relevant.now k false) (levels_of p.now)
        (map (λ e. expression_of e.now) estimates.now) walk memory.now) (lists listed.old.items)) }
{
    match begun(p, relevant, estimates, walk, memory) {
        Some(begun) => list(listed, begun),
        None => Ok(()),
    }
}

// The first predictions of the mitigations of each level that the run from a memory begins. By their marks it is told which
// mitigates are relevant, and what their estimates are. So many steps are enough for the run to end. Fails only for want of
// memory.
fn run_firsts(
    alloc: Global,
    p: &Labelled,
    relevant: &[bool],
    estimates: &[&Expr],
    memory: &[i64],
    steps: u64,
) -> Result<Vec<Vec<u64>>, Memory>
    requires estimates { map (λ e. expression_of e.now) estimates.now ≡ estimates_of (plan_of p.now.program) }
    requires long { length memory.now ≡ variables p.now.program.declarations }
    requires ends { HasEnded (plan_of p.now.program) memory.now steps }
    ensures { IfOk result (λ v. (o : ℕ) → relevant.now
        ≡ relevances (order_of p.now) (labels_of p.now) (levels_of p.now) o (order_of p.now).bottom (plan_of p.now.program)
        → IsListed p.now o memory.now (lists v.items)) }
{
    let program = p.program();
    program.laws();
    let mut listed = empty_lists(alloc, program.lattice().size() as usize)?;
    let mut walker = Walker::new(alloc, program, memory)?;
    let mut memory = Vec::from_slice(alloc, memory)?;
    for taken in 0..steps {
        let walk = walker.step()?;
        if let Walk::Ended = walk {
            return Ok(listed);
        }
        note_first(p, relevant, estimates, walk, &memory, &mut listed)?;
        store(walk, &mut memory);
    }
    Ok(listed)
}

// Takes at each place the lesser first prediction, as far as there is another one.
fn take_places(places: &mut Vec<u64>, run: &[u64])
    ensures long { length places.new.items ≡ length places.old.items }
    ensures lesser { (i : ℕ) → i < length places.old.items
        → slice_index_or places.new.items i 0 ≡ lesser (slice_index_or places.old.items i 0) (slice_index_or run.now i 0) }
{
    for i in 0..places.len().min(run.len()) {
        places[i] = lesser(places[i], run[i]);
    }
}

// So it is for each level of one run more.
fn take_run(listed: &mut Vec<Vec<u64>>, run: &[Vec<u64>])
    requires { length listed.old.items ≡ length run.now }
    ensures size { length listed.new.items ≡ length listed.old.items }
    ensures long { (l : ℕ) → many_at (lists listed.new.items) l ≡ many_at (lists listed.old.items) l }
    ensures lesser { (l i : ℕ) → i < many_at (lists listed.old.items) l
        → first_at (lists listed.new.items) l i ≡ lesser (first_at (lists listed.old.items) l i) (first_at (lists run.now) l i) }
{
    for l in 0..run.len() {
        take_places(&mut listed[l], run[l].as_slice());
    }
}

/// The first predictions of the mitigations that the runs of a program from a list of starts begin, for each level, in the order
/// in which they begin: of those that are relevant to an observer. There is a place for each one that the first run begins,
/// and at each place the least of all runs. So many steps are enough for each run to end. The runs are taken without their
/// time. Fails only for want of memory.
pub fn first_predictions(
    alloc: Global,
    p: &Typed,
    starts: &[Start],
    observer: Label,
    steps: u64,
) -> Result<Vec<Vec<u64>>, Memory>
    requires some { 0 < length starts.now }
    requires starts { All (IsFor p.now.labelled.program) (map seen starts.now) }
    requires ends { All (λ s. HasEnded (plan_of p.now.labelled.program) s.memory steps) (map seen starts.now) }
    ensures { IfOk result (λ v. AreListed p.now.labelled observer.number (memories_of (map seen starts.now)) (lists v.items)) }
{
    let labelled = p.labelled();
    let relevant = relevant_marks(alloc, p, observer)?;
    let estimates = estimates(alloc, labelled.program())?;
    let memory = starts[0].memory.as_slice();
    let mut listed = run_firsts(alloc, labelled, &relevant, &estimates, memory, steps)?;
    for i in 1..starts.len() {
        let memory = starts[i].memory.as_slice();
        let run = run_firsts(alloc, labelled, &relevant, &estimates, memory, steps)?;
        take_run(&mut listed, &run);
    }
    Ok(listed)
}
