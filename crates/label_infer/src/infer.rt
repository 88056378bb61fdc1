//! The least labelling.

ghost use Rattle.std.specs.Prelude.{◌≡◌, ◌<◌, ◌≤◌, ◌+◌, ℕ, IfOk, IfErr};
ghost use Rattle.mit_syntax.specs.Valid.{IsValid};
ghost use Rattle.label_infer.specs.Least.{IsLeast, TypesMost};
ghost use Rattle.label_infer.specs.Work.{IsDone, IsWorkOf, IsWithin, ChainsHaveUpTo, shares_of};

use crate::complete::complete;
use crate::steps::Steps;
use crate::worklist::Worklist;
use mit_syntax::program::Program;
use std::alloc::Global;
use std::marker::Brand;
use std::sync::ledger::{Blank, Ledger};
use text_base::pos::Memory;
use timing_types::labelled::Labelled;

/// Takes conditions up until none waits.
fn settle<L: Ledger>(p: &Program, work: &mut Worklist<'_>, steps: &mut Steps<L>)
    requires work { IsWorkOf p.now work.old }
    requires within { (c : ℕ) → IsWithin work.old c 0 }
    ensures valid { IsValid p.now }
    ensures work { IsWorkOf p.now work.new }
    ensures done { IsDone work.new }
    ensures steps { (c : ℕ) → ChainsHaveUpTo p.now.order c → steps.new ≤ steps.old + shares_of p.now c }
{
    p.laws();
    while work.take_up(steps) {}
}

/// The least labelling of a program, with its steps counted. A step takes up one condition of the walk whose
/// right side is an omitted label. Each such condition has a share of steps: one, and one more for each rise of
/// a label in its left side, of which each has fewer than the longest chain of labels has labels; the steps are
/// at most the sum of the shares.
///
/// # Errors
/// `Memory` is want of memory; then the program comes back.
pub fn infer_counted<L: Ledger>(
    alloc: Global,
    p: Program,
    steps: &mut Steps<L>,
) -> Result<Labelled, (Program, Memory)>
    ensures program { IfOk result (λ q. q.program ≡ p) }
    ensures least { IfOk result (λ q. IsLeast p q.labels) }
    ensures types { IfOk result (λ q. TypesMost p q.labels) }
    ensures kept { IfErr result (λ e. e.0 ≡ p) }
    ensures steps { (c : ℕ) → ChainsHaveUpTo p.order c → steps.new ≤ steps.old + shares_of p c }
{
    let mut work = match Worklist::new(alloc, &p) {
        Ok(work) => work,
        Err(fault) => return Err((p, fault)),
    };
    settle(&p, &mut work, steps);
    let (variables, levels) = work.into_labels();
    complete(alloc, p, variables, levels)
}

fn uncounted<L: Ledger>(
    alloc: Global,
    p: Program,
    blank: Blank,
) -> Result<Labelled, (Program, Memory)>
    requires name { blank.name ≡ L.name }
    requires parts { blank.parts ≡ L.parts }
    requires some { 0 < blank.parts }
    ensures program { IfOk result (λ q. q.program ≡ p) }
    ensures least { IfOk result (λ q. IsLeast p q.labels) }
    ensures types { IfOk result (λ q. TypesMost p q.labels) }
    ensures kept { IfErr result (λ e. e.0 ≡ p) }
{
    let mut steps = Steps::<L>::new(blank);
    infer_counted(alloc, p, &mut steps)
}

/// The least labelling of a program: of all labellings that keep what it writes, that give a command without
/// marks `pc | li` twice, and for which each condition of the walk holds whose right side is an omitted label,
/// the one whose labels flow to those of each other one. If it has no type, no labelling of the program has.
///
/// # Errors
/// `Memory` is want of memory; then the program comes back.
#[inline(never)]
pub fn infer(alloc: Global, p: Program) -> Result<Labelled, (Program, Memory)>
    ensures program { IfOk result (λ q. q.program ≡ p) }
    ensures least { IfOk result (λ q. IsLeast p q.labels) }
    ensures types { IfOk result (λ q. TypesMost p q.labels) }
    ensures kept { IfErr result (λ e. e.0 ≡ p) }
{
    uncounted::<Brand>(alloc, p, Blank::new(1))
}
