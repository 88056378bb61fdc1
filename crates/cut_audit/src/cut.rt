//! The audit.

ghost use Rattle.std.specs.Prelude.{◌≡◌, ◌<◌, ◌≤◌, ◌^◌, All, IfOk, IfErr, length, map};
ghost use Rattle.code_lower.specs.Lowered.{lowered};
ghost use Rattle.leak_bound.specs.Over.{KeepsLaws};
ghost use Rattle.start_file.specs.Starts.{seen, IsFor};
ghost use Rattle.leak_audit.specs.Agreement.{starts_of};
ghost use Rattle.cut_audit.specs.Report.{IsReport, IsCutFault};

use crate::report::{CutFault, CutReport};
use env_contract::env::MachineEnv;
use env_contract::make::MakeEnv;
use label_code::image::Image;
use label_lattice::label::Label;
use leak_audit::agreement::all_agree;
use leak_audit::measure::measure;
use leak_audit::relevance::relevant_marks;
use leak_audit::survey::{Request, survey_runs};
use run_watch::Watch;
use start_file::start::Start;
use std::alloc::Global;
use timing_types::typed::Typed;

/// Runs a program's image from each start of a list, 1 to 4,096 of them, up to a limit of 1 to 2^40 cycles,
/// and counts the different sequences of assignments, with their cycles, that an observer sees by then, of
/// runs that have halted and of those that have not. That is at most the base to the power of the exponent of the
/// report's measures, in every environment that keeps the laws of `LawfulEnv`. The image is that of the program, the
/// starts are for it, and the observer is one of its labels. Keeps 24 bytes for each assignment of each different sequence.
/// A watch is told how far each run has come.
///
/// # Errors
/// First all starts are compared: `Disagree` exactly where some start does not agree with the first one. Then
/// `TooMuch` comes exactly where more than 16,777,216 assignments are seen up to and with some run, for the
/// first such run. `Memory` is want of memory.
pub fn cut<E: MachineEnv + Drop, M: MakeEnv<E>, W: Watch>(
    alloc: Global,
    p: &Typed,
    image: &Image,
    starts: &[Start],
    observer: Label,
    limit: u64,
    make: &M,
    watch: &W,
) -> Result<CutReport, CutFault>
    requires image { image.now ≡ lowered p.now.labelled }
    requires some { 0 < length starts.now }
    requires few { length starts.now ≤ 4096 }
    requires starts { All (IsFor p.now.labelled.program) (map seen starts.now) }
    requires observer { observer.number < p.now.labelled.program.order.size }
    requires cycles { 0 < limit }
    requires limit { limit ≤ 2 ^ 40 }
    ensures report { IfOk result (IsReport E.env E.serves p.now.labelled observer.number limit
        (starts_of (M.made make.now) p.now.labelled.program.order (map seen starts.now))) }
    ensures bound { KeepsLaws (λ order. E.env) E.serves → IfOk result (λ r. r.measures.distinct ≤ r.measures.base ^ r.measures.exponent) }
    ensures fault { IfErr result (IsCutFault E.env E.serves p.now.labelled observer.number limit
        (starts_of (M.made make.now) p.now.labelled.program.order (map seen starts.now))) }
{
    let labelled = p.labelled();
    let program = labelled.program();
    let order = program.lattice();
    order.laws();
    program.laws();
    all_agree(alloc, labelled, starts, observer, make)?;
    let relevant = relevant_marks(alloc, p, observer)?;
    let request = Request {
        limit,
        must_halt: false,
        observer,
        relevant: relevant.as_slice(),
    };
    let survey = match survey_runs(alloc, labelled, image, starts, &request, make, watch) {
        Ok(survey) => survey,
        Err(fault) => return Err(CutFault::of(fault)),
    };
    let measures = measure(order, observer, limit, survey.ended, survey.kinds);
    Ok(CutReport {
        runs: starts.len() as u32,
        ended: survey.ended,
        halted: survey.halted,
        measures,
    })
}
