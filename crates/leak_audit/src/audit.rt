//! The audit.

ghost use Rattle.std.specs.Prelude.{◌≡◌, ◌<◌, ◌≤◌, ◌^◌, All, IfOk, IfErr, length, map};
ghost use Rattle.code_lower.specs.Lowered.{lowered};
ghost use Rattle.leak_bound.specs.Over.{KeepsLaws};
ghost use Rattle.start_file.specs.Starts.{seen, IsFor};
ghost use Rattle.leak_audit.specs.Agreement.{starts_of};
ghost use Rattle.leak_audit.specs.Report.{IsReport, IsAuditFault};

use crate::agreement::all_agree;
use crate::measure::measure;
use crate::relevance::relevant_marks;
use crate::report::{AuditFault, AuditReport};
use crate::survey::{Request, survey_runs};
use code_lower::laws::image_keeps_order;
use env_contract::env::MachineEnv;
use env_contract::make::MakeEnv;
use label_code::image::Image;
use label_lattice::label::Label;
use run_watch::Watch;
use start_file::start::Start;
use std::alloc::Global;
use timing_types::typed::Typed;

/// Runs a program's image from each start of a list, 1 to 4,096 of them, up to a limit of 1 to 2^40 cycles,
/// and counts the different sequences of assignments, with their cycles, that an observer sees. That is at
/// most the base to the power of the exponent of the report's measures, in every environment that keeps the laws of
/// `LawfulEnv`. The image is that of the program, the starts are for it, and the observer is one of its
/// labels. Keeps 24 bytes for each assignment of each different sequence. A watch is told how far each run
/// has come.
///
/// # Errors
/// First all starts are compared: `Disagree` exactly where some start does not agree with the first one.
/// Then each run in turn: `Unfinished` exactly where it has not halted by the limit, and else `TooMuch`
/// exactly where more than 16,777,216 assignments are seen up to and with it. `Memory` is want of memory.
pub fn audit<E: MachineEnv + Drop, M: MakeEnv<E>, W: Watch>(
    alloc: Global,
    p: &Typed,
    image: &Image,
    starts: &[Start],
    observer: Label,
    limit: u64,
    make: &M,
    watch: &W,
) -> Result<AuditReport, AuditFault>
    requires image { image.now ≡ lowered p.now.labelled }
    requires some { 0 < length starts.now }
    requires few { length starts.now ≤ 4096 }
    requires starts { All (IsFor p.now.labelled.program) (map seen starts.now) }
    requires observer { observer.number < p.now.labelled.program.order.size }
    requires cycles { 0 < limit }
    requires limit { limit ≤ 2 ^ 40 }
    ensures report { IfOk result (IsReport E.env E.serves p.now.labelled observer.number limit
        (starts_of (M.made make.now) p.now.labelled.program.order (map seen starts.now))) }
    ensures bound { KeepsLaws (λ order. E.env) E.serves → IfOk result (λ r. r.measures.distinct ≤ r.measures.base ^ r.measures.exponent) }
    ensures fault { IfErr result (IsAuditFault E.env E.serves p.now.labelled observer.number limit
        (starts_of (M.made make.now) p.now.labelled.program.order (map seen starts.now))) }
{
    image_keeps_order::<E>();
    let labelled = p.labelled();
    let program = labelled.program();
    let order = program.lattice();
    order.laws();
    program.laws();
    all_agree(alloc, labelled, starts, observer, make)?;
    let relevant = relevant_marks(alloc, p, observer)?;
    let request = Request {
        limit,
        must_halt: true,
        observer,
        relevant: relevant.as_slice(),
    };
    let survey = survey_runs(alloc, labelled, image, starts, &request, make, watch)?;
    let measures = measure(order, observer, limit, survey.begun, survey.kinds);
    Ok(AuditReport {
        runs: starts.len() as u32,
        mitigations: survey.begun,
        measures,
    })
}
