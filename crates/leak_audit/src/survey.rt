//! The runs of a list of starts, one after the other.

ghost use Rattle.std.specs.Prelude.{◌≡◌, ◌≤◌, ◌^◌, [], All, OnOk, IfOk, IfErr, length, map};
ghost use Rattle.mit_syntax.specs.Program.{plan_of};
ghost use Rattle.timing_types.specs.Labelled.{order_of, labels_of, levels_of};
ghost use Rattle.code_lower.specs.Lowered.{lowered};
ghost use Rattle.start_file.specs.Starts.{seen, IsFor};
ghost use Rattle.leak_bound.specs.Relevant.{relevances};
ghost use Rattle.leak_audit.specs.Agreement.{start_of, starts_of};
ghost use Rattle.leak_audit.specs.Observed.{TellsSeen, ObservesRun};
ghost use Rattle.leak_audit.specs.Kept.{AreKinds};
ghost use Rattle.leak_audit.specs.Surveyed.{unfinished, halts, of_first, Takes, Refuses, IsSurvey, IsSurveyFault};
ghost use Rattle.leak_audit.specs.declared.survey.SurveyFault.TheVariants.{Memory};

use crate::kinds::Kinds;
use crate::observe::{Observed, Observer, Tally, observe};
use crate::shown::seen_variables;
use cycle_machine::end::RunEnd;
use cycle_machine::machine::Machine;
use env_contract::env::MachineEnv;
use env_contract::make::MakeEnv;
use label_code::image::Image;
use label_lattice::label::Label;
use run_watch::{RunNumber, Watch, Watched};
use start_file::start::Start;
use std::alloc::{AllocError, AllocFailed, Global};
use text_base::pos::Memory;
use timing_types::labelled::Labelled;

/// The most assignments that all runs of an audit may show together.
pub const MAX_SHOWN: u64 = 16_777_216;

/// Why runs are not surveyed.
#[derive(Clone, Copy, Debug, PartialEq, Eq)]
pub enum SurveyFault {
    /// The run, counted from 1, has not halted by the limit, and this is its clock.
    Unfinished { run: u32, cycle: u64 },
    /// The runs up to and with one show so many assignments, more than `MAX_SHOWN`.
    TooMuch { count: u64 },
    /// Want of memory.
    Memory,
}

impl From<Memory> for SurveyFault {
    ghost from_gives = { λ _ e. e ≡ Memory };

    fn from(_: Memory) -> SurveyFault {
        SurveyFault::Memory
    }
}

impl From<AllocError> for SurveyFault {
    ghost from_gives = { λ _ e. e ≡ Memory };

    fn from(_: AllocError) -> SurveyFault {
        SurveyFault::Memory
    }
}

impl<T: Drop> From<AllocFailed<T>> for SurveyFault {
    ghost from_gives = { λ _ e. e ≡ Memory };

    fn from(_: AllocFailed<T>) -> SurveyFault {
        SurveyFault::Memory
    }
}

/// What is known of runs.
#[derive(Drop)]
pub struct Survey {
    /// What the observer sees of each.
    pub kinds: Kinds,
    /// How many assignments the runs show together.
    pub shown: u64,
    /// How many relevant mitigations began in the first run.
    pub begun: u64,
    /// The greatest number of relevant mitigations that ended in one of them.
    pub ended: u64,
    /// How many have halted.
    pub halted: u32,
}

/// What is asked of a list of runs: the limit of each in cycles, whether all must halt by it, the observer,
/// and which mitigates are relevant for it, by their marks.
#[derive(Clone, Copy)]
pub struct Request<'a> {
    pub limit: u64,
    pub must_halt: bool,
    pub observer: Label,
    pub relevant: &'a [bool],
}

impl Survey {
    // Of no run.
    fn new(alloc: Global, count: usize) -> Result<Survey, Memory>
        ensures { IfOk result (λ s. AreKinds [] s.kinds × (s.shown ≡ 0) × (s.begun ≡ 0) × (s.ended ≡ 0) × (s.halted ≡ 0)) }
    {
        Ok(Survey {
            kinds: Kinds::new(alloc, count)?,
            shown: 0,
            begun: 0,
            ended: 0,
            halted: 0,
        })
    }

    // Takes in one run more, unless it is refused.
    fn take(&mut self, run: u32, must_halt: bool, seen: Observed) -> Result<(), SurveyFault>
        requires shown { self.old.shown ≤ MAX_SHOWN }
        requires more { seen.tally.shown ≤ 2 ^ 40 }
        requires halted { self.old.halted ≤ 4096 }
        requires kinds { length self.old.kinds.different.keys ≤ 4096 }
        ensures takes { OnOk result (Takes self.old run must_halt seen self.new) }
        ensures refuses { IfErr result (Refuses self.old run must_halt seen) }
    {
        let Observed { tally, end } = seen;
        let Tally {
            mut events,
            shown,
            begun,
            ended,
        } = tally;
        if let Some(cycle) = unfinished(must_halt, end) {
            return Err(SurveyFault::Unfinished { run, cycle });
        }
        let all = self.shown + shown;
        if all > MAX_SHOWN {
            return Err(SurveyFault::TooMuch { count: all });
        }
        events.shrink_to_fit();
        self.kinds.put(events)?;
        self.shown = all;
        self.begun = of_first(run, begun, self.begun);
        self.ended = self.ended.max(ended);
        self.halted += halts(end);
        Ok(())
    }
}

// The clock of a run that must halt and has not.
fn unfinished(must_halt: bool, end: RunEnd) -> Option<u64>
    ensures { result ≡ unfinished must_halt end }
{
    match end {
        RunEnd::Limit(cycle) if must_halt => Some(cycle),
        _ => None,
    }
}

// 1 for a run that has halted, else 0.
fn halts(end: RunEnd) -> u32
    ensures { result ≡ halts end }
{
    match end {
        RunEnd::Halted(_) => 1,
        RunEnd::Limit(_) => 0,
    }
}

// The count of the first run, and for a later one the count that is there.
fn of_first(run: u32, count: u64, before: u64) -> u64
    ensures { result ≡ of_first run count before }
{
    if run == 1 { count } else { before }
}

// One run, from a start to the limit.
fn observe_start<E: MachineEnv + Drop, M: MakeEnv<E>, W: Watch>(
    alloc: Global,
    p: &Labelled,
    image: &Image,
    start: &Start,
    observer: &Observer<'_>,
    limit: u64,
    make: &M,
    watch: &Watched<'_, W>,
) -> Result<Observed, Memory>
    requires image { image.now ≡ lowered p.now }
    requires start { IsFor p.now.program (seen start.now) }
    requires limit { limit ≤ 2 ^ 40 }
    requires shown { TellsSeen p.now observer.now.label.number observer.now.shown.now }
    ensures { IfOk result (ObservesRun E.env p.now observer.now.label.number observer.now.relevant.now observer.now.room limit
        (start_of (M.made make.now) p.now.program.order (seen start.now))) }
{
    let env = make.make(alloc, image.shared_lattice(), start.touches.as_slice())?;
    let memory = start.memory.clone()?;
    let mut machine = Machine::load(alloc, image, memory, env)?;
    let seen = observe(alloc, &mut machine, p, observer, limit, watch)?;
    Ok(seen)
}

/// Runs a program's image from each start of a list in turn, and tells what the observer sees of each run,
/// and how many have halted. Loads one machine at a time. The image is that of the program, and the starts
/// are for it. A watch is told how far each run has come.
///
/// # Errors
/// The first run decides that has not halted, where all must, or with which more than `MAX_SHOWN`
/// assignments are shown in all: `Unfinished`, else `TooMuch`. `Memory` is want of memory.
pub fn survey_runs<E: MachineEnv + Drop, M: MakeEnv<E>, W: Watch>(
    alloc: Global,
    p: &Labelled,
    image: &Image,
    starts: &[Start],
    request: &Request<'_>,
    make: &M,
    watch: &W,
) -> Result<Survey, SurveyFault>
    requires image { image.now ≡ lowered p.now }
    requires few { length starts.now ≤ 4096 }
    requires starts { All (IsFor p.now.program) (map seen starts.now) }
    requires limit { request.now.limit ≤ 2 ^ 40 }
    requires relevant { request.now.relevant.now ≡ relevances (order_of p.now) (labels_of p.now) (levels_of p.now) request.now.observer.number
        (order_of p.now).bottom (plan_of p.now.program) }
    ensures survey { IfOk result (IsSurvey E.env p.now request.now.observer.number request.now.limit request.now.must_halt
        (starts_of (M.made make.now) p.now.program.order (map seen starts.now))) }
    ensures kinds { IfOk result (λ s. length s.kinds.different.keys ≤ 4096) }
    ensures fault { IfErr result (IsSurveyFault E.env p.now request.now.observer.number request.now.limit request.now.must_halt
        (starts_of (M.made make.now) p.now.program.order (map seen starts.now))) }
{
    image.laws();
    let shown = seen_variables(p, request.observer);
    let mut survey = Survey::new(alloc, starts.len())?;
    for (i, start) in starts.iter().enumerate() {
        let observer = Observer {
            label: request.observer,
            shown: &shown,
            relevant: request.relevant,
            room: MAX_SHOWN - survey.shown,
        };
        let number = RunNumber {
            run: i + 1,
            runs: starts.len(),
        };
        let watched = Watched::new(watch, number);
        let limit = request.limit;
        let seen = observe_start(alloc, p, image, start, &observer, limit, make, &watched)?;
        survey.take(i as u32 + 1, request.must_halt, seen)?;
    }
    Ok(survey)
}
