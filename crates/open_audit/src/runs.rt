//! The runs of a list of starts, one after the other.

ghost use Rattle.std.specs.Prelude.{◌≡◌, ◌≤◌, ◌^◌, [], All, OnOk, IfOk, IfErr, length, map, true};
ghost use Rattle.mit_syntax.specs.Declarations.{variables};
ghost use Rattle.code_lower.specs.Lowered.{lowered};
ghost use Rattle.start_file.specs.Starts.{seen, IsFor};
ghost use Rattle.leak_audit.specs.Agreement.{start_of, starts_of};
ghost use Rattle.leak_audit.specs.Observed.{TellsSeen, ObservesRun};
ghost use Rattle.leak_audit.specs.Kept.{AreKinds};
ghost use Rattle.leak_audit.specs.Surveyed.{unfinished, IsSurveyFault};
ghost use Rattle.open_audit.specs.Kept.{Takes, Refuses, IsKept};

use cycle_machine::end::RunEnd;
use cycle_machine::machine::Machine;
use env_contract::env::MachineEnv;
use env_contract::make::MakeEnv;
use label_code::image::Image;
use label_lattice::label::Label;
use leak_audit::kinds::Kinds;
use leak_audit::observe::{Observed, Observer, Tally, observe};
use leak_audit::survey::{MAX_SHOWN, SurveyFault};
use mit_syntax::declarations::CELLS;
use run_watch::{RunNumber, Watch, Watched};
use start_file::start::Start;
use std::alloc::Global;
use text_base::pos::Memory;
use timing_types::labelled::Labelled;

/// What is kept of runs: what the observer sees of each, and how many assignments they show together.
#[derive(Drop)]
pub(crate) struct Kept {
    pub kinds: Kinds,
    pub shown: u64,
}

impl Kept {
    // Of no run, with room for so many.
    fn new(alloc: Global, count: usize) -> Result<Kept, Memory>
        ensures { IfOk result (λ k. AreKinds [] k.kinds × (k.shown ≡ 0)) }
    {
        Ok(Kept {
            kinds: Kinds::new(alloc, count)?,
            shown: 0,
        })
    }

    // Takes in one run more, unless it is refused.
    fn take(&mut self, run: u32, seen: Observed) -> Result<(), SurveyFault>
        requires shown { self.old.shown ≤ MAX_SHOWN }
        requires more { seen.tally.shown ≤ 2 ^ 40 }
        requires kinds { length self.old.kinds.different.keys ≤ 4096 }
        ensures takes { OnOk result (Takes self.old seen self.new) }
        ensures refuses { IfErr result (Refuses self.old run seen) }
    {
        let Observed { tally, end } = seen;
        let Tally {
            mut events,
            shown,
            ..
        } = tally;
        if let Some(cycle) = unfinished(end) {
            return Err(SurveyFault::Unfinished { run, cycle });
        }
        let all = self.shown + shown;
        if all > MAX_SHOWN {
            return Err(SurveyFault::TooMuch { count: all });
        }
        events.shrink_to_fit();
        self.kinds.put(events)?;
        self.shown = all;
        Ok(())
    }
}

// The clock of a run that has not halted.
fn unfinished(end: RunEnd) -> Option<u64>
    ensures { result ≡ unfinished true end }
{
    match end {
        RunEnd::Limit(cycle) => Some(cycle),
        RunEnd::Halted(_) => None,
    }
}

// A list that says of each variable, by its number, whether the observer sees its assignments.
fn seen_variables(p: &Labelled, observer: Label) -> [bool; CELLS]
    requires { variables p.now.program.declarations ≤ 3072 }
    ensures { TellsSeen p.now observer.number result }
{
    let mut shown = [true; CELLS];
    p.mark_seen(observer, &mut shown);
    shown
}

// One run, from a start to the limit.
fn observe_start<E: MachineEnv + Drop, M: MakeEnv<E>, W: Watch>(
    alloc: Global,
    p: &Labelled,
    image: &Image,
    start: &Start,
    observer: &Observer<'_>,
    limit: u64,
    make: &M,
    watch: &Watched<'_, W>,
) -> Result<Observed, Memory>
    requires image { image.now ≡ lowered p.now }
    requires start { IsFor p.now.program (seen start.now) }
    requires limit { limit ≤ 2 ^ 40 }
    requires shown { TellsSeen p.now observer.now.label.number observer.now.shown.now }
    ensures { IfOk result (ObservesRun E.env p.now observer.now.label.number observer.now.relevant.now observer.now.room limit
        (start_of (M.made make.now) p.now.program.order (seen start.now))) }
{
    let env = make.make(alloc, image.shared_lattice(), start.touches.as_slice())?;
    let memory = start.memory.clone()?;
    let mut machine = Machine::load(alloc, image, memory, env)?;
    let seen = observe(alloc, &mut machine, p, observer, limit, watch)?;
    Ok(seen)
}

/// Runs a program's image from each start of a list in turn, and keeps what the observer sees of each run. Loads one machine
/// at a time. The image is that of the program, and the starts are for it. A watch is told how far each run has come.
///
/// # Errors
/// The first run decides that has not halted by the limit, or with which more than `MAX_SHOWN` assignments are shown in
/// all: `Unfinished`, else `TooMuch`. `Memory` is want of memory.
pub(crate) fn keep_runs<E: MachineEnv + Drop, M: MakeEnv<E>, W: Watch>(
    alloc: Global,
    p: &Labelled,
    image: &Image,
    starts: &[Start],
    label: Label,
    limit: u64,
    make: &M,
    watch: &W,
) -> Result<Kept, SurveyFault>
    requires image { image.now ≡ lowered p.now }
    requires few { length starts.now ≤ 4096 }
    requires starts { All (IsFor p.now.program) (map seen starts.now) }
    requires limit { limit ≤ 2 ^ 40 }
    ensures kept { IfOk result (IsKept E.env p.now label.number limit (starts_of (M.made make.now) p.now.program.order (map seen starts.now))) }
    ensures fault { IfErr result (IsSurveyFault E.env p.now label.number limit true (starts_of (M.made make.now) p.now.program.order (map seen starts.now))) }
{
    image.laws();
    let shown = seen_variables(p, label);
    let mut kept = Kept::new(alloc, starts.len())?;
    for (i, start) in starts.iter().enumerate() {
        let observer = Observer {
            label,
            shown: &shown,
            relevant: &[],
            room: MAX_SHOWN - kept.shown,
        };
        let number = RunNumber {
            run: i + 1,
            runs: starts.len(),
        };
        let watched = Watched::new(watch, number);
        let seen = observe_start(alloc, p, image, start, &observer, limit, make, &watched)?;
        kept.take(i as u32 + 1, seen)?;
    }
    Ok(kept)
}
