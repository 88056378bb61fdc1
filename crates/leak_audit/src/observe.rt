//! One run, as an observer sees it.

ghost use Rattle.std.specs.Prelude.{◌≡◌, ◌<◌, ◌≤◌, ◌+◌, ◌++◌, [], ◌∷◌, ◌^◌, ℕ, List, None, IfOk, OnOk, slice_index_or, false};
ghost use Rattle.mit_syntax.specs.Declarations.{variables};
ghost use Rattle.timing_types.specs.Labelled.{LabelledProgram};
ghost use Rattle.label_code.specs.Machine.{Event};
ghost use Rattle.cycle_machine.specs.Rest.{rest_of, end_of_turn, events_of};
ghost use Rattle.leak_audit.specs.Observed.{TellsSeen, SeesTurn, Tallies, CountsUp, IsObserved};

use crate::sighting::Sighting;
use cycle_machine::end::RunEnd;
use cycle_machine::machine::Machine;
use cycle_machine::turn::Turn;
use env_contract::env::MachineEnv;
use label_lattice::label::Label;
use run_watch::{Watch, Watched};
use std::alloc::Global;
use text_base::pos::Memory;
use timing_types::labelled::Labelled;

/// What is known of a run so far.
#[derive(Drop)]
pub struct Tally {
    /// The assignments that the observer sees, as long as there is room for them.
    pub events: Vec<Sighting>,
    /// How many these are in all.
    pub shown: u64,
    /// How many relevant mitigations began.
    pub begun: u64,
    /// How many relevant mitigations ended.
    pub ended: u64,
}

/// What is known of a run to a limit.
#[derive(Drop)]
pub struct Observed {
    pub tally: Tally,
    pub end: RunEnd,
}

/// An observer's label, which variables' assignments it sees, by their numbers, which mitigates are relevant for
/// it, by their marks, and for how many assignments there is room.
#[derive(Clone, Copy)]
pub struct Observer<'a> {
    pub label: Label,
    pub shown: &'a [bool],
    pub relevant: &'a [bool],
    pub room: u64,
}

impl<'a> Observer<'a> {
    fn is_relevant(&self, mark: u32) -> bool
        ensures { result ≡ slice_index_or self.now.relevant.now mark false }
    {
        match self.relevant.get(mark as usize) {
            Some(relevant) => *relevant,
            None => false,
        }
    }
}

impl Tally {
    // Nothing yet.
    fn new(alloc: Global) -> Tally
        ensures shown { result.shown ≡ 0 }
        ensures begun { result.begun ≡ 0 }
        ensures ended { result.ended ≡ 0 }
        ensures events { result.events.items ≡ [] }
    {
        Tally {
            events: Vec::new(alloc),
            shown: 0,
            begun: 0,
            ended: 0,
        }
    }

    // One assignment more that the observer sees, kept if there is room.
    fn see(&mut self, sighting: Sighting, room: u64) -> Result<(), Memory>
        requires { self.old.shown < 2 ^ 62 }
        ensures shown { OnOk result (self.new.shown ≡ self.old.shown + 1) }
        ensures kept { OnOk result (self.new.shown ≤ room → self.new.events.items ≡ self.old.events.items ++ sighting ∷ []) }
        ensures dropped { OnOk result (room < self.new.shown → self.new.events.items ≡ self.old.events.items) }
        ensures begun { OnOk result (self.new.begun ≡ self.old.begun) }
        ensures ended { OnOk result (self.new.ended ≡ self.old.ended) }
    {
        self.shown += 1;
        if self.shown <= room {
            self.events.push(sighting)?;
        }
        Ok(())
    }

    // Takes in what one turn of the machine tells, whose assignment the observer sees, and answers the end of the
    // run, if that is what it tells.
    fn take(&mut self, observer: &Observer<'_>, turn: Turn) -> Result<Option<RunEnd>, Memory>
        requires shown { self.old.shown < 2 ^ 62 }
        requires begun { self.old.begun < 2 ^ 62 }
        requires ended { self.old.ended < 2 ^ 62 }
        ensures end { IfOk result (λ end. end ≡ end_of_turn turn) }
        ensures counts { OnOk result (CountsUp self.old self.new) }
        ensures tallies { OnOk result ((p : LabelledProgram) (events : List Event) → SeesTurn p observer.now.label.number turn
            → Tallies p observer.now.label.number observer.now.relevant.now observer.now.room events self.old
            → Tallies p observer.now.label.number observer.now.relevant.now observer.now.room (events ++ events_of turn) self.new) }
    {
        match turn {
            Turn::Event {
                variable,
                value,
                cycle,
            } => {
                let sighting = Sighting {
                    variable,
                    value,
                    cycle,
                };
                self.see(sighting, observer.room)?;
                Ok(None)
            }
            Turn::Began { mark, .. } => {
                if observer.is_relevant(mark) {
                    self.begun += 1;
                }
                Ok(None)
            }
            Turn::Ended { mark, .. } => {
                if observer.is_relevant(mark) {
                    self.ended += 1;
                }
                Ok(None)
            }
            Turn::Halted { cycle } => Ok(Some(RunEnd::Halted(cycle))),
            Turn::Limit { cycle } => Ok(Some(RunEnd::Limit(cycle))),
        }
    }
}

/// Runs a machine to a limit in cycles, and tells what the observer sees of the run, how many relevant
/// mitigations began and ended in it, and how it ended. The machine stands at its start, and its image has
/// as many variables as the program. Fails only for want of memory, which the assignments take that are kept. A watch is
/// told how far the run has come, at its start first.
pub fn observe<E: MachineEnv + Drop, W: Watch>(
    alloc: Global,
    m: &mut Machine<E>,
    p: &Labelled,
    observer: &Observer<'_>,
    limit: u64,
    watch: &Watched<'_, W>,
) -> Result<Observed, Memory>
    requires variables { m.old.code.variables ≡ variables p.now.program.declarations }
    requires going { m.old.stopped ≡ None }
    requires start { m.old.state.clock ≡ 0 }
    requires limit { limit ≤ 2 ^ 40 }
    requires shown { TellsSeen p.now observer.now.label.number observer.now.shown.now }
    ensures { IfOk result (IsObserved p.now observer.now.label.number observer.now.relevant.now observer.now.room limit (rest_of E.env limit m.old)) }
{
    watch.tell(0, limit);
    let mut tally = Tally::new(alloc);
    'run: loop {
        m.laws();
        let turn = m.next_shown(limit, observer.shown, watch);
        if let Some(end) = tally.take(observer, turn)? {
            return Ok(Observed { tally, end });
        }
    }
}
