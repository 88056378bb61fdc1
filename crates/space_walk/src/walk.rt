//! The runs, one after another.

ghost use Rattle.std.specs.Prelude.{◌≡◌, ◌≢◌, ◌<◌, ◌≤◌, ◌-◌, ◌^◌, All, Ok, Err, IfOk, IfErr};
ghost use Rattle.code_lower.specs.Lowered.{lowered};
ghost use Rattle.class_counts.specs.Tally.{total};
ghost use Rattle.space_starts.specs.Space.{seen, size_of, start_at, IsInterval, IsSpaceFor};
ghost use Rattle.space_starts.specs.Chooser.{IsChooser};
ghost use Rattle.leak_audit.specs.Agreement.{start_of};
ghost use Rattle.leak_audit.specs.Observed.{TellsSeen, ObservesRun};
ghost use Rattle.leak_classes.specs.declared.fault.WalkFault.TheVariants as fault;
ghost use Rattle.leak_classes.specs.Walk.{AreClasses, IsWalkFault};
ghost use Rattle.leak_classes.specs.Views.{classes_of, IsCounted};
ghost use Rattle.space_walk.specs.Shown.{shown_at, end_at, one};

use crate::shown::seen_variables;
use cycle_machine::machine::Machine;
use env_contract::env::MachineEnv;
use env_contract::make::MakeEnv;
use label_code::image::Image;
use label_lattice::label::Label;
use leak_audit::observe::{Observed, Observer, observe};
use leak_classes::fault::WalkFault;
use leak_classes::known::{Known, MAX_EVENTS};
use run_watch::{RunNumber, Watch, Watched};
use space_starts::space::{Chooser, Space};
use start_space::part::Numbers;
use std::alloc::Global;
use timing_types::labelled::Labelled;

// One run, from the start with a number.
fn observe_at<E: MachineEnv + Drop, M: MakeEnv<E>, W: Watch>(
    alloc: Global,
    p: &Labelled,
    image: &Image,
    space: &Space,
    chooser: &mut Chooser,
    number: u64,
    observer: &Observer<'_>,
    limit: u64,
    make: &M,
    watch: &Watched<'_, W>,
) -> Result<Observed, WalkFault>
    requires image { image.now ≡ lowered p.now }
    requires space { IsSpaceFor p.now.program (seen space.now) }
    requires chooser { IsChooser (seen space.now) chooser.old }
    requires number { number < size_of (seen space.now) }
    requires limit { limit ≤ 2 ^ 40 }
    requires shown { TellsSeen p.now observer.now.label.number observer.now.shown.now }
    ensures chooser { IsChooser (seen space.now) chooser.new }
    ensures observes { IfOk result (ObservesRun E.env p.now observer.now.label.number observer.now.relevant.now observer.now.room limit
        (start_of (M.made make.now) p.now.program.order (start_at (seen space.now) number))) }
    ensures fault { IfErr result (λ e. e ≡ fault.Memory) }
{
    let env = make.make(alloc, image.shared_lattice(), space.touches.as_slice())?;
    let memory = chooser.memory(alloc, space, number)?;
    let mut machine = Machine::load(alloc, image, memory, env)?;
    let seen = observe(alloc, &mut machine, p, observer, limit, watch)?;
    Ok(seen)
}

/// Runs a program's image from the starts of a space with some numbers, one after another, up to a limit of at most 2^40
/// cycles, and tells which classes of starts show the observer with a label the same. Keeps each different sequence once, and of the
/// starts nothing but their count. The image is that of the program, and the space is for it. A watch is told how far each
/// run has come.
///
/// # Errors
/// The first run decides that has not halted by the limit, or with which all different sequences have more than
/// 16,777,216 events: `Unfinished`, else `TooMuch`. `Memory` is want of memory.
pub fn walk_space<E: MachineEnv + Drop, M: MakeEnv<E>, W: Watch>(
    alloc: Global,
    p: &Labelled,
    image: &Image,
    space: &Space,
    numbers: Numbers,
    label: Label,
    limit: u64,
    make: &M,
    watch: &W,
) -> Result<Known, WalkFault>
    requires image { image.now ≡ lowered p.now }
    requires space { IsSpaceFor p.now.program (seen space.now) }
    requires numbers { numbers.end ≤ size_of (seen space.now) }
    requires limit { limit ≤ 2 ^ 40 }
    ensures classes { IfOk result (λ k. AreClasses (shown_at E.env (M.made make.now) p.now label.number limit (seen space.now))
        (end_at E.env (M.made make.now) p.now limit (seen space.now)) one numbers.begin (numbers.end - numbers.begin) (classes_of k)) }
    ensures counted { IfOk result IsCounted }
    ensures total { IfOk result (λ k. total k.classes.entries ≡ numbers.end - numbers.begin) }
    ensures fault { IfErr result (λ e. e ≢ fault.Memory → IsWalkFault (shown_at E.env (M.made make.now) p.now label.number limit (seen space.now))
        (end_at E.env (M.made make.now) p.now limit (seen space.now)) one numbers.begin (numbers.end - numbers.begin) e) }
{
    image.laws();
    let shown = seen_variables(p, label);
    let observer = Observer {
        label,
        shown: &shown,
        relevant: &[],
        room: MAX_EVENTS,
    };
    let mut chooser = Chooser::new(alloc, space)?;
    let mut known = Known::new(alloc);
    for number in numbers.begin..numbers.end {
        let watched = Watched::new(
            watch,
            RunNumber {
                run: number as usize + 1,
                runs: numbers.end as usize,
            },
        );
        let seen = observe_at(
            alloc,
            p,
            image,
            space,
            &mut chooser,
            number,
            &observer,
            limit,
            make,
            &watched,
        )?;
        known.take(number, 1, seen)?;
    }
    Ok(known)
}
