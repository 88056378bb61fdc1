//! From a program and a space to what is told.

ghost use Rattle.std.specs.Prelude.{◌≡◌, ◌≢◌, ◌≤◌, ◌^◌, ℕ, All, Some, IfOk, IfErr};
ghost use Rattle.class_counts.specs.Tally.{total};
ghost use Rattle.label_lattice.specs.declared.label.Label.{Label as LabelValue};
ghost use Rattle.timing_types.specs.Labelled.{LabelledProgram};
ghost use Rattle.leak_classes.specs.declared.fault.WalkFault.TheVariants as cause;
ghost use Rattle.leak_classes.specs.Views.{classes_of};
ghost use Rattle.space_starts.specs.Space.{SpaceValue, lists, seen, size_of, IsValues};
ghost use Rattle.run_limits.specs.Cycles.{IsCycles};
ghost use Rattle.tool_stages.specs.declared.envs.Environment.{Environment};
ghost use Rattle.tool_texts.specs.Ends.{IsStop};
ghost use Rattle.tool_texts.specs.declared.status.Status.TheVariants as status;
ghost use Rattle.space_leak.specs.Answer.{CanWalk, HasClasses, HasWalkFault, SpaceStops, HasSpaceLeak};

use crate::lines::{ranging, unfinished};
use crate::runs::walk_named;
use crate::text::space_text;
use label_code::image::Image;
use label_lattice::label::Label;
use leak_classes::fault::WalkFault;
use leak_classes::known::Known;
use run_watch::Watch;
use space_starts::space::Space;
use space_walk::agreement::first_ranging;
use std::alloc::{AllocError, Global};
use timing_types::labelled::Labelled;
use tool_stages::setting::Setting;
use tool_texts::lines::report::too_long_events;
use tool_texts::status::Status;
use tool_texts::stop::{Stop, no_memory};

// How many starts there are.
fn size_in(alloc: Global, space: &Space) -> Result<u64, AllocError>
    requires values { All IsValues (lists space.now.memory.items) }
    requires few { size_of (seen space.now) ≤ 2 ^ 40 }
    ensures { IfOk result (λ n. n ≡ size_of (seen space.now)) }
{
    let size = space.size(alloc)?;
    Ok(size.unwrap())
}

// The stop for runs of which there are no classes.
fn walk_stop(fault: WalkFault) -> Stop
    ensures { (e : Environment) (t : ℕ) (q : LabelledProgram) (l : LabelValue) (s : SpaceValue)
        → (fault ≢ cause.Memory → HasWalkFault e t q l.number s fault) → IsStop (SpaceStops e t q l s) result }
{
    match fault {
        WalkFault::Unfinished { number, cycle } => Stop::With {
            status: Status::Unfinished,
            line: unfinished(number, cycle),
        },
        WalkFault::TooMuch { count } => Stop::With {
            status: Status::TooLong,
            line: too_long_events(count),
        },
        WalkFault::Memory => no_memory(),
    }
}

// The classes of all starts, where these agree.
fn walked<W: Watch>(
    alloc: Global,
    p: &Labelled,
    image: &Image,
    observer: Label,
    space: &Space,
    size: u64,
    setting: Setting,
    watch: &W,
) -> Result<Known, Stop>
    requires can { CanWalk p.now observer image.now (seen space.now) }
    requires size { size ≡ size_of (seen space.now) }
    requires cycles { IsCycles setting.budget }
    ensures classes { IfOk result (λ k. HasClasses setting.env setting.budget p.now observer.number (seen space.now) (classes_of k)) }
    ensures total { IfOk result (λ k. total k.classes.entries ≡ size_of (seen space.now)) }
    ensures stop { IfErr result (IsStop (SpaceStops setting.env setting.budget p.now observer (seen space.now))) }
{
    if let Some(x) = first_ranging(p, observer, space.memory.as_slice()) {
        return Err(Stop::With {
            status: Status::Disagree,
            line: ranging(p.program(), x),
        });
    }
    match walk_named(alloc, p, image, observer, space, size, setting, watch) {
        Ok(known) => Ok(known),
        Err(fault) => Err(walk_stop(fault)),
    }
}

/// What the runs of a program's image from all starts of a space tell an observer of the start. A watch is told how far each
/// run has come. The classes are kept, and no run is.
///
/// `why`: what stops it is one of the stops of a space.
///
/// # Errors
/// Stops with `Disagree`, `Unfinished`, `TooLong` or `Memory`.
pub fn space_leak<W: Watch>(
    alloc: Global,
    p: &Labelled,
    image: &Image,
    observer: Label,
    space: &Space,
    setting: Setting,
    watch: &W,
) -> Result<Vec<u8>, Stop>
    requires can { CanWalk p.now observer image.now (seen space.now) }
    requires cycles { IsCycles setting.budget }
    ensures text { IfOk result (λ v. HasSpaceLeak setting.env setting.budget p.now (Some observer) (seen space.now) status.Done v.items) }
    ensures stop { IfErr result (IsStop (HasSpaceLeak setting.env setting.budget p.now (Some observer) (seen space.now))) }
    ensures why { IfErr result (IsStop (SpaceStops setting.env setting.budget p.now observer (seen space.now))) }
{
    let size = match size_in(alloc, space) {
        Ok(size) => size,
        Err(_) => return Err(no_memory()),
    };
    let known = match walked(alloc, p, image, observer, space, size, setting, watch) {
        Ok(known) => known,
        Err(stop) => return Err(stop),
    };
    match space_text(alloc, p, observer, setting, size, &known) {
        Ok(text) => Ok(text),
        Err(_) => Err(no_memory()),
    }
}
