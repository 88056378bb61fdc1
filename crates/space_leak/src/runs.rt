//! The runs of a space.

ghost use Rattle.std.specs.Prelude.{◌≡◌, ◌≢◌, IfOk, IfErr};
ghost use Rattle.class_counts.specs.Tally.{total};
ghost use Rattle.space_starts.specs.Space.{seen, size_of};
ghost use Rattle.leak_classes.specs.declared.fault.WalkFault.TheVariants as fault;
ghost use Rattle.leak_classes.specs.Walk.{AreClasses, IsWalkFault};
ghost use Rattle.leak_classes.specs.Views.{classes_of};
ghost use Rattle.space_walk.specs.Shown.{one};
ghost use Rattle.run_limits.specs.Cycles.{IsCycles};
ghost use Rattle.tool_stages.specs.Envs.{hardware_of};
ghost use Rattle.space_leak.specs.Answer.{CanWalk, shown_in, end_in};

use env_contract::env::MachineEnv;
use label_code::image::Image;
use label_lattice::label::Label;
use leak_classes::fault::WalkFault;
use leak_classes::known::Known;
use run_watch::Watch;
use space_starts::space::Space;
use space_walk::walk::walk_space;
use start_space::part::Numbers;
use std::alloc::Global;
use timing_types::labelled::Labelled;
use tool_stages::envs::MachineMaker;
use tool_stages::in_env;
use tool_stages::laws::makers_tell_as_histories;
use tool_stages::setting::Setting;

// The classes of all starts, in the environments of a maker.
fn walk_in<E: MachineEnv + Drop, M: MachineMaker<E>, W: Watch>(
    alloc: Global,
    maker: &M,
    p: &Labelled,
    image: &Image,
    observer: Label,
    space: &Space,
    size: u64,
    setting: Setting,
    watch: &W,
) -> Result<Known, WalkFault>
    requires can { CanWalk p.now observer image.now (seen space.now) }
    requires size { size ≡ size_of (seen space.now) }
    requires cycles { IsCycles setting.budget }
    requires machine { hardware_of setting.env ≡ M.machine maker.now }
    ensures classes { IfOk result (λ k. AreClasses (shown_in setting.env setting.budget p.now observer.number (seen space.now))
        (end_in setting.env setting.budget p.now (seen space.now)) one 0 (size_of (seen space.now)) (classes_of k)) }
    ensures total { IfOk result (λ k. total k.classes.entries ≡ size_of (seen space.now)) }
    ensures fault { IfErr result (λ e. e ≢ fault.Memory → IsWalkFault (shown_in setting.env setting.budget p.now observer.number (seen space.now))
        (end_in setting.env setting.budget p.now (seen space.now)) one 0 (size_of (seen space.now)) e) }
{
    image.laws();
    makers_tell_as_histories::<E, M>();
    let numbers = Numbers {
        begin: 0,
        end: size,
    };
    walk_space(
        alloc,
        p,
        image,
        space,
        numbers,
        observer,
        setting.budget,
        maker,
        watch,
    )
}

/// The classes of all starts of a space, in an environment. A watch is told how far each run has come.
///
/// # Errors
/// The first run decides that is refused: `Unfinished`, else `TooMuch`. `Memory` is want of memory.
pub(crate) fn walk_named<W: Watch>(
    alloc: Global,
    p: &Labelled,
    image: &Image,
    observer: Label,
    space: &Space,
    size: u64,
    setting: Setting,
    watch: &W,
) -> Result<Known, WalkFault>
    requires can { CanWalk p.now observer image.now (seen space.now) }
    requires size { size ≡ size_of (seen space.now) }
    requires cycles { IsCycles setting.budget }
    ensures classes { IfOk result (λ k. AreClasses (shown_in setting.env setting.budget p.now observer.number (seen space.now))
        (end_in setting.env setting.budget p.now (seen space.now)) one 0 (size_of (seen space.now)) (classes_of k)) }
    ensures total { IfOk result (λ k. total k.classes.entries ≡ size_of (seen space.now)) }
    ensures fault { IfErr result (λ e. e ≢ fault.Memory → IsWalkFault (shown_in setting.env setting.budget p.now observer.number (seen space.now))
        (end_in setting.env setting.budget p.now (seen space.now)) one 0 (size_of (seen space.now)) e) }
{
    in_env!(setting.env, maker => walk_in(alloc, maker, p, image, observer, space, size, setting, watch))
}
