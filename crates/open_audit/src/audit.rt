//! The audit.

ghost use Rattle.std.specs.Prelude.{◌≡◌, ◌<◌, ◌≤◌, ◌^◌, All, IfOk, IfErr, length, map};
ghost use Rattle.code_lower.specs.Lowered.{lowered};
ghost use Rattle.start_file.specs.Starts.{seen, IsFor};
ghost use Rattle.leak_audit.specs.Agreement.{starts_of};
ghost use Rattle.leak_audit.specs.Report.{IsAuditFault};
ghost use Rattle.open_audit.specs.Open.{HasReport};

use crate::runs::{Kept, keep_runs};
use code_lower::laws::image_keeps_order;
use env_contract::env::MachineEnv;
use env_contract::make::MakeEnv;
use label_code::image::Image;
use label_lattice::label::Label;
use leak_audit::agreement::all_agree;
use leak_audit::kinds::Kinds;
use leak_audit::report::AuditFault;
use run_watch::Watch;
use start_file::start::Start;
use std::alloc::Global;
use timing_types::labelled::Labelled;

/// Runs a program's image from each start of a list of at most 4,096, up to a limit of at most 2^40 cycles, and tells of each
/// run the class of what an observer sees of it: its place, from 1, among the different sequences of assignments with their
/// cycles, in order of first appearance. The labels need not type the program; the image is that of the program, the
/// starts are for it, and the observer is one of its labels. A watch is told how far each run has come.
///
/// # Errors
/// First all starts are compared: `Disagree` exactly where some start does not agree with the first one. Then each run in
/// turn: `Unfinished` exactly where it has not halted by the limit, and else `TooMuch` exactly where more than 16,777,216
/// assignments are seen up to and with it. `Memory` is want of memory.
pub fn open_audit<E: MachineEnv + Drop, M: MakeEnv<E>, W: Watch>(
    alloc: Global,
    p: &Labelled,
    image: &Image,
    starts: &[Start],
    observer: Label,
    limit: u64,
    make: &M,
    watch: &W,
) -> Result<Vec<u32>, AuditFault>
    requires image { image.now ≡ lowered p.now }
    requires few { length starts.now ≤ 4096 }
    requires starts { All (IsFor p.now.program) (map seen starts.now) }
    requires observer { observer.number < p.now.program.order.size }
    requires limit { limit ≤ 2 ^ 40 }
    ensures report { IfOk result (λ k. HasReport E.env E.serves p.now observer.number limit
        (starts_of (M.made make.now) p.now.program.order (map seen starts.now)) k.items) }
    ensures fault { IfErr result (IsAuditFault E.env E.serves p.now observer.number limit
        (starts_of (M.made make.now) p.now.program.order (map seen starts.now))) }
{
    image_keeps_order::<E>();
    all_agree(alloc, p, starts, observer, make)?;
    let kept = keep_runs(alloc, p, image, starts, observer, limit, make, watch)?;
    let Kept { kinds, .. } = kept;
    let Kinds { classes, .. } = kinds;
    Ok(classes)
}
