//! The runs from starts, by what they do.

ghost use Rattle.std.specs.Prelude.{◌≡◌, ◌<◌, ◌≤◌, ◌^◌, map, length, All, IfOk, IfErr};
ghost use Rattle.std.specs.List.{sum_by};
ghost use Rattle.start_file.specs.Starts.{seen};
ghost use Rattle.run_entries.specs.Entries.{entries_of};
ghost use Rattle.entry_run.specs.declared.fault.RunFault.TheVariants as fault;
ghost use Rattle.start_tune.specs.Runs.{Fits, IsRun, IsUnending, AreRunClasses, OneIsUnending};

use entry_classes::known::Known;
use entry_run::fault::RunFault;
use entry_run::run::entries;
use env_contract::env::MachineEnv;
use env_contract::make::MakeEnv;
use first_front::class::Class;
use label_code::image::Image;
use run_entries::entry::Entry;
use start_file::start::Start;
use std::alloc::Global;

// The entries of the run from a start, in the environment that a maker makes.
fn run_of<E: MachineEnv + Drop, M: MakeEnv<E>>(
    alloc: Global,
    maker: &M,
    image: &Image,
    from: &Start,
    limit: u64,
) -> Result<Vec<Entry>, RunFault>
    requires { Fits image.now (seen from.now) }
    ensures run { IfOk result (λ es. IsRun E.env (M.made maker.now) limit image.now (seen from.now) (entries_of es.items)) }
    ensures fault { IfErr result (λ e. e ≡ fault.Unfinished → IsUnending E.env (M.made maker.now) limit image.now (seen from.now)) }
{
    let env = maker.make(alloc, image.shared_lattice(), from.touches.as_slice())?;
    let memory = from.memory.clone()?;
    match entries(alloc, image, memory, env, limit) {
        Ok(found) => Ok(found),
        Err(fault) => Err(fault),
    }
}

/// The classes of all starts by what their runs do, in the environments that a maker makes.
///
/// # Errors
/// `Unfinished` where one of the runs takes more cycles than the limit without the waits of its mitigations; `Memory` where
/// memory is wanting.
pub fn classes<E: MachineEnv + Drop, M: MakeEnv<E>>(
    alloc: Global,
    maker: &M,
    image: &Image,
    starts: &[Start],
    limit: u64,
) -> Result<Vec<Class>, RunFault>
    requires fit { All (Fits image.now) (map seen starts.now) }
    requires few { length starts.now < 2 ^ 32 }
    ensures classes { IfOk result (λ cs. AreRunClasses E.env (M.made maker.now) limit image.now (map seen starts.now) cs.items) }
    ensures few { IfOk result (λ cs. sum_by (λ c. c.starts) cs.items < 2 ^ 64) }
    ensures fault { IfErr result (λ e. e ≡ fault.Unfinished → OneIsUnending E.env (M.made maker.now) limit image.now (map seen starts.now)) }
{
    let mut known = Known::new(alloc);
    for start in starts {
        match run_of(alloc, maker, image, start, limit) {
            Ok(entries) => known.put(entries)?,
            Err(fault) => return Err(fault),
        }
    }
    let classes = known.done(alloc)?;
    Ok(classes)
}
