//! The lines of the classes.

ghost use Rattle.std.specs.Prelude.{◌≡◌, ◌<◌, ◌++◌, OnOk, IfOk, map, codes, decimal};
ghost use Rattle.label_code.specs.Run.{run_from};
ghost use Rattle.code_lower.specs.Lowered.{lowered};
ghost use Rattle.cycle_machine.specs.Rest.{told_by};
ghost use Rattle.start_file.specs.Starts.{seen, IsFor};
ghost use Rattle.leak_audit.specs.Agreement.{start_of};
ghost use Rattle.tool_stages.specs.Envs.{hardware_of};
ghost use Rattle.tool_stages.specs.Begins.{CanAudit};
ghost use Rattle.lab_seen.specs.Seen.{line_text};
ghost use Rattle.lab_leak.specs.Answer.{sequences_in};
ghost use Rattle.lab_leak.specs.Classes.{AreSizes, classes_of_runs};
ghost use Rattle.space_leak.specs.Text.{class_lines};

use crate::sheet::Sheet;
use crate::sizes::ClassSizes;
use env_contract::env::MachineEnv;
use env_contract::make::MakeEnv;
use lab_seen::line::write_line;
use lab_seen::load::load;
use label_code::image::Image;
use label_lattice::label::Label;
use seen_line::cells::put_number;
use start_file::start::Start;
use std::alloc::Global;
use text_base::pos::Memory;
use tim_base::line::Line;
use tim_base::sink::write_all;
use timing_types::labelled::Labelled;
use tool_stages::envs::MachineMaker;
use tool_stages::in_env;
use tool_stages::laws::makers_tell_as_histories;
use tool_stages::setting::Setting;

// What stands before the line of a class's first run.
fn class_words(size: u64) -> Line
    ensures { result ≡ codes "class " ++ (decimal size ++ codes " first ") }
{
    let mut line = Line::new();
    put_number(&mut line, b"class ", size);
    line.put_text(b" first ");
    line
}

// Writes the line of a class: its size, and the line of its first run.
fn write_class<E: MachineEnv + Drop, M: MakeEnv<E>>(
    alloc: Global,
    maker: &M,
    p: &Labelled,
    image: &Image,
    observer: Label,
    start: &Start,
    first: u32,
    size: u64,
    runs: usize,
    budget: u64,
    out: &mut Sheet,
) -> Result<(), Memory>
    requires image { image.now ≡ lowered p.now }
    requires observer { observer.number < p.now.program.order.size }
    requires start { IsFor p.now.program (seen start.now) }
    ensures { OnOk result (out.new.text.items ≡ out.old.text.items ++ ((codes "class " ++ (decimal size ++ codes " first "))
        ++ line_text p.now observer first
        (told_by (run_from E.env image.now.instrs budget (start_of (M.made maker.now) p.now.program.order (seen start.now)))))) }
{
    let mut machine = load(alloc, maker, p, image, start)?;
    let words = class_words(size);
    match write_all(out, words.bytes()) {
        Ok(()) => {}
        Err(_) => return Err(Memory),
    }
    match write_line(&mut machine, p, observer, first, runs, budget, out) {
        Ok(()) => Ok(()),
        Err(_) => Err(Memory),
    }
}

// Writes the lines of all classes, in the environments of a maker.
fn write_in<E: MachineEnv + Drop, M: MachineMaker<E>>(
    alloc: Global,
    maker: &M,
    p: &Labelled,
    image: &Image,
    observer: Label,
    starts: &[Start],
    setting: Setting,
    found: &ClassSizes,
    out: &mut Sheet,
) -> Result<(), Memory>
    requires fit { CanAudit p.now observer image.now (map seen starts.now) }
    requires machine { hardware_of setting.env ≡ M.machine maker.now }
    requires are { AreSizes (classes_of_runs (sequences_in setting.env setting.budget p.now observer.number
        (map seen starts.now))) found.now }
    ensures { OnOk result (out.new.text.items ≡ out.old.text.items ++ class_lines p.now.program.declarations
        (classes_of_runs (sequences_in setting.env setting.budget p.now observer.number (map seen starts.now))).seen
        (classes_of_runs (sequences_in setting.env setting.budget p.now observer.number (map seen starts.now))).firsts) }
{
    image.laws();
    makers_tell_as_histories::<E, M>();
    let (sizes, firsts) = (found.sizes.as_slice(), found.firsts.as_slice());
    for (k, &first) in firsts.iter().enumerate() {
        let start = &starts[first as usize - 1];
        write_class(
            alloc,
            maker,
            p,
            image,
            observer,
            start,
            first,
            sizes[k],
            starts.len(),
            setting.budget,
            out,
        )?;
    }
    Ok(())
}

// Writes them in an environment.
fn write_named(
    alloc: Global,
    p: &Labelled,
    image: &Image,
    observer: Label,
    starts: &[Start],
    setting: Setting,
    found: &ClassSizes,
    out: &mut Sheet,
) -> Result<(), Memory>
    requires fit { CanAudit p.now observer image.now (map seen starts.now) }
    requires are { AreSizes (classes_of_runs (sequences_in setting.env setting.budget p.now observer.number
        (map seen starts.now))) found.now }
    ensures { OnOk result (out.new.text.items ≡ out.old.text.items ++ class_lines p.now.program.declarations
        (classes_of_runs (sequences_in setting.env setting.budget p.now observer.number (map seen starts.now))).seen
        (classes_of_runs (sequences_in setting.env setting.budget p.now observer.number (map seen starts.now))).firsts) }
{
    in_env!(setting.env, maker => write_in(alloc, maker, p, image, observer, starts, setting, found, out))
}

/// Appends the lines of all classes to a text: the first run of each is run once more, in an environment.
///
/// # Errors
/// `Memory` where memory runs out.
pub(crate) fn with_classes(
    alloc: Global,
    p: &Labelled,
    image: &Image,
    observer: Label,
    starts: &[Start],
    setting: Setting,
    found: &ClassSizes,
    text: Vec<u8>,
) -> Result<Vec<u8>, Memory>
    requires fit { CanAudit p.now observer image.now (map seen starts.now) }
    requires are { AreSizes (classes_of_runs (sequences_in setting.env setting.budget p.now observer.number
        (map seen starts.now))) found.now }
    ensures { IfOk result (λ v. v.items ≡ text.items ++ class_lines p.now.program.declarations
        (classes_of_runs (sequences_in setting.env setting.budget p.now observer.number (map seen starts.now))).seen
        (classes_of_runs (sequences_in setting.env setting.budget p.now observer.number (map seen starts.now))).firsts) }
{
    let mut out = Sheet { text, faults: 0 };
    write_named(alloc, p, image, observer, starts, setting, found, &mut out)?;
    Ok(out.text)
}
