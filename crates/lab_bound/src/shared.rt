//! The line of the count by shared time.

ghost use Rattle.std.specs.Prelude.{OnOk};
ghost use Rattle.lab_bound.specs.Text.{SharedPut};

use crate::lines::put_shared_line;
use label_lattice::label::Label;
use level_counts::apart::stand_apart;
use sharp_count::count::LevelRuns;
use sharp_count::shared_product::shared_product;
use std::alloc::Global;
use text_base::pos::Memory;
use timing_types::typed::Typed;

/// Appends the count by shared time of what is told of the levels, if no mitigate that is relevant to an observer stands in
/// another one. Fails only for want of memory.
pub fn put_shared(
    alloc: Global,
    text: &mut Vec<u8>,
    typed: &Typed,
    observer: Label,
    t: u64,
    levels: &[LevelRuns],
) -> Result<(), Memory>
    ensures { OnOk result (SharedPut typed.now.labelled observer.number t levels.now text.old.items text.new.items) }
{
    if stand_apart(alloc, typed, observer)? {
        let count = shared_product(alloc, levels, t)?;
        put_shared_line(text, count)?;
    }
    Ok(())
}
