//! The line of the count by own first predictions.

ghost use Rattle.std.specs.Prelude.{◌≡◌, ◌<◌, ◌+◌, ◌++◌, List, ℕ, All, OnOk, length, map};
ghost use Rattle.mit_syntax.specs.Program.{plan_of};
ghost use Rattle.source_meaning.specs.Source.{HasEnded};
ghost use Rattle.sharp_count.specs.Count.{fitting};
ghost use Rattle.own_firsts.specs.Count.{own_of};
ghost use Rattle.start_file.specs.Starts.{seen, IsFor};
ghost use Rattle.run_limits.specs.Cycles.{IsCycles};
ghost use Rattle.level_counts.specs.Begun.{memories_of};
ghost use Rattle.level_counts.specs.Listed.{AreListed};
ghost use Rattle.lab_bound.specs.Text.{IsOwnText, TextPut, own_line};

use crate::lines::put_own_line;
use label_lattice::label::Label;
use level_counts::apart::stand_apart;
use level_counts::firsts::first_predictions;
use own_firsts::count::own_product;
use start_file::start::Start;
use std::alloc::Global;
use text_base::pos::Memory;
use timing_types::typed::Typed;

// Appends the count by own first predictions of the runs from some starts.
fn put_count(
    alloc: Global,
    text: &mut Vec<u8>,
    typed: &Typed,
    starts: &[Start],
    observer: Label,
    t: u64,
) -> Result<(), Memory>
    requires some { 0 < length starts.now }
    requires starts { All (IsFor typed.now.labelled.program) (map seen starts.now) }
    requires ends { All (λ s. HasEnded (plan_of typed.now.labelled.program) s.memory (t + 1)) (map seen starts.now) }
    requires cycles { IsCycles t }
    ensures { OnOk result ((firsts : List (List ℕ)) × AreListed typed.now.labelled observer.number (memories_of (map seen starts.now)) firsts
        × (text.new.items ≡ text.old.items ++ own_line (fitting (own_of t firsts)))) }
{
    let firsts = first_predictions(alloc, typed, starts, observer, t + 1)?;
    put_own_line(text, own_product(&firsts, t))?;
    Ok(())
}

/// Appends the count by own first predictions of the runs from some starts, which end by cycle T, if no mitigate that is
/// relevant to an observer stands in another one. Fails only for want of memory.
pub fn put_own(
    alloc: Global,
    text: &mut Vec<u8>,
    typed: &Typed,
    starts: &[Start],
    observer: Label,
    t: u64,
) -> Result<(), Memory>
    requires some { 0 < length starts.now }
    requires starts { All (IsFor typed.now.labelled.program) (map seen starts.now) }
    requires ends { All (λ s. HasEnded (plan_of typed.now.labelled.program) s.memory (t + 1)) (map seen starts.now) }
    requires cycles { IsCycles t }
    ensures { OnOk result (TextPut (IsOwnText typed.now.labelled observer.number t (memories_of (map seen starts.now))) text.old.items text.new.items) }
{
    if stand_apart(alloc, typed, observer)? {
        put_count(alloc, text, typed, starts, observer, t)?;
    }
    Ok(())
}
