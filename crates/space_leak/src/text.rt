//! The text.

ghost use Rattle.std.specs.Prelude.{◌≡◌, ◌≤◌, ◌^◌, IfOk};
ghost use Rattle.class_counts.specs.Tally.{total};
ghost use Rattle.fixed_log.specs.Entropy.{AllSome};
ghost use Rattle.space_starts.specs.Space.{SpaceValue, size_of};
ghost use Rattle.leak_classes.specs.Views.{classes_of};
ghost use Rattle.space_leak.specs.Text.{sizes_of, IsSpaceText};

use crate::lines::{put_classes, put_head};
use label_lattice::label::Label;
use leak_classes::known::Known;
use leak_numbers::numbers::put_numbers;
use machine_stage::lines as machine;
use std::alloc::{AllocError, Global};
use timing_types::labelled::Labelled;
use tool_stages::setting::Setting;

/// The text of classes of so many starts.
///
/// # Errors
/// `AllocError` where memory runs out.
pub(crate) fn space_text(
    alloc: Global,
    p: &Labelled,
    observer: Label,
    setting: Setting,
    size: u64,
    known: &Known,
) -> Result<Vec<u8>, AllocError>
    requires few { size ≤ 2 ^ 40 }
    requires total { total known.now.classes.entries ≡ size }
    requires some { AllSome (sizes_of (classes_of known.now)) }
    ensures { IfOk result (λ v. (s : SpaceValue) → size_of s ≡ size → IsSpaceText setting.env p.now observer setting.budget s (classes_of known.now) v.items) }
{
    let mut text = Vec::new(alloc);
    machine::put_head(&mut text, setting.env)?;
    let program = p.program();
    let order = program.lattice();
    put_head(&mut text, order, observer, setting.budget, size)?;
    put_numbers(&mut text, size, known.classes.values().as_slice())?;
    put_classes(&mut text, program, known)?;
    Ok(text)
}
