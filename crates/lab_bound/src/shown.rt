//! The lines of runs on a machine whose banks all labels share.

ghost use Rattle.std.specs.Prelude.{◌≡◌, ◌++◌, OnOk};
ghost use Rattle.tool_texts.specs.Reports.{class_lines};
ghost use Rattle.machine_stage.specs.Lines.{no_bound_line};
ghost use Rattle.lab_bound.specs.Answer.{shown_head, shown_lines};

use label_lattice::label::Label;
use label_lattice::lattice::Lattice;
use leak_audit::report::AuditReport;
use machine_stage::lines::no_bound;
use std::alloc::AllocError;
use tim_base::line::Line;
use tool_texts::lines::number;
use tool_texts::lines::report::label;
use tool_texts::pieces::audits::put_classes;

// Appends a line.
fn put(text: &mut Vec<u8>, line: &Line) -> Result<(), AllocError>
    ensures { OnOk result (text.new.items ≡ text.old.items ++ line.now) }
{
    text.extend_from_slice(line.bytes())
}

/// Appends how many runs there are, the observer and the budget in cycles.
///
/// # Errors
/// `AllocError` where memory runs out.
pub fn put_shown_head(
    text: &mut Vec<u8>,
    order: &Lattice,
    observer: Label,
    budget: u64,
    report: &AuditReport,
) -> Result<(), AllocError>
    ensures { OnOk result (text.new.items ≡ text.old.items ++ shown_head order.now observer budget report.now) }
{
    put(text, &number(b"runs ", u64::from(report.runs)))?;
    put(text, &label(b"observer ", order, observer))?;
    put(text, &number(b"budget ", budget))?;
    Ok(())
}

// Appends that no bound is told, and the class of each run.
fn put_unbounded(text: &mut Vec<u8>, classes: &[u32]) -> Result<(), AllocError>
    ensures { OnOk result (text.new.items ≡ text.old.items ++ (no_bound_line ++ class_lines 1 classes.now)) }
{
    put(text, &no_bound())?;
    put_classes(text, classes)?;
    Ok(())
}

/// Appends the same, and the mitigations of the first run, the different sequences, that no bound is told, and the class of
/// each run.
///
/// # Errors
/// `AllocError` where memory runs out.
pub(crate) fn put_shown(
    text: &mut Vec<u8>,
    order: &Lattice,
    observer: Label,
    budget: u64,
    report: &AuditReport,
) -> Result<(), AllocError>
    ensures { OnOk result (text.new.items ≡ text.old.items ++ shown_lines order.now observer budget report.now) }
{
    put_shown_head(text, order, observer, budget, report)?;
    put(text, &number(b"mitigations ", report.mitigations))?;
    put(
        text,
        &number(b"distinct ", u64::from(report.measures.distinct)),
    )?;
    put_unbounded(text, report.measures.classes.as_slice())?;
    Ok(())
}
