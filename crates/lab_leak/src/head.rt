//! The lines before those of the classes.

ghost use Rattle.std.specs.Prelude.{◌≡◌, ◌++◌, OnOk};
ghost use Rattle.leak_audit.specs.declared.report.AuditReport.{AuditReport as AuditReportValue};
ghost use Rattle.lab_bound.specs.Answer.{shown_head};
ghost use Rattle.lab_leak.specs.Text.{sharp_line, head_lines, shown_lines};

use lab_bound::shown::put_shown_head;
use label_lattice::label::Label;
use label_lattice::lattice::Lattice;
use leak_audit::report::AuditReport;
use machine_stage::lines::no_bound;
use seen_line::cells::put_wide;
use std::alloc::AllocError;
use tim_base::line::Line;
use tool_texts::lines::number;
use tool_texts::lines::report::{bound, label};

// Appends a line.
fn put(text: &mut Vec<u8>, line: &Line) -> Result<(), AllocError>
    ensures { OnOk result (text.new.items ≡ text.old.items ++ line.now) }
{
    text.extend_from_slice(line.bytes())
}

// The line of a sharp count, which may be too large to be told.
fn sharp(count: Option<u128>) -> Line
    ensures { result ≡ sharp_line count }
{
    let mut line = Line::new();
    match count {
        Some(count) => put_wide(&mut line, b"sharp ", count),
        None => line.put_text(b"sharp 2^128 or more"),
    }
    line.put_text(b"\n");
    line
}

/// Appends the number of the runs, the observer, the budget in cycles, the bound and the sharp count.
///
/// # Errors
/// `AllocError` where memory runs out.
pub(crate) fn put_head(
    text: &mut Vec<u8>,
    order: &Lattice,
    observer: Label,
    budget: u64,
    report: &AuditReport,
    count: Option<u128>,
) -> Result<(), AllocError>
    ensures { OnOk result (text.new.items ≡ text.old.items ++ head_lines order.now observer budget report.now count) }
{
    put(text, &number(b"runs ", u64::from(report.runs)))?;
    put(text, &label(b"observer ", order, observer))?;
    put(text, &number(b"budget ", budget))?;
    put(text, &bound(report.measures.base, report.measures.exponent))?;
    put(text, &sharp(count))?;
    Ok(())
}

/// Appends the number of the runs, the observer, the budget in cycles, and that no bound is told.
///
/// # Errors
/// `AllocError` where memory runs out.
pub(crate) fn put_shown(
    text: &mut Vec<u8>,
    order: &Lattice,
    observer: Label,
    budget: u64,
    report: &AuditReport,
) -> Result<(), AllocError>
    ensures { OnOk result (text.new.items ≡ text.old.items ++ shown_lines order.now observer budget report.now) }
{
    put_shown_head(text, order, observer, budget, report)?;
    put(text, &no_bound())?;
    Ok(())
}

/// Appends the number of the runs, the observer, and the budget in cycles.
///
/// # Errors
/// `AllocError` where memory runs out.
pub(crate) fn put_open(
    text: &mut Vec<u8>,
    order: &Lattice,
    observer: Label,
    budget: u64,
    runs: u64,
) -> Result<(), AllocError>
    ensures { OnOk result ((r : AuditReportValue) → r.runs ≡ runs → text.new.items ≡ text.old.items ++ shown_head order.now observer budget r) }
{
    put(text, &number(b"runs ", runs))?;
    put(text, &label(b"observer ", order, observer))?;
    put(text, &number(b"budget ", budget))?;
    Ok(())
}
