//! The texts of audits of a program's runs, and of made programs.

ghost use Rattle.std.specs.Prelude.{◌≡◌, ◌++◌, OnOk};
ghost use Rattle.mit_gen.specs.Made.{program_text};
ghost use Rattle.tool_texts.specs.Reports.{class_lines, head_lines, tail_lines, audit_lines, cut_lines, made_lines};

use super::{put, put_number};
use crate::lines::report::{bound, class, label, made};
use cut_audit::report::CutReport;
use label_lattice::label::Label;
use label_lattice::lattice::Lattice;
use leak_audit::measure::Measures;
use leak_audit::report::AuditReport;
use std::alloc::AllocError;

/// Appends a line for each run, by its class.
///
/// # Errors
/// `AllocError` where memory runs out.
pub fn put_classes(text: &mut Vec<u8>, classes: &[u32]) -> Result<(), AllocError>
    ensures { OnOk result (text.new.items ≡ text.old.items ++ class_lines 1 classes.now) }
{
    for (k, found) in classes.iter().enumerate() {
        put(text, &class(k as u64 + 1, *found))?;
    }
    Ok(())
}

// Appends the lines with which audits begin.
fn put_head(
    text: &mut Vec<u8>,
    order: &Lattice,
    observer: Label,
    budget: u64,
    runs: u32,
    levels: u32,
) -> Result<(), AllocError>
    ensures { OnOk result (text.new.items ≡ text.old.items ++ head_lines order.now observer budget runs levels) }
{
    put_number(text, b"runs ", runs as u64)?;
    put(text, &label(b"observer ", order, observer))?;
    put_number(text, b"budget ", budget)?;
    put_number(text, b"levels ", levels as u64)?;
    Ok(())
}

// Appends the lines with which they end.
fn put_tail(text: &mut Vec<u8>, measures: &Measures) -> Result<(), AllocError>
    ensures { OnOk result (text.new.items ≡ text.old.items ++ tail_lines measures.now) }
{
    put_number(text, b"distinct ", measures.distinct as u64)?;
    put(text, &bound(measures.base, measures.exponent))?;
    put_classes(text, measures.classes.as_slice())?;
    Ok(())
}

/// Appends the lines of an audit's report for an observer and a budget in cycles.
///
/// # Errors
/// `AllocError` where memory runs out.
pub fn put_audit(
    text: &mut Vec<u8>,
    order: &Lattice,
    observer: Label,
    budget: u64,
    report: &AuditReport,
) -> Result<(), AllocError>
    ensures { OnOk result (text.new.items ≡ text.old.items ++ audit_lines order.now observer budget report.now) }
{
    let levels = report.measures.levels;
    put_head(text, order, observer, budget, report.runs, levels)?;
    put_number(text, b"mitigations ", report.mitigations)?;
    put_tail(text, &report.measures)?;
    Ok(())
}

/// Appends the lines of an audit's report of runs that may not have halted.
///
/// # Errors
/// `AllocError` where memory runs out.
pub fn put_cut(
    text: &mut Vec<u8>,
    order: &Lattice,
    observer: Label,
    budget: u64,
    report: &CutReport,
) -> Result<(), AllocError>
    ensures { OnOk result (text.new.items ≡ text.old.items ++ cut_lines order.now observer budget report.now) }
{
    let levels = report.measures.levels;
    put_head(text, order, observer, budget, report.runs, levels)?;
    put_number(text, b"ended ", report.ended)?;
    put_number(text, b"halted ", report.halted as u64)?;
    put_tail(text, &report.measures)?;
    Ok(())
}

/// Appends what is told of a made program: its size and number, and how many bytes, commands and instructions
/// it has.
///
/// # Errors
/// `AllocError` where memory runs out.
pub fn put_made(
    text: &mut Vec<u8>,
    size: u32,
    number: u32,
    program: &[u8],
    commands: u32,
    instructions: u32,
) -> Result<(), AllocError>
    requires { program.now ≡ program_text size number }
    ensures { OnOk result (text.new.items ≡ text.old.items ++ made_lines size number commands instructions) }
{
    put(text, &made(size, number))?;
    put_number(text, b"program ", program.len() as u64)?;
    put_number(text, b"commands ", commands as u64)?;
    put_number(text, b"instructions ", instructions as u64)?;
    Ok(())
}
