//! The text of a black box.

ghost use Rattle.std.specs.Prelude.{◌≡◌, ◌≤◌, ◌++◌, OnOk, length, map};
ghost use Rattle.black_box.specs.Files.{ready_lists};
ghost use Rattle.black_box.specs.Outcomes.{seen};
ghost use Rattle.tool_texts.specs.Reports.{release_lines, releases_of, run_texts, box_text};

use super::{put, put_number};
use crate::lines::report::{bound, release, run};
use black_box::audit::BoxAudit;
use black_box::release::Releases;
use run_limits::MAX_RUNS;
use std::alloc::AllocError;

// Appends the releases of a run.
fn put_releases(text: &mut Vec<u8>, run: u64, at: &[u64]) -> Result<(), AllocError>
    ensures { OnOk result (text.new.items ≡ text.old.items ++ release_lines run 1 at.now) }
{
    for (k, cycle) in at.iter().enumerate() {
        put(text, &release(run, k as u64 + 1, *cycle))?;
    }
    Ok(())
}

// Appends the releases of all runs.
fn put_all_releases(text: &mut Vec<u8>, runs: &[Releases]) -> Result<(), AllocError>
    requires { length runs.now ≤ MAX_RUNS }
    ensures { OnOk result (text.new.items ≡ text.old.items ++ releases_of 1 (map seen runs.now)) }
{
    for k in 0..runs.len() {
        put_releases(text, k as u64 + 1, runs[k].at.as_slice())?;
    }
    Ok(())
}

// Appends a line for each run.
fn put_runs(
    text: &mut Vec<u8>,
    all: &[Vec<u64>],
    runs: &[Releases],
    classes: &[u32],
) -> Result<(), AllocError>
    requires few { length all.now ≤ MAX_RUNS }
    requires runs { length runs.now ≡ length all.now }
    requires classes { length classes.now ≡ length all.now }
    ensures { OnOk result (text.new.items ≡ text.old.items ++ run_texts 1 (ready_lists all.now) (map seen runs.now) classes.now) }
{
    for k in 0..all.len() {
        let ready = all[k].as_slice();
        put(
            text,
            &run(k as u64 + 1, ready.len() as u64, &runs[k], classes[k]),
        )?;
    }
    Ok(())
}

/// Appends what is released when in the runs of a black box, how many different lists of releases there are,
/// and the class of each run.
///
/// # Errors
/// `AllocError` where memory runs out.
pub fn put_box(
    text: &mut Vec<u8>,
    all: &[Vec<u64>],
    first: u64,
    budget: u64,
    audit: &BoxAudit,
) -> Result<(), AllocError>
    requires few { length all.now ≤ MAX_RUNS }
    requires runs { length audit.now.runs.items ≡ length all.now }
    requires classes { length audit.now.classes.items ≡ length all.now }
    ensures { OnOk result (text.new.items ≡ text.old.items ++ box_text first budget (ready_lists all.now) (map seen audit.now.runs.items) audit.now.distinct
        audit.now.base audit.now.exponent audit.now.classes.items) }
{
    put_all_releases(text, audit.runs.as_slice())?;
    put_number(text, b"runs ", all.len() as u64)?;
    put_number(text, b"first ", first)?;
    put_number(text, b"budget ", budget)?;
    put_number(text, b"distinct ", audit.distinct as u64)?;
    put(text, &bound(audit.base, audit.exponent))?;
    put_runs(text, all, audit.runs.as_slice(), audit.classes.as_slice())?;
    Ok(())
}
