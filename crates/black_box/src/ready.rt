//! From the bytes of a file to the runs with the ready cycles of their events.

ghost use Rattle.std.specs.Prelude.{◌≡◌, ◌≢◌, ◌+◌, ◌<◌, ◌≤◌, ◌^◌, List, ◌∷◌, length, vec_len};
ghost use Rattle.std.specs.Prelude.{false, Some, None, IfOk, IfErr, OnOk};
ghost use Rattle.black_box.specs.declared.line.Line.{Line};
ghost use Rattle.black_box.specs.Lines.{first_bad, lines_of};
ghost use Rattle.black_box.specs.Files.{lists, has_runs, Takes, Holds, refusal, IsBadLine};

use crate::fault::ReadyFault;
use crate::line::{Line, line_of};
use run_limits::{MAX_RUNS, are_too_many};
use std::alloc::Global;

// Adds to the runs what the line with a number says.
fn take_line(
    alloc: Global,
    runs: &mut Vec<Vec<u64>>,
    number: u32,
    line: Line,
) -> Result<(), ReadyFault>
    ensures taken { OnOk result (Takes line (lists runs.old) (lists runs.new)) }
    ensures short { OnOk result (vec_len runs.new ≤ vec_len runs.old + 1) }
    ensures bad { IfErr result (λ e. e ≢ ReadyFault.Memory → e ≡ ReadyFault.BadLine number) }
    ensures first { IfErr result (λ e. e ≢ ReadyFault.Memory → (rest : List Line)
        → first_bad (has_runs (lists runs.old)) number (line ∷ rest) ≡ Some number) }
{
    match line {
        Line::Blank => Ok(()),
        Line::Run => {
            runs.push(Vec::new(alloc))?;
            Ok(())
        }
        Line::Ready(cycle) => match runs.last_mut() {
            Some(run) => {
                run.push(cycle)?;
                Ok(())
            }
            None => Err(ReadyFault::BadLine(number)),
        },
        Line::Bad => Err(ReadyFault::BadLine(number)),
    }
}

// The runs of a file, however many there are.
fn all_runs(alloc: Global, bytes: &[u8]) -> Result<Vec<Vec<u64>>, ReadyFault>
    requires { length bytes.now < 2 ^ 31 }
    ensures holds { IfOk result (λ v. Holds bytes.now (lists v)) }
    ensures good { OnOk result (first_bad false 1 (lines_of bytes.now) ≡ None) }
    ensures few { IfOk result (λ v. vec_len v ≤ 2 ^ 31) }
    ensures bad { IfErr result (λ e. e ≢ ReadyFault.Memory → IsBadLine (first_bad false 1 (lines_of bytes.now)) e) }
{
    let mut runs = Vec::new(alloc);
    let mut number = 0;
    for line in bytes.split(|byte| *byte == b'\n') {
        number += 1;
        take_line(alloc, &mut runs, number, line_of(line))?;
    }
    Ok(runs)
}

/// The runs of a file, in order, each with the cycles at which its events are ready, which are at most 2^40.
/// There are from 1 to 4,096 runs.
///
/// A file has lines, each of which ends at a line feed; the last one may lack it. Spaces, tabs and carriage
/// returns at the ends of a line are ignored, and so are empty lines. A line is `run`, which begins a run, or
/// one to twenty digits, the cycle of the next event. The file has less than 2^31 bytes.
///
/// # Errors
/// What the file is refused for first, or `Memory`. First the lines are checked, then that there is a run, then
/// that there are not too many.
pub fn read_ready(alloc: Global, bytes: &[u8]) -> Result<Vec<Vec<u64>>, ReadyFault>
    requires { length bytes.now < 2 ^ 31 }
    ensures runs { IfOk result (λ v. Holds bytes.now (lists v)) }
    ensures accepted { OnOk result (refusal bytes.now ≡ None) }
    ensures refused { IfErr result (λ e. e ≢ ReadyFault.Memory → refusal bytes.now ≡ Some e) }
    ensures some { IfOk result (λ v. 1 ≤ vec_len v) }
    ensures few { IfOk result (λ v. vec_len v ≤ MAX_RUNS) }
{
    let runs = all_runs(alloc, bytes)?;
    if runs.is_empty() {
        return Err(ReadyFault::NoRuns);
    }
    if are_too_many(runs.len()) {
        return Err(ReadyFault::TooMany(runs.len() as u32));
    }
    Ok(runs)
}
