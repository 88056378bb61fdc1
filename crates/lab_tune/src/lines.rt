//! The lines of `tune`.

ghost use Rattle.std.specs.Prelude.{◌≡◌, ◌<◌, ◌++◌, OnOk};
ghost use Rattle.lab_tune.specs.Text.{choice_line, choice_lines, head_lines, tune_line, no_number_line, none_line, too_late_line};

use event_print::cells::{put_number, put_wide};
use first_front::interval::Interval;
use label_lattice::label::Label;
use label_lattice::lattice::Lattice;
use std::alloc::AllocError;
use tim_base::line::Line;
use tool_texts::lines::number;
use tool_texts::lines::report::label;

/// The line that tells which mitigate it is.
pub(crate) fn tune(mark: u32) -> Line
    ensures { result ≡ tune_line mark }
{
    let mut line = Line::new();
    put_number(&mut line, b"tune #", u64::from(mark));
    line.put_text(b" alone, the others as written\n");
    line
}

/// The line where no number is pushed for the estimate of a mitigate.
pub(crate) fn no_number(mark: u32) -> Line
    ensures { result ≡ no_number_line mark }
{
    let mut line = Line::new();
    put_number(&mut line, b"tune #", u64::from(mark));
    line.put_text(b": its estimate is no number\n");
    line
}

/// The line where no first prediction tells so little.
pub(crate) fn none_enough(mark: u32, bits: u32) -> Line
    ensures { result ≡ none_line mark bits }
{
    let mut line = Line::new();
    put_number(&mut line, b"tune #", u64::from(mark));
    put_number(&mut line, b": none tells at most 2^", u64::from(bits));
    line.put_text(b"\n");
    line
}

/// The line where a run would be too long to be told.
pub(crate) fn too_late(mark: u32) -> Line
    ensures { result ≡ too_late_line mark }
{
    let mut line = Line::new();
    put_number(&mut line, b"tune #", u64::from(mark));
    line.put_text(b": too long\n");
    line
}

// The line of an interval of first predictions, for so many runs.
fn choice(interval: &Interval, runs: u64) -> Line
    requires { 0 < runs }
    ensures { result ≡ choice_line runs interval.now }
{
    let mean = interval.cost / u128::from(runs);
    let mut line = Line::new();
    put_number(&mut line, b"first ", interval.first);
    put_number(&mut line, b" to ", interval.last);
    put_number(&mut line, b" told ", interval.things as u64);
    put_wide(&mut line, b" mean ", mean);
    put_number(&mut line, b" greatest ", interval.latest);
    line.put_text(b"\n");
    line
}

/// Appends a line.
///
/// # Errors
/// `AllocError` where memory runs out.
pub(crate) fn put(text: &mut Vec<u8>, line: &Line) -> Result<(), AllocError>
    ensures { OnOk result (text.new.items ≡ text.old.items ++ line.now) }
{
    text.extend_from_slice(line.bytes())
}

/// Appends how many runs there are, the observer and the budget in cycles.
///
/// # Errors
/// `AllocError` where memory runs out.
pub(crate) fn put_runs(
    text: &mut Vec<u8>,
    order: &Lattice,
    observer: Label,
    budget: u64,
    runs: u64,
) -> Result<(), AllocError>
    ensures { OnOk result (text.new.items ≡ text.old.items ++ head_lines order.now observer budget runs) }
{
    put(text, &number(b"runs ", runs))?;
    put(text, &label(b"observer ", order, observer))?;
    put(text, &number(b"budget ", budget))?;
    Ok(())
}

/// Appends the lines of intervals of first predictions, for so many runs.
///
/// # Errors
/// `AllocError` where memory runs out.
pub(crate) fn put_choices(
    text: &mut Vec<u8>,
    intervals: &[Interval],
    runs: u64,
) -> Result<(), AllocError>
    requires { 0 < runs }
    ensures { OnOk result (text.new.items ≡ text.old.items ++ choice_lines runs intervals.now) }
{
    for interval in intervals {
        let line = choice(interval, runs);
        put(text, &line)?;
    }
    Ok(())
}
