//! The lines of reports.

ghost use Rattle.std.specs.Prelude.{◌≡◌, ◌+◌, ◌≤◌, ◌++◌, length};
ghost use Rattle.mit_syntax.specs.Declarations.{cell_at};
ghost use Rattle.event_print.specs.Text.{cell_text, cycle_text};
ghost use Rattle.black_box.specs.Outcomes.{seen};
ghost use Rattle.tool_texts.specs.Reports.{label_line, bound_line, class_line, place_name, disagree_line};
ghost use Rattle.tool_texts.specs.Reports.{unfinished_line, events_line, release_line, run_text, ready_fault_line, made_line};

use super::{memory, number, put, put_label, put_number, words};
use black_box::fault::ReadyFault;
use black_box::release::Releases;
use env_contract::place::Place;
use event_print::cells::put_cell;
use label_lattice::label::Label;
use label_lattice::lattice::Lattice;
use leak_audit::what::What;
use mit_syntax::program::Program;
use tim_base::line::Line;

/// Words, the name of a label, and the end of the line.
pub fn label(text: &[u8], order: &Lattice, l: Label) -> Line
    requires { length text.now ≤ 64 }
    ensures { result ≡ label_line text.now order.now l }
{
    let mut line = Line::new();
    put(&mut line, text);
    put_label(&mut line, order, l);
    put(&mut line, b"\n");
    line
}

/// The line of a bound, by its base and its exponent.
pub fn bound(base: u64, exponent: u32) -> Line
    ensures { result ≡ bound_line base exponent }
{
    let mut line = Line::new();
    put(&mut line, b"bound ");
    put_number(&mut line, base);
    put(&mut line, b"^");
    put_number(&mut line, exponent as u64);
    put(&mut line, b"\n");
    line
}

/// The line of the class of a run.
pub fn class(run: u64, class: u32) -> Line
    ensures { result ≡ class_line run class }
{
    let mut line = Line::new();
    put(&mut line, b"run ");
    put_number(&mut line, run);
    put(&mut line, b" class ");
    put_number(&mut line, class as u64);
    put(&mut line, b"\n");
    line
}

fn place_name(place: Place) -> &'static [u8]
    ensures name { result.now ≡ place_name place }
    ensures short { length result.now ≤ 6 }
{
    match place {
        Place::Page => b"page",
        Place::Code => b"code",
        Place::Data => b"data",
        Place::Second => b"second",
    }
}

// Appends a variable; nothing for a number that is no variable.
fn put_variable(line: &mut Line, p: &Program, x: u32)
    requires { length line.old ≤ 60 }
    ensures text { line.new ≡ line.old ++ cell_text (cell_at p.now.declarations x) }
    ensures size { length line.new ≤ length line.old + 64 }
{
    if x < p.variables() {
        put_cell(line, p, x);
    }
}

// The line of a run that differs from the first one in a variable.
fn differs_in_variable(p: &Program, run: u32, x: u32) -> Line
    ensures { result ≡ disagree_line p.now run (What.Variable x) }
{
    let mut line = Line::new();
    put(&mut line, b"disagree: run ");
    put_number(&mut line, run as u64);
    put(&mut line, b": variable ");
    put_variable(&mut line, p, x);
    put(&mut line, b"\n");
    line
}

// The line of a run that differs from the first one in what its environment holds at a place for a label.
fn differs_in_partition(p: &Program, run: u32, place: Place, l: Label) -> Line
    ensures { result ≡ disagree_line p.now run (What.Partition place l) }
{
    let mut line = Line::new();
    put(&mut line, b"disagree: run ");
    put_number(&mut line, run as u64);
    put(&mut line, b": partition ");
    put_label(&mut line, p.lattice(), l);
    put(&mut line, b" of ");
    put(&mut line, place_name(place));
    put(&mut line, b"\n");
    line
}

/// The line of a run that does not agree with the first one, and where it differs.
pub fn disagree(p: &Program, run: u32, what: What) -> Line
    ensures { result ≡ disagree_line p.now run what }
{
    match what {
        What::Variable(x) => differs_in_variable(p, run, x),
        What::Partition(place, l) => differs_in_partition(p, run, place, l),
    }
}

// Appends a cycle and the end of the line.
fn put_cycle(line: &mut Line, cycle: u64)
    requires { length line.old ≤ 130 }
    ensures { line.new ≡ line.old ++ cycle_text cycle }
{
    put(line, b" @");
    put_number(line, cycle);
    put(line, b"\n");
}

/// The line of a run that has not halted, and its clock.
pub fn unfinished(run: u32, cycle: u64) -> Line
    ensures { result ≡ unfinished_line run cycle }
{
    let mut line = Line::new();
    put(&mut line, b"unfinished: run ");
    put_number(&mut line, run as u64);
    put_cycle(&mut line, cycle);
    line
}

/// The line of an audit whose runs show too many assignments, by their number.
pub fn too_long_events(count: u64) -> Line
    ensures { result ≡ events_line count }
{
    number(b"too long: events ", count)
}

/// The line of the release of an event of a run.
pub fn release(run: u64, event: u64, cycle: u64) -> Line
    ensures { result ≡ release_line run event cycle }
{
    let mut line = Line::new();
    put(&mut line, b"run ");
    put_number(&mut line, run);
    put(&mut line, b" event ");
    put_number(&mut line, event);
    put_cycle(&mut line, cycle);
    line
}

/// The line of a run of a black box: its events, its releases and epochs, and its class.
pub fn run(run: u64, events: u64, releases: &Releases, class: u32) -> Line
    ensures { result ≡ run_text run events (seen releases.now) class }
{
    let mut line = Line::new();
    put(&mut line, b"run ");
    put_number(&mut line, run);
    put(&mut line, b" events ");
    put_number(&mut line, events);
    put(&mut line, b" released ");
    put_number(&mut line, releases.at.len() as u64);
    put(&mut line, b" epochs ");
    put_number(&mut line, releases.epochs as u64);
    put(&mut line, b" class ");
    put_number(&mut line, class as u64);
    put(&mut line, b"\n");
    line
}

/// The line of a file of ready cycles that is refused.
pub fn ready_fault(fault: ReadyFault) -> Line
    ensures { result ≡ ready_fault_line fault }
{
    match fault {
        ReadyFault::BadLine(n) => number(b"ready: bad line ", n as u64),
        ReadyFault::NoRuns => words(b"ready: no runs\n"),
        ReadyFault::TooMany(n) => number(b"ready: too many runs: ", n as u64),
        ReadyFault::Memory => memory(),
    }
}

/// The line of a made program, by its size and its number.
pub fn made(size: u32, number: u32) -> Line
    ensures { result ≡ made_line size number }
{
    let mut line = Line::new();
    put(&mut line, b"made ");
    put_number(&mut line, size as u64);
    put(&mut line, b" ");
    put_number(&mut line, number as u64);
    put(&mut line, b"\n");
    line
}
