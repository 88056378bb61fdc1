//! The lines of a run.

ghost use Rattle.std.specs.Prelude.{◌≡◌, ◌<◌, ◌≤◌, ◌++◌, length};
ghost use Rattle.mit_syntax.specs.Declarations.{variables};
ghost use Rattle.event_print.specs.Text.{cycle_text, event_line, last_line};

use crate::cells::{put_cell, put_value};
use cycle_machine::end::RunEnd;
use mit_syntax::program::Program;
use tim_base::line::Line;

// Ends a line with a cycle.
fn put_cycle(line: &mut Line, cycle: u64)
    requires { length line.old ≤ 128 }
    ensures { line.new ≡ line.old ++ cycle_text cycle }
{
    line.put_text(b" @");
    line.put_unsigned(cycle);
    line.put_text(b"\n");
}

/// Fills a line anew with that of an assignment.
pub fn event_line(line: &mut Line, p: &Program, variable: u32, value: i64, cycle: u64)
    requires { variable < variables p.now.declarations }
    ensures { line.new ≡ event_line p.now.declarations variable value cycle }
{
    line.clear();
    put_cell(line, p, variable);
    put_value(line, b" = ", value);
    put_cycle(line, cycle);
}

/// The last line.
pub fn last_line(end: RunEnd) -> Line
    ensures { result ≡ last_line end }
{
    let mut line = Line::new();
    match end {
        RunEnd::Halted(cycle) => {
            line.put_text(b"end");
            put_cycle(&mut line, cycle);
        }
        RunEnd::Limit(cycle) => {
            line.put_text(b"limit");
            put_cycle(&mut line, cycle);
        }
    }
    line
}
