//! The lines of a run without its time.

ghost use Rattle.std.specs.Prelude.{◌≡◌, ◌<◌};
ghost use Rattle.mit_syntax.specs.Declarations.{variables};
ghost use Rattle.tool_texts.specs.Texts.{value_line, ended_line, not_ended_line};

use event_print::cells::{put_cell, put_value};
use mit_syntax::program::Program;
use tim_base::line::Line;

/// Fills a line anew with that of an assignment.
pub fn value_line(line: &mut Line, p: &Program, variable: u32, value: i64)
    requires { variable < variables p.now.declarations }
    ensures { line.new ≡ value_line p.now.declarations variable value }
{
    line.clear();
    put_cell(line, p, variable);
    put_value(line, b" = ", value);
    line.put_text(b"\n");
}

/// The last line where nothing is left to do after so many steps.
pub fn ended(steps: u64) -> Line
    ensures { result ≡ ended_line steps }
{
    let mut line = Line::new();
    line.put_text(b"ended after ");
    line.put_unsigned(steps);
    line.put_text(b" steps\n");
    line
}

/// The last line where something is left to do after so many steps.
pub fn not_ended(steps: u64) -> Line
    ensures { result ≡ not_ended_line steps }
{
    let mut line = Line::new();
    line.put_text(b"not ended after ");
    line.put_unsigned(steps);
    line.put_text(b" steps\n");
    line
}
