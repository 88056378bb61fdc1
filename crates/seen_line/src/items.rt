//! Assignments as items of a field.

ghost use Rattle.std.specs.Prelude.{◌≡◌, ◌<◌, ◌≤◌, ◌++◌, length};
ghost use Rattle.mit_syntax.specs.Declarations.{variables};
ghost use Rattle.seen_line.specs.Field.{lead, item};

use event_print::cells::{put_cell, put_number, put_value};
use mit_syntax::program::Program;
use tim_base::line::Line;

// Fills a line anew with the space before an item that is not the first one.
fn put_lead(line: &mut Line, none: bool)
    ensures text { line.new ≡ lead none }
    ensures short { length line.new ≤ 1 }
{
    line.clear();
    if !none {
        line.put_text(b" ");
    }
}

/// Fills a line anew with the item of an assignment, after a space if it is not the first one.
pub fn item_line(line: &mut Line, p: &Program, none: bool, variable: u32, value: i64, cycle: u64)
    requires { variable < variables p.now.declarations }
    ensures { line.new ≡ lead none ++ item p.now.declarations variable value cycle }
{
    put_lead(line, none);
    put_cell(line, p, variable);
    put_value(line, b"=", value);
    put_number(line, b"@", cycle);
}
