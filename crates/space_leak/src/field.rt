//! What a class shows, as a field.

ghost use Rattle.std.specs.Prelude.{◌≡◌, ◌≤◌, ◌+◌, ◌++◌, OnOk, length, map};
ghost use Rattle.mit_syntax.specs.Declarations.{cell_at};
ghost use Rattle.event_print.specs.Text.{cell_text};
ghost use Rattle.seen_line.specs.Field.{item_of, spaced, field_text};
ghost use Rattle.leak_audit.specs.Observed.{event_of};

use leak_audit::sighting::Sighting;
use mit_syntax::program::Program;
use seen_line::cells::{put_cell, put_number, put_value};
use std::alloc::AllocError;
use tim_base::line::Line;

/// Appends a variable; nothing for a number that is no variable.
pub(crate) fn put_variable(line: &mut Line, p: &Program, x: u32)
    requires { length line.old ≤ 60 }
    ensures text { line.new ≡ line.old ++ cell_text (cell_at p.now.declarations x) }
    ensures size { length line.new ≤ length line.old + 64 }
{
    if x < p.variables() {
        put_cell(line, p, x);
    }
}

// An assignment.
fn item(p: &Program, sighting: &Sighting) -> Line
    ensures { result ≡ item_of p.now.declarations (event_of sighting.now) }
{
    let mut line = Line::new();
    put_variable(&mut line, p, sighting.variable);
    put_value(&mut line, b"=", sighting.value);
    put_number(&mut line, b"@", sighting.cycle);
    line
}

// Appends an assignment.
fn put_item(text: &mut Vec<u8>, p: &Program, sighting: &Sighting) -> Result<(), AllocError>
    ensures { OnOk result (text.new.items ≡ text.old.items ++ item_of p.now.declarations (event_of sighting.now)) }
{
    let line = item(p, sighting);
    text.extend_from_slice(line.bytes())
}

// Appends assignments, each after a space.
fn put_rest(text: &mut Vec<u8>, p: &Program, rest: &[Sighting]) -> Result<(), AllocError>
    ensures { OnOk result (text.new.items ≡ text.old.items ++ spaced (map (item_of p.now.declarations) (map event_of rest.now))) }
{
    for sighting in rest {
        text.extend_from_slice(b" ")?;
        put_item(text, p, sighting)?;
    }
    Ok(())
}

/// Appends the field of a sequence.
///
/// # Errors
/// `AllocError` where memory runs out.
pub(crate) fn put_field(
    text: &mut Vec<u8>,
    p: &Program,
    sequence: &[Sighting],
) -> Result<(), AllocError>
    ensures { OnOk result (text.new.items ≡ text.old.items ++ field_text p.now.declarations (map event_of sequence.now)) }
{
    if sequence.is_empty() {
        return text.extend_from_slice(b"-");
    }
    put_item(text, p, &sequence[0])?;
    put_rest(text, p, &sequence[1..])
}
