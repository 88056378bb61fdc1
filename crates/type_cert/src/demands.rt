//! The demands on the line of a command.

ghost use Rattle.std.specs.Prelude.{◌≡◌, ◌↔◌, Option, IsTrue};
ghost use Rattle.label_lattice.specs.Order.{lattice_of};
ghost use Rattle.label_infer.specs.Least.{own};
ghost use Rattle.type_cert.specs.Certificate.{line_at};
ghost use Rattle.type_cert.specs.Demands.{marks_in, level_in, start_of, KeepsLevel, KeepsRule, Closes, Meets};

use crate::line::Line;
use crate::place::{Act, Close, Place, Start};
use label_lattice::label::Label;
use label_lattice::lattice::Lattice;
use timing_types::rule::Rule;

/// The line of the command with a number; past the last one that is read, a line of bottoms.
fn line_at(lines: &[Line], number: usize, order: &Lattice) -> Line
    ensures { result ≡ line_at order.now.bottom lines.now number }
{
    match lines.get(number) {
        Some(line) => *line,
        None => {
            let bottom = order.bottom();
            Line {
                rule: Rule::Skip,
                pc: bottom,
                start: bottom,
                read: bottom,
                write: bottom,
                end: bottom,
                level: None,
            }
        }
    }
}

/// The level of a mitigate's line.
fn level_in(order: &Lattice, level: Option<Label>) -> Label
    ensures { result.number ≡ level_in order.now.bottom level }
{
    match level {
        Some(level) => level,
        None => order.bottom(),
    }
}

/// The start label that the lines before give.
fn start_of(order: &Lattice, lines: &[Line], start: Start) -> Label
    ensures { result.number ≡ start_of (lattice_of order.now) (line_at order.now.bottom lines.now) start }
{
    match start {
        Start::First => order.bottom(),
        Start::After(before) => line_at(lines, before, order).end,
        Start::Within { whole, reads } => {
            let whole = line_at(lines, whole, order);
            order.join(order.join(whole.start, reads), whole.read)
        }
        Start::Around(whole) => line_at(lines, whole, order).end,
    }
}

/// Whether the two labels are those that are written, or without marks both this one.
fn has_marks(written: Option<(Label, Label)>, here: Label, line: &Line) -> bool
    ensures { IsTrue result ↔ (marks_in line.now ≡ own written here.number) }
{
    let (read, write) = match written {
        Some(pair) => pair,
        None => (here, here),
    };
    line.read.number == read.number && line.write.number == write.number
}

/// Whether a written level is kept.
fn keeps_level(order: &Lattice, act: Act, level: Option<Label>) -> bool
    ensures { IsTrue result ↔ KeepsLevel order.now.bottom act level }
{
    match act {
        Act::Mitigate {
            estimate: _,
            level: Some(written),
        } => level_in(order, level).number == written.number,
        _ => true,
    }
}

/// Whether the line keeps the rule of its command.
fn keeps_rule(order: &Lattice, act: Act, line: &Line) -> bool
    ensures { IsTrue result ↔ KeepsRule (lattice_of order.now) act line.now }
{
    let end = line.end.number;
    match act {
        Act::Skip => end == order.join(line.start, line.read).number,
        Act::Assign { reads, target } => {
            let have = order.join(order.join(reads, line.start), line.read);
            order.flows(have, target) && end == target.number
        }
        Act::Sleep { time } => end == order.join(order.join(line.start, time), line.read).number,
        Act::If { .. } => true,
        Act::While { guard } => {
            let have = order.join(order.join(guard, line.start), line.read);
            order.flows(have, line.end)
        }
        Act::Mitigate { estimate, .. } => {
            end == order
                .join(order.join(line.start, estimate), line.read)
                .number
        }
    }
}

/// Whether the end label is right for what it closes.
fn closes(order: &Lattice, lines: &[Line], close: Close, end: Label) -> bool
    ensures { IsTrue result ↔ Closes (lattice_of order.now) (line_at order.now.bottom lines.now) close end.number }
{
    match close {
        Close::Open => true,
        Close::If { whole, then_last } => {
            let both = order.join(line_at(lines, then_last, order).end, end);
            line_at(lines, whole, order).end.number == both.number
        }
        Close::While(whole) => end.number == line_at(lines, whole, order).end.number,
        Close::Mitigate(whole) => {
            order.flows(end, level_in(order, line_at(lines, whole, order).level))
        }
    }
}

/// Whether the line of the command at a place meets all that is demanded of it.
pub(crate) fn meets(order: &Lattice, lines: &[Line], place: &Place, line: &Line) -> bool
    ensures { IsTrue result ↔ Meets (lattice_of order.now) (line_at order.now.bottom lines.now) place.now line.now }
{
    if line.pc.number != place.pc.number {
        return false;
    }
    if line.start.number != start_of(order, lines, place.start).number {
        return false;
    }
    if !has_marks(place.written, place.here, line) {
        return false;
    }
    if !keeps_level(order, place.act, line.level) {
        return false;
    }
    if !order.flows(place.here, line.write) {
        return false;
    }
    keeps_rule(order, place.act, line) && closes(order, lines, place.close, line.end)
}
