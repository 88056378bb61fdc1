//! The lines of a step.

ghost use Rattle.std.specs.Prelude.{◌≡◌, ◌++◌, OnOk, None};
ghost use Rattle.mit_syntax.specs.Program.{Syntax};
ghost use Rattle.flow_path.specs.Steps.{written};
ghost use Rattle.flow_path.specs.declared.step.Spot.TheVariants.{Variable as AVariable};
ghost use Rattle.flow_print.specs.Lines.{label_text, place_text, line, reads_line, time_line, counts_line, label_line, reader_line, part_lines};
ghost use Rattle.flow_print.specs.Lines.{variable_text, variable_line, command_line, level_line, side_line, step_lines, first_line, place_if};

use crate::places::Spelling;
use crate::words::{bound, noun, put_label, put_line, put_place, put_variable, reader, spot_text};
use flow_path::step::{How, Spot, Step};
use flow_path::written::written_at;
use label_lattice::label::Label;
use mit_syntax::program::Program;
use std::alloc::{AllocError, Global};
use text_base::pos::Pos;

/// Puts a line on where a command reads a variable.
pub fn put_reads(
    out: &mut Vec<u8>,
    spelling: &Spelling,
    q: Pos,
    words: &[u8],
    name: &[u8],
) -> Result<(), AllocError>
    ensures { OnOk result (out.new.items ≡ out.old.items ++ reads_line spelling.now.text.now spelling.now.tokens.now q words.now name.now) }
{
    put_place(out, spelling.next_place(q, name))?;
    put_line(out, words, name)?;
    Ok(())
}

/// Puts words, what they are about, and the rest of the line.
fn put_about(
    out: &mut Vec<u8>,
    begin: &[u8],
    about: &[u8],
    words: &[u8],
    last: &[u8],
) -> Result<(), AllocError>
    ensures { OnOk result (out.new.items ≡ out.old.items ++ (begin.now ++ (about.now ++ line words.now last.now))) }
{
    out.extend_from_slice(begin)?;
    out.extend_from_slice(about)?;
    put_line(out, words, last)?;
    Ok(())
}

/// Puts such a line at a place.
fn put_about_at(
    out: &mut Vec<u8>,
    q: Pos,
    begin: &[u8],
    about: &[u8],
    words: &[u8],
    last: &[u8],
) -> Result<(), AllocError>
    ensures { OnOk result (out.new.items ≡ out.old.items ++ (place_text q ++ (begin.now ++ (about.now ++ line words.now last.now)))) }
{
    put_place(out, q)?;
    put_about(out, begin, about, words, last)?;
    Ok(())
}

/// Puts words, the name of a label, and the rest of the line.
fn put_about_label(
    out: &mut Vec<u8>,
    p: &Program,
    begin: &[u8],
    label: Label,
    words: &[u8],
    last: &[u8],
) -> Result<(), AllocError>
    ensures { OnOk result (out.new.items ≡ out.old.items ++ (begin.now ++ (label_text p.now.order label.number ++ line words.now last.now))) }
{
    out.extend_from_slice(begin)?;
    put_label(out, p.lattice(), label)?;
    put_line(out, words, last)?;
    Ok(())
}

/// Puts a line on the time of a command.
pub fn put_time(
    out: &mut Vec<u8>,
    spelling: &Spelling,
    q: Pos,
    first: &[u8],
) -> Result<(), AllocError>
    ensures { OnOk result (out.new.items ≡ out.old.items ++ time_line spelling.now.tokens.now q first.now) }
{
    let command = noun(spelling.kind_at(q));
    put_about_at(out, q, b"so how long this ", command, b" takes is ", first)?;
    Ok(())
}

/// Puts a line on the read label of a command.
pub fn put_read_label(
    out: &mut Vec<u8>,
    spelling: &Spelling,
    q: Pos,
    name: &[u8],
) -> Result<(), AllocError>
    ensures { OnOk result (out.new.items ≡ out.old.items ++ label_line spelling.now.tokens.now q name.now) }
{
    let command = noun(spelling.kind_at(q));
    put_place(out, q)?;
    put_about(out, b"this ", command, b" has the read label ", name)?;
    Ok(())
}

/// Puts a line on what a command reads before another one.
pub fn put_reader(
    out: &mut Vec<u8>,
    spelling: &Spelling,
    q: Pos,
    name: &[u8],
) -> Result<(), AllocError>
    ensures { OnOk result (out.new.items ≡ out.old.items ++ reader_line spelling.now.text.now spelling.now.tokens.now q name.now) }
{
    let reads = reader(spelling.kind_at(q));
    put_place(out, spelling.next_place(q, name))?;
    put_about(out, b"this ", reads, b" reads ", name)?;
    Ok(())
}

/// Puts a line at a place.
pub fn put_line_at(out: &mut Vec<u8>, q: Pos, words: &[u8], last: &[u8]) -> Result<(), AllocError>
    ensures { OnOk result (out.new.items ≡ out.old.items ++ (place_text q ++ line words.now last.now)) }
{
    put_place(out, q)?;
    put_line(out, words, last)?;
    Ok(())
}

/// Puts a line on the time of an assignment.
pub fn put_counts(out: &mut Vec<u8>, q: Pos, first: &[u8]) -> Result<(), AllocError>
    ensures { OnOk result (out.new.items ≡ out.old.items ++ counts_line q first.now) }
{
    let words = b"so how long this assignment takes counts as ".as_slice();
    put_line_at(out, q, words, first)?;
    Ok(())
}

/// Puts two lines at a place.
fn put_two_at(
    out: &mut Vec<u8>,
    q: Pos,
    words: &[u8],
    last: &[u8],
    more: &[u8],
    end: &[u8],
) -> Result<(), AllocError>
    ensures { OnOk result (out.new.items ≡ out.old.items ++ (place_text q ++ (line words.now last.now ++ (place_text q ++ line more.now end.now)))) }
{
    put_line_at(out, q, words, last)?;
    put_line_at(out, q, more, end)?;
    Ok(())
}

/// Puts how a part comes into the left side.
fn put_part(
    out: &mut Vec<u8>,
    spelling: &Spelling,
    how: How,
    q: Pos,
    name: &[u8],
    first: &[u8],
) -> Result<(), AllocError>
    ensures { OnOk result (out.new.items ≡ out.old.items ++ part_lines spelling.now.text.now spelling.now.tokens.now how q name.now first.now) }
{
    match how {
        How::Reads => put_reads(out, spelling, q, b"this value reads ", name),
        How::ReadsInIndex => put_reads(out, spelling, q, b"this index reads ", name),
        How::HasReadLabel => put_read_label(out, spelling, q, name),
        How::UnderGuard => put_reads(out, spelling, q, b"this guard reads ", name),
        How::AfterReading => {
            put_reader(out, spelling, q, name)?;
            put_time(out, spelling, q, first)?;
            Ok(())
        }
        How::AfterComputing => {
            put_reader(out, spelling, q, name)?;
            put_counts(out, q, first)?;
            Ok(())
        }
        How::AfterReadLabel => {
            put_read_label(out, spelling, q, name)?;
            put_time(out, spelling, q, first)?;
            Ok(())
        }
        How::AfterAssigning => {
            put_two_at(
                out,
                q,
                b"this assigns to ",
                name,
                b"so when it is done is ",
                first,
            )?;
            Ok(())
        }
    }
}

fn put_free_variable(
    out: &mut Vec<u8>,
    p: &Program,
    y: u32,
    bound: &[u8],
    first: &[u8],
) -> Result<(), AllocError>
    ensures { OnOk result (out.new.items ≡ out.old.items ++ variable_line (variable_text p.now y) None p.now.order bound.now first.now) }
{
    out.extend_from_slice(b"so ")?;
    put_variable(out, p, y)?;
    put_about(
        out,
        b", which gets its value ",
        bound,
        b", is at least ",
        first,
    )?;
    Ok(())
}

fn put_variable_side(
    out: &mut Vec<u8>,
    p: &Program,
    y: u32,
    bound: &[u8],
    first: &[u8],
) -> Result<(), AllocError>
    ensures { OnOk result (out.new.items ≡ out.old.items ++ variable_line (variable_text p.now y) (written p.now (AVariable y)) p.now.order bound.now
        first.now) }
{
    match written_at(p, &Spot::Variable(y)) {
        Some(label) => {
            put_variable(out, p, y)?;
            put_about_label(out, p, b", which is ", label, b", gets its value ", bound)?;
            Ok(())
        }
        None => {
            put_free_variable(out, p, y, bound, first)?;
            Ok(())
        }
    }
}

fn put_level_side(
    out: &mut Vec<u8>,
    p: &Program,
    level: Option<Label>,
    bound: &[u8],
    first: &[u8],
) -> Result<(), AllocError>
    ensures { OnOk result (out.new.items ≡ out.old.items ++ level_line level p.now.order bound.now first.now) }
{
    match level {
        Some(label) => {
            let begin = b"this mitigate, whose level is ".as_slice();
            put_about_label(out, p, begin, label, b", ends ", bound)?;
            Ok(())
        }
        None => {
            let begin = b"so the level of this mitigate, which ends ".as_slice();
            put_about(out, begin, bound, b", is at least ", first)?;
            Ok(())
        }
    }
}

fn put_command_side(
    out: &mut Vec<u8>,
    spelling: &Spelling,
    p: &Program,
    q: Pos,
    label: Label,
    bound: &[u8],
) -> Result<(), AllocError>
    ensures { OnOk result (out.new.items ≡ out.old.items ++ command_line spelling.now.tokens.now q (label_text p.now.order label.number) bound.now) }
{
    let command = noun(spelling.kind_at(q));
    out.extend_from_slice(b"this ")?;
    out.extend_from_slice(command)?;
    put_about_label(out, p, b", whose write label is ", label, b", runs ", bound)?;
    Ok(())
}

/// Puts the right side.
pub fn put_side(
    out: &mut Vec<u8>,
    spelling: &Spelling,
    p: &Program,
    q: Pos,
    side: &Spot,
    bound: &[u8],
    first: &[u8],
) -> Result<(), AllocError>
    ensures { OnOk result (out.new.items ≡ out.old.items ++ side_line spelling.now.tokens.now p.now q side.now bound.now first.now) }
{
    match side {
        Spot::Variable(y) => {
            put_variable_side(out, p, *y, bound, first)?;
            Ok(())
        }
        Spot::Command(label) => {
            put_command_side(out, spelling, p, q, *label, bound)?;
            Ok(())
        }
        Spot::Level(_, level) => {
            put_level_side(out, p, *level, bound, first)?;
            Ok(())
        }
    }
}

/// Puts the lines of a step.
pub(crate) fn put_step(
    alloc: Global,
    out: &mut Vec<u8>,
    spelling: &Spelling,
    p: &Program,
    step: &Step,
    first: &[u8],
) -> Result<(), AllocError>
    ensures { OnOk result (out.new.items ≡ out.old.items ++ step_lines spelling.now.text.now spelling.now.tokens.now p.now step.now first.now) }
{
    let name = spot_text(alloc, p, &step.part.spot)?;
    put_part(out, spelling, step.part.how, step.part.pos, &name, first)?;
    put_place(out, step.pos)?;
    put_side(
        out,
        spelling,
        p,
        step.pos,
        &step.side,
        bound(step.part.how),
        first,
    )?;
    Ok(())
}

fn put_place_if(out: &mut Vec<u8>, place: Option<Pos>) -> Result<(), AllocError>
    ensures { OnOk result (out.new.items ≡ out.old.items ++ place_if place) }
{
    match place {
        Some(q) => {
            put_place(out, q)?;
            Ok(())
        }
        None => Ok(()),
    }
}

/// Puts where a chain begins.
pub fn put_first(
    out: &mut Vec<u8>,
    spelling: &Spelling,
    spot: &Spot,
    name: &[u8],
    first: &[u8],
) -> Result<(), AllocError>
    ensures { OnOk result (out.new.items ≡ out.old.items ++ first_line spelling.now.text.now spelling.now.tokens.now spot.now name.now first.now) }
{
    match spot {
        Spot::Variable(_) => {
            put_place_if(out, spelling.declared_place(name))?;
            out.extend_from_slice(name)?;
            put_line(out, b" is declared ", first)?;
            Ok(())
        }
        Spot::Command(_) => Ok(()),
        Spot::Level(_, _) => Ok(()),
    }
}
