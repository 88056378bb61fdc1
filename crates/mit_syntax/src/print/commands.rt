//! The canonical text of commands.

ghost use Rattle.std.specs.Prelude.{◌≡◌, ◌+◌, ◌<◌, OnOk};
ghost use Rattle.mit_syntax.specs.Todo.{Done};
ghost use Rattle.mit_syntax.specs.Plan.{list_plan, command_plan};
ghost use Rattle.mit_syntax.specs.Valid.{IsBelow, AreMarksBelow};
ghost use Rattle.mit_syntax.specs.Printable.{IsPrintable};
ghost use Rattle.mit_syntax.specs.Layout.{Puts, marks_part, level_part, separator, in_braces, commands_part};

use crate::ast::{Command, Form};
use crate::declarations::Variables;
use crate::limits::MAX_DEPTH;
use crate::print::chunks::{
    put_comma, put_key, put_name, put_new_line, put_sign, put_space, put_spaced, put_spaced_key,
};
use crate::print::expressions::{put_expression, put_index};
use crate::print::header::put_label;
use crate::token::{Keyword, Sign};
use label_lattice::label::Label;
use label_lattice::lattice::Lattice;
use std::alloc::AllocError;

fn put_marks(
    out: &mut Vec<u8>,
    labels: &Lattice,
    marks: Option<(Label, Label)>,
) -> Result<(), AllocError>
    requires { AreMarksBelow labels.now.size marks }
    ensures { OnOk result (Puts out.old.items out.new.items (marks_part labels.now marks)) }
{
    match marks {
        None => Ok(()),
        Some((read, write)) => {
            put_space(out)?;
            put_sign(out, Sign::At)?;
            put_sign(out, Sign::LeftSquare)?;
            put_label(out, labels, read)?;
            put_comma(out)?;
            put_label(out, labels, write)?;
            put_sign(out, Sign::RightSquare)?;
            Ok(())
        }
    }
}

fn put_level(out: &mut Vec<u8>, labels: &Lattice, level: Option<Label>) -> Result<(), AllocError>
    requires { IsBelow labels.now.size level }
    ensures { OnOk result (Puts out.old.items out.new.items (level_part labels.now level)) }
{
    match level {
        None => Ok(()),
        Some(level) => {
            put_comma(out)?;
            put_label(out, labels, level)?;
            Ok(())
        }
    }
}

// What stands before the command after i others.
fn put_separator(out: &mut Vec<u8>, depth: u32, i: usize) -> Result<(), AllocError>
    ensures { OnOk result (Puts out.old.items out.new.items (separator depth i)) }
{
    if i > 0 {
        put_sign(out, Sign::Semicolon)?;
        put_new_line(out, depth)?;
    }
    Ok(())
}

#[cycle(command)]
fn put_command(
    out: &mut Vec<u8>,
    labels: &Lattice,
    variables: &Variables,
    c: &Command,
    depth: u32,
) -> Result<(), AllocError>
    requires { IsPrintable labels.now.size variables.now depth (command_plan c.now Done) }
    ensures { OnOk result (Puts out.old.items out.new.items (commands_part labels.now variables.now depth (command_plan c.now Done))) }
{
    match &c.form {
        Form::Skip => {
            put_key(out, Keyword::Skip)?;
            put_marks(out, labels, c.labels)?;
            Ok(())
        }
        Form::Assign { variable, value } => {
            put_name(out, variables.name(*variable))?;
            put_spaced(out, Sign::Assign)?;
            put_expression(out, variables, value, 1)?;
            put_marks(out, labels, c.labels)?;
            Ok(())
        }
        Form::Put {
            first,
            length: _,
            index,
            value,
        } => {
            put_name(out, variables.name(*first))?;
            put_index(out, variables, index)?;
            put_spaced(out, Sign::Assign)?;
            put_expression(out, variables, value, 1)?;
            put_marks(out, labels, c.labels)?;
            Ok(())
        }
        Form::Sleep { time } => {
            put_key(out, Keyword::Sleep)?;
            put_space(out)?;
            put_expression(out, variables, time, 1)?;
            put_marks(out, labels, c.labels)?;
            Ok(())
        }
        Form::If {
            guard,
            then_part,
            else_part,
        } => {
            put_key(out, Keyword::If)?;
            put_space(out)?;
            put_expression(out, variables, guard, 1)?;
            put_marks(out, labels, c.labels)?;
            put_spaced_key(out, Keyword::Then)?;
            put_block(out, labels, variables, then_part, depth)?;
            put_spaced_key(out, Keyword::Else)?;
            put_block(out, labels, variables, else_part, depth)?;
            Ok(())
        }
        Form::While { guard, body } => {
            put_key(out, Keyword::While)?;
            put_space(out)?;
            put_expression(out, variables, guard, 1)?;
            put_marks(out, labels, c.labels)?;
            put_spaced_key(out, Keyword::Do)?;
            put_block(out, labels, variables, body, depth)?;
            Ok(())
        }
        Form::Mitigate {
            mark: _,
            estimate,
            level,
            body,
        } => {
            put_key(out, Keyword::Mitigate)?;
            put_space(out)?;
            put_sign(out, Sign::LeftRound)?;
            put_expression(out, variables, estimate, 1)?;
            put_level(out, labels, *level)?;
            put_sign(out, Sign::RightRound)?;
            put_marks(out, labels, c.labels)?;
            put_space(out)?;
            put_block(out, labels, variables, body, depth)?;
            Ok(())
        }
    }
}

// Commands in braces.
#[cycle(command)]
fn put_block(
    out: &mut Vec<u8>,
    labels: &Lattice,
    variables: &Variables,
    list: &[Command],
    depth: u32,
) -> Result<(), AllocError>
    requires printable { IsPrintable labels.now.size variables.now (depth + 1) (list_plan list.now) }
    requires shallow { depth < MAX_DEPTH }
    ensures { OnOk result (Puts out.old.items out.new.items (in_braces depth (commands_part labels.now variables.now (depth + 1) (list_plan list.now)))) }
{
    put_sign(out, Sign::LeftBrace)?;
    put_new_line(out, depth + 1)?;
    put_commands(out, labels, variables, list, depth + 1)?;
    put_new_line(out, depth)?;
    put_sign(out, Sign::RightBrace)?;
    Ok(())
}

/// Puts commands, where this many braces are open, from the first one's first byte on.
#[cycle(command)]
pub fn put_commands(
    out: &mut Vec<u8>,
    labels: &Lattice,
    variables: &Variables,
    list: &[Command],
    depth: u32,
) -> Result<(), AllocError>
    requires { IsPrintable labels.now.size variables.now depth (list_plan list.now) }
    ensures { OnOk result (Puts out.old.items out.new.items (commands_part labels.now variables.now depth (list_plan list.now))) }
{
    for (i, c) in list.iter().enumerate() {
        put_separator(out, depth, i)?;
        put_command(out, labels, variables, c, depth)?;
    }
    Ok(())
}
