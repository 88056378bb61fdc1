//! The lines on two starts that do not agree.

ghost use Rattle.std.specs.Prelude.{◌≡◌, ◌-◌, ◌≤◌, ◌+◌, ◌++◌, IfOk, OnOk, length, map};
ghost use Rattle.label_lattice.specs.Order.{name_of};
ghost use Rattle.mit_syntax.specs.Declarations.{cell_at};
ghost use Rattle.mit_syntax.specs.Values.{read};
ghost use Rattle.timing_types.specs.Labelled.{labels_of};
ghost use Rattle.start_file.specs.Starts.{seen};
ghost use Rattle.lab_ready.specs.Differs.{memory_behind, value_line, element_line, seen_line, held_line, differs_lines};

use event_print::cells::{put_cell, put_number, put_value};
use label_lattice::label::Label;
use label_lattice::lattice::Lattice;
use leak_audit::what::What;
use mit_syntax::program::Program;
use start_file::start::Start;
use std::alloc::{AllocError, Global};
use text_base::pos::Memory;
use tim_base::line::Line;
use timing_types::labelled::Labelled;

// What a variable has in a memory.
fn value_in(memory: &[i64], x: u32) -> i64
    ensures { result ≡ read memory.now x }
{
    memory.get(x as usize).copied().unwrap_or(0)
}

// The values of the start behind so many others.
fn memory_behind(starts: &[Start], behind: usize) -> &[i64]
    ensures { result.now ≡ memory_behind behind (map seen starts.now) }
{
    match starts.get(behind) {
        Some(start) => start.memory.as_slice(),
        None => &[],
    }
}

// What a variable has in a run, counted from 1.
fn value(starts: &[Start], x: u32, run: u32) -> Line
    ensures { result ≡ value_line (map seen starts.now) x run }
{
    let memory = memory_behind(starts, (run as usize).saturating_sub(1));
    let n = value_in(memory, x);
    let mut line = Line::new();
    put_value(&mut line, b"found ", n);
    put_number(&mut line, b" in run ", u64::from(run));
    line.put_text(b"\n");
    line
}

// The place of an element; of no element nothing.
fn element(p: &Program, x: u32) -> Line
    ensures { result ≡ element_line (cell_at p.now.declarations x) (cell_at p.now.declarations x).place }
{
    let mut line = Line::new();
    if x < p.variables() && p.element(x).is_some() {
        line.put_text(b"at ");
        put_cell(&mut line, p, x);
        line.put_text(b"\n");
    }
    line
}

// Appends a variable's name; nothing for a number that is no variable.
fn put_name(line: &mut Line, p: &Program, x: u32)
    requires { length line.old ≤ 80 }
    ensures text { line.new ≡ line.old ++ (cell_at p.now.declarations x).name }
    ensures size { length line.new ≤ length line.old + 32 }
{
    if x < p.variables() {
        let name = p.variable_name(x);
        line.put_text(name.bytes());
    }
}

// Appends the name of a label; nothing for a number that is no label.
fn put_label(line: &mut Line, order: &Lattice, a: Label)
    requires { length line.old ≤ 80 }
    ensures text { line.new ≡ line.old ++ name_of order.now a.number }
    ensures size { length line.new ≤ length line.old + 32 }
{
    order.laws();
    if u32::from(a.number()) < order.size() {
        let name = order.name(a);
        line.put_text(name.bytes());
    }
}

// The label of a variable, and what that asks for.
fn seen_label(q: &Labelled, x: u32) -> Line
    ensures { result ≡ seen_line q.now x }
{
    let order = q.program().lattice();
    let mut line = Line::new();
    put_name(&mut line, q.program(), x);
    line.put_text(b" is ");
    put_label(&mut line, order, q.labels().variable(x, order));
    line.put_text(b", which the observer sees: all runs begin with the same value\n");
    line
}

// What the environments hold for labels that the observer sees.
fn held(q: &Labelled, observer: Label) -> Line
    ensures { result ≡ held_line q.now observer }
{
    let mut line = Line::new();
    line.put_text(b"what is held for labels that flow to ");
    put_label(&mut line, q.program().lattice(), observer);
    line.put_text(b" is the same in all runs\n");
    line
}

// Appends a line.
fn put(text: &mut Vec<u8>, line: &Line) -> Result<(), AllocError>
    ensures { OnOk result (text.new.items ≡ text.old.items ++ line.now) }
{
    text.extend_from_slice(line.bytes())
}

/// The lines on a run, counted from 1, that differs from the first one.
pub(crate) fn differs(
    alloc: Global,
    q: &Labelled,
    observer: Label,
    starts: &[Start],
    run: u32,
    what: What,
) -> Result<Vec<u8>, Memory>
    ensures { IfOk result (λ v. v.items ≡ differs_lines q.now observer (map seen starts.now) run what) }
{
    let mut text = Vec::new(alloc);
    match what {
        What::Variable(x) => {
            put(&mut text, &element(q.program(), x))?;
            put(&mut text, &value(starts, x, run))?;
            put(&mut text, &value(starts, x, 1))?;
            put(&mut text, &seen_label(q, x))?;
        }
        What::Partition(_, _) => put(&mut text, &held(q, observer))?,
    }
    Ok(text)
}
