//! From commands to instructions. A jump forward is written with target 0 and gets its target once the code
//! that it passes is there.

ghost use Rattle.std.specs.Prelude.{◌≡◌, ◌+◌, ◌^◌, ◌<◌, [], ◌∷◌, ◌++◌, length, OnOk, IfOk};
ghost use Rattle.label_lattice.specs.Order.{lattice_of};
ghost use Rattle.mit_syntax.specs.Expression.{expression_of};
ghost use Rattle.mit_syntax.specs.Todo.{Done};
ghost use Rattle.mit_syntax.specs.Plan.{command_plan, list_plan, count};
ghost use Rattle.timing_types.specs.Labelling.{variable_of, marks_of, marks_from};
ghost use Rattle.label_code.specs.Machine.{instr};
ghost use Rattle.code_lower.specs.Layout.{size, raised as raised_marks};
ghost use Rattle.code_lower.specs.Code.{expr_code};
ghost use Rattle.code_lower.specs.Emitted.{Adds};

use label_code::code::{Instr, Work};
use label_lattice::label::Label;
use label_lattice::lattice::Lattice;
use mit_syntax::ast::{Command, Expr, Form};
use std::alloc::AllocError;
use timing_types::ends::label;
use timing_types::labels::Labels;

/// The read label and the write label of a command, by its number.
fn own_labels(p: &Labels, order: &Lattice, number: usize) -> (Label, Label)
    ensures { marks_from result ≡ marks_of order.now p.now number }
{
    p.command(number, order)
}

/// The labels of code that a guard has decided.
fn raised(guard: &Expr, p: &Labels, order: &Lattice, own: (Label, Label)) -> (Label, Label)
    ensures { marks_from result ≡ raised_marks (lattice_of order.now) (variable_of order.now p.now) (expression_of guard.now) (marks_from own) }
{
    let le = label(guard, p, order);
    (order.join(own.0, le), order.join(own.1, le))
}

fn instruction(work: Work, labels: (Label, Label)) -> Instr
    ensures { result ≡ instr work (marks_from labels) }
{
    Instr {
        work,
        er: labels.0,
        ew: labels.1,
    }
}

/// One more instruction.
pub(crate) fn put(
    code: &mut Vec<Instr>,
    work: Work,
    labels: (Label, Label),
) -> Result<(), AllocError>
    ensures { OnOk result (code.new.items ≡ code.old.items ++ instr work (marks_from labels) ∷ []) }
{
    code.push(instruction(work, labels))?;
    Ok(())
}

fn emit_expr(code: &mut Vec<Instr>, e: &Expr, labels: (Label, Label)) -> Result<(), AllocError>
    ensures { OnOk result (code.new.items ≡ code.old.items ++ expr_code (marks_from labels) (expression_of e.now)) }
{
    match e {
        Expr::Number(n) => put(code, Work::Push(*n), labels),
        Expr::Variable(x) => put(code, Work::Load(*x), labels),
        Expr::Binary(op, left, right) => {
            emit_expr(code, left, labels)?;
            emit_expr(code, right, labels)?;
            put(code, Work::Apply(*op), labels)
        }
        Expr::Element {
            first,
            length,
            index,
        } => {
            emit_expr(code, index, labels)?;
            put(
                code,
                Work::LoadAt {
                    first: *first,
                    length: *length,
                },
                labels,
            )
        }
    }
}

/// The code of a command with this number: the number of the next one.
#[cycle(emit)]
fn emit_command(
    code: &mut Vec<Instr>,
    c: &Command,
    p: &Labels,
    order: &Lattice,
    number: usize,
) -> Result<usize, AllocError>
    requires room { length code.old.items + size (command_plan c.now Done) < 2 ^ 31 }
    requires number { number + count (command_plan c.now Done) < 2 ^ 31 }
    ensures number { IfOk result (λ n. n ≡ number + count (command_plan c.now Done)) }
    ensures code { OnOk result (Adds order.now p.now code.old.items code.new.items (command_plan c.now Done) number) }
{
    let own = own_labels(p, order, number);
    match &c.form {
        Form::Skip => {
            put(code, Work::Nop, own)?;
            Ok(number + 1)
        }
        Form::Assign { variable, value } => {
            emit_expr(code, value, own)?;
            put(code, Work::Store(*variable), own)?;
            Ok(number + 1)
        }
        Form::Put {
            first,
            length,
            index,
            value,
        } => {
            emit_expr(code, index, own)?;
            emit_expr(code, value, own)?;
            put(
                code,
                Work::StoreAt {
                    first: *first,
                    length: *length,
                },
                own,
            )?;
            Ok(number + 1)
        }
        Form::Sleep { time } => {
            emit_expr(code, time, own)?;
            put(code, Work::Sleep, own)?;
            Ok(number + 1)
        }
        Form::If {
            guard,
            then_part,
            else_part,
        } => {
            let high = raised(guard, p, order, own);
            emit_expr(code, guard, own)?;
            let test = code.len();
            put(code, Work::Brz(0), own)?;
            let next = emit_list(code, then_part, p, order, number + 1)?;
            let jump = code.len();
            put(code, Work::Jmp(0), high)?;
            let last = emit_list(code, else_part, p, order, next)?;
            let end = code.len();
            code[test] = instruction(Work::Brz((jump + 1) as u32), own);
            code[jump] = instruction(Work::Jmp(end as u32), high);
            Ok(last)
        }
        Form::While { guard, body } => {
            let high = raised(guard, p, order, own);
            emit_expr(code, guard, own)?;
            let test = code.len();
            put(code, Work::Brz(0), own)?;
            let next = emit_list(code, body, p, order, number + 1)?;
            emit_expr(code, guard, high)?;
            put(code, Work::Brnz((test + 1) as u32), high)?;
            let end = code.len();
            code[test] = instruction(Work::Brz(end as u32), own);
            Ok(next)
        }
        Form::Mitigate {
            mark,
            estimate,
            level: _,
            body,
        } => {
            let mark = *mark;
            let level = p.level(mark, order);
            emit_expr(code, estimate, own)?;
            put(code, Work::Mitb { level, mark }, own)?;
            let next = emit_list(code, body, p, order, number + 1)?;
            put(code, Work::Mite, own)?;
            Ok(next)
        }
    }
}

/// The code of a list whose first command has this number: the number of the command after it.
#[cycle(emit)]
pub(crate) fn emit_list(
    code: &mut Vec<Instr>,
    commands: &[Command],
    p: &Labels,
    order: &Lattice,
    number: usize,
) -> Result<usize, AllocError>
    requires room { length code.old.items + size (list_plan commands.now) < 2 ^ 31 }
    requires number { number + count (list_plan commands.now) < 2 ^ 31 }
    ensures number { IfOk result (λ n. n ≡ number + count (list_plan commands.now)) }
    ensures code { OnOk result (Adds order.now p.now code.old.items code.new.items (list_plan commands.now) number) }
{
    let mut next = number;
    for c in commands {
        next = emit_command(code, c, p, order, next)?;
    }
    Ok(next)
}
