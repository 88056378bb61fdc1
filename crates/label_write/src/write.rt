//! A labelled program as a program that writes all its labels.

ghost use Rattle.std.specs.Prelude.{◌≡◌, IfOk};
ghost use Rattle.mit_syntax.specs.Program.{plan_of};
ghost use Rattle.label_write.specs.Written.{declarations_with_labels, plan_with_labels, labelled_text, HasOnly};

use crate::commands::write_list;
use crate::declarations::write_declarations;
use mit_syntax::declarations::Variables;
use mit_syntax::print::print_program;
use mit_syntax::program::Program;
use std::alloc::{AllocError, Global};
use text_base::pos::Memory;
use timing_types::labelled::Labelled;

/// The program that writes the label of each variable, both labels of each command and the level of each
/// mitigate, and has all else as it is. So it has this labelling and no other.
///
/// # Errors
/// `Memory` where memory runs out.
pub fn write_labels(alloc: Global, p: &Labelled) -> Result<Program, Memory>
    ensures order { IfOk result (λ q. q.order ≡ p.now.program.order) }
    ensures pairs { IfOk result (λ q. q.pairs ≡ p.now.program.pairs) }
    ensures declarations { IfOk result (λ q. q.declarations ≡ declarations_with_labels p.now) }
    ensures commands { IfOk result (λ q. plan_of q ≡ plan_with_labels p.now) }
    ensures only { IfOk result (λ q. HasOnly q p.now.labels) }
{
    match program_of(alloc, p) {
        Ok(program) => Ok(program),
        Err(_) => Err(Memory),
    }
}

fn program_of(alloc: Global, p: &Labelled) -> Result<Program, AllocError>
    ensures order { IfOk result (λ q. q.order ≡ p.now.program.order) }
    ensures pairs { IfOk result (λ q. q.pairs ≡ p.now.program.pairs) }
    ensures declarations { IfOk result (λ q. q.declarations ≡ declarations_with_labels p.now) }
    ensures commands { IfOk result (λ q. plan_of q ≡ plan_with_labels p.now) }
    ensures only { IfOk result (λ q. HasOnly q p.now.labels) }
{
    let program = p.program();
    let labels = p.labels();
    let order = program.lattice();
    let commands = program.body();
    let pairs = Vec::from_slice(alloc, program.pairs())?;
    let table = write_declarations(alloc, program.declarations(), labels, order)?;
    let (_, body) = write_list(alloc, commands, labels, order, 0)?;
    let shared = program.shared_lattice().clone()?;
    let variables = Variables::of(alloc, table)?;
    Ok(Program::of(shared, pairs, variables, body))
}

/// The canonical text of that program.
///
/// # Errors
/// `Memory` where memory runs out.
pub fn print_labelled(alloc: Global, p: &Labelled) -> Result<Vec<u8>, Memory>
    ensures { IfOk result (λ v. v.items ≡ labelled_text p.now) }
{
    let program = write_labels(alloc, p)?;
    print_program(alloc, &program)
}
