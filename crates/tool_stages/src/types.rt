//! From a program to its least labelling, which types it.

ghost use Rattle.std.specs.Prelude.{◌≡◌, IfOk, IfErr, codes};
ghost use Rattle.timing_types.specs.Labelled.{IsTypeFault};
ghost use Rattle.label_infer.specs.Least.{IsLeast, TypesMost};
ghost use Rattle.tool_texts.specs.Ends.{IsStop};
ghost use Rattle.tool_stages.specs.Stages.{Types, TypeStops};

use label_infer::infer::infer;
use mit_syntax::program::Program;
use std::alloc::Global;
use timing_types::check::check;
use timing_types::labelled::Labelled;
use timing_types::rule::TypeFault;
use timing_types::typed::Typed;
use tool_texts::lines;
use tool_texts::status::Status;
use tool_texts::stop::{Stop, no_memory};

// The stop for a program without a type.
fn type_stop(p: &Labelled, fault: TypeFault) -> Stop
    requires least { IsLeast p.now.program p.now.labels }
    requires types { TypesMost p.now.program p.now.labels }
    requires fault { IsTypeFault p.now fault }
    ensures { IsStop (TypeStops p.now.program) result }
{
    match fault {
        TypeFault::Refused {
            rule,
            pos,
            have,
            allowed,
        } => Stop::With {
            status: Status::Refused,
            line: lines::refused(p.program().lattice(), rule, pos, have, allowed),
        },
        TypeFault::Memory => no_memory(),
    }
}

/// Gives a program its least labels, and checks them.
///
/// # Errors
/// Stops with `Refused` where no labelling types the program, or with `Memory`.
#[inline(never)]
pub fn typed(alloc: Global, p: Program) -> Result<Typed, Stop>
    ensures ok { IfOk result (λ q. Types p q.labelled) }
    ensures stop { IfErr result (IsStop (TypeStops p)) }
{
    let Ok(labelled) = infer(alloc, p) else {
        return Err(no_memory());
    };
    match check(alloc, labelled) {
        Ok(typed) => Ok(typed),
        Err((labelled, fault)) => Err(type_stop(&labelled, fault)),
    }
}
