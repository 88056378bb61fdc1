//! The text on where a label comes from.

ghost use Rattle.std.specs.Prelude.{◌≡◌, ◌<◌, IfOk};
ghost use Rattle.label_infer.specs.Least.{IsLeast};
ghost use Rattle.flow_path.specs.Origins.{label_there};
ghost use Rattle.lab_why.specs.Names.{IsThere};
ghost use Rattle.lab_why.specs.Origins.{TellsOrigins};

use flow_path::origins::why_label;
use flow_path::step::Spot;
use flow_print::print::origins_text;
use label_lattice::label::Label;
use mit_syntax::token::Token;
use std::alloc::Global;
use text_base::pos::Memory;
use timing_types::labelled::Labelled;

// The label of a variable, or the level of a mitigate.
fn label_there(p: &Labelled, spot: &Spot) -> Label
    requires { IsThere p.now.program spot.now }
    ensures value { result.number ≡ label_there p.now spot.now }
    ensures within { result.number < p.now.program.order.size }
{
    match spot {
        Spot::Variable(x) => p.variable_label(*x),
        Spot::Level(mark, None) => p.level(*mark),
        Spot::Level(_, Some(label)) | Spot::Command(label) => *label,
    }
}

/// The line of a label of the least labelling, and then the lines of the chains by which it comes from written labels,
/// for a program that is spelled by the tokens of a text. The word is what the first line calls it.
///
/// # Errors
/// `Memory` is want of memory.
pub fn label_text(
    alloc: Global,
    text: &[u8],
    tokens: &[Token],
    p: &Labelled,
    word: &[u8],
    spot: &Spot,
) -> Result<Vec<u8>, Memory>
    requires least { IsLeast p.now.program p.now.labels }
    requires there { IsThere p.now.program spot.now }
    ensures { IfOk result (λ v. TellsOrigins text.now tokens.now p.now word.now spot.now v.items) }
{
    let origins = why_label(alloc, p, spot)?;
    let program = p.program();
    let name = program.lattice().name(label_there(p, spot));
    let lines = origins_text(alloc, text, tokens, program, origins.as_slice())?;
    let mut whole = Vec::new(alloc);
    whole.extend_from_slice(word)?;
    whole.extend_from_slice(b" is ")?;
    whole.extend_from_slice(name.bytes())?;
    whole.extend_from_slice(b"\n")?;
    whole.extend_from_slice(lines.as_slice())?;
    Ok(whole)
}
