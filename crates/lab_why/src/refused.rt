//! The lines of a refusal.

ghost use Rattle.std.specs.Prelude.{◌≡◌, IfOk};
ghost use Rattle.lab_why.specs.Reasons.{refusal_text};

use flow_path::why::Refusal;
use flow_print::print::chain_text;
use mit_syntax::token::Token;
use std::alloc::Global;
use text_base::pos::Memory;
use timing_types::rule::TypeFault;
use tool_texts::lines;

/// The line of the condition that is broken, and then the lines of the chain, for a program that is spelled by the tokens
/// of a text.
///
/// # Errors
/// `Memory` is want of memory.
pub fn refusal_text(
    alloc: Global,
    text: &[u8],
    tokens: &[Token],
    refusal: &Refusal,
) -> Result<Vec<u8>, Memory>
    ensures { IfOk result (λ v. v.items ≡ refusal_text text.now tokens.now refusal.now.labelled.program refusal.now.fault refusal.now.chain.items) }
{
    let mut whole = Vec::new(alloc);
    let TypeFault::Refused {
        rule,
        pos,
        have,
        allowed,
    } = refusal.fault
    else {
        return Ok(whole);
    };
    let program = refusal.labelled.program();
    let line = lines::refused(program.lattice(), rule, pos, have, allowed);
    whole.extend_from_slice(line.bytes())?;
    let chain = chain_text(alloc, text, tokens, program, refusal.chain.as_slice())?;
    whole.extend_from_slice(chain.as_slice())?;
    Ok(whole)
}
