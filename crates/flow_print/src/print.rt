//! The text of a chain.

ghost use Rattle.std.specs.Prelude.{◌≡◌, ◌++◌, OnOk, IfOk};
ghost use Rattle.flow_print.specs.Lines.{steps_lines, chain_text, origins_text};

use crate::lines::{put_first, put_step};
use crate::places::Spelling;
use crate::words::{spot_text, written_text};
use flow_path::origins::Origin;
use flow_path::step::Step;
use mit_syntax::program::Program;
use mit_syntax::token::Token;
use std::alloc::{AllocError, Global};
use text_base::pos::Memory;

fn put_steps(
    alloc: Global,
    out: &mut Vec<u8>,
    spelling: &Spelling,
    p: &Program,
    chain: &[Step],
    first: &[u8],
) -> Result<(), AllocError>
    ensures { OnOk result (out.new.items ≡ out.old.items ++ steps_lines spelling.now.text.now spelling.now.tokens.now p.now chain.now first.now) }
{
    for step in chain {
        put_step(alloc, out, spelling, p, step, first)?;
    }
    Ok(())
}

fn put_chain(
    alloc: Global,
    out: &mut Vec<u8>,
    spelling: &Spelling,
    p: &Program,
    chain: &[Step],
) -> Result<(), AllocError>
    ensures { OnOk result (out.new.items ≡ out.old.items ++ chain_text spelling.now.text.now spelling.now.tokens.now p.now chain.now) }
{
    match chain {
        [] => Ok(()),
        [begin, ..] => {
            let name = spot_text(alloc, p, &begin.part.spot)?;
            let first = written_text(alloc, p, &begin.part.spot)?;
            put_first(out, spelling, &begin.part.spot, &name, &first)?;
            put_steps(alloc, out, spelling, p, chain, &first)?;
            Ok(())
        }
    }
}

fn put_origins(
    alloc: Global,
    out: &mut Vec<u8>,
    spelling: &Spelling,
    p: &Program,
    origins: &[Origin],
) -> Result<(), AllocError>
    ensures { OnOk result (out.new.items ≡ out.old.items ++ origins_text spelling.now.text.now spelling.now.tokens.now p.now origins.now) }
{
    for origin in origins {
        put_chain(alloc, out, spelling, p, &origin.chain)?;
    }
    Ok(())
}

/// The lines that tell a chain, for a program that is spelled by the tokens of a text. Each line begins with its place:
/// that of the name that is read or declared, else that of its command.
///
/// # Errors
/// `Memory` is want of memory.
pub fn chain_text(
    alloc: Global,
    text: &[u8],
    tokens: &[Token],
    p: &Program,
    chain: &[Step],
) -> Result<Vec<u8>, Memory>
    ensures { IfOk result (λ v. v.items ≡ chain_text text.now tokens.now p.now chain.now) }
{
    let mut out = Vec::new(alloc);
    put_chain(alloc, &mut out, &Spelling::new(text, tokens), p, chain)?;
    Ok(out)
}

/// The lines that tell the chains of origins, one chain after another.
///
/// # Errors
/// `Memory` is want of memory.
pub fn origins_text(
    alloc: Global,
    text: &[u8],
    tokens: &[Token],
    p: &Program,
    origins: &[Origin],
) -> Result<Vec<u8>, Memory>
    ensures { IfOk result (λ v. v.items ≡ origins_text text.now tokens.now p.now origins.now) }
{
    let mut out = Vec::new(alloc);
    put_origins(alloc, &mut out, &Spelling::new(text, tokens), p, origins)?;
    Ok(out)
}
