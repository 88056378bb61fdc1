//! The program that tokens spell.

ghost use Rattle.std.specs.Prelude.{◌≡◌, ◌≢◌, ◌<◌, ◌^◌, None, Some, IfOk, MatchResult, length};
ghost use Rattle.label_lattice.specs.Order.{IsOrder};
ghost use Rattle.mit_syntax.specs.Cut.{AreTokens};
ghost use Rattle.mit_parser.specs.Words.{told};
ghost use Rattle.mit_parser.specs.Spells.{IsProgram, Refuses};
ghost use Rattle.mit_parser.specs.Assembly.{AreParts, IsAssembled};

use crate::fault::ParseFault;
use crate::names::Names;
use crate::parser::Parser;
use label_lattice::label::Label;
use label_lattice::lattice::Lattice;
use mit_syntax::ast::Command;
use mit_syntax::declarations::Variables;
use mit_syntax::program::Program;
use mit_syntax::token::Token;
use std::alloc::{AllocError, Global};
use std::rc::Rc;

// The lattice of a header, to be shared. Its copy stands on the stack only here.
#[inline(never)]
fn shared(alloc: Global, lattice: &Option<Lattice>) -> Result<Rc<Lattice>, AllocError>
    requires { lattice.now ≢ None }
    ensures same { IfOk result (λ r. lattice.now ≡ Some r.value) }
    ensures order { IfOk result (λ r. IsOrder r.value) }
{
    let Some(lattice) = lattice else {
        unreachable!()
    };
    lattice.laws();
    Ok(Rc::new(alloc, *lattice)?)
}

// The program of these parts.
fn assembled(
    lattice: Rc<Lattice>,
    pairs: Vec<(Label, Label)>,
    variables: Variables,
    body: Vec<Command>,
) -> Program
    requires order { IsOrder lattice.value }
    requires parts { AreParts (Some lattice.value) pairs.items variables body.items }
    ensures { IsAssembled (Some lattice.value) pairs.items variables body.items result }
{
    variables.laws();
    Program::of(lattice, pairs, variables, body)
}

/// The program that the tokens of a text of at most 2^31 - 1 bytes spell.
///
/// # Errors
/// `Unexpected` at the first token with which the tokens begin no program, or `TooDeep` at the first one that
/// opens the 101st bracket or is the 257th operator of one expression, whichever is earlier. Else the first
/// fault of names: in the header `Twice` among the labels, then `Unknown` in the pairs, then `Lattice`; in the
/// declarations, one after the other, `Twice`, then `Size`, then `Unknown`; then `TooMany`; then `Unknown` or
/// `Misuse` in the commands. `Memory` may come for any tokens.
#[inline(never)]
pub fn parse(alloc: Global, tokens: &[Token], text: &[u8]) -> Result<Program, ParseFault>
    requires size { length text.now < 2 ^ 31 }
    requires tokens { AreTokens text.now tokens.now }
    ensures { MatchResult result (IsProgram (told text.now tokens.now)) (Refuses (told text.now tokens.now)) }
{
    let mut parser = Parser::new(text, tokens);
    let header = match parser.header(alloc) {
        Ok(header) => header,
        Err(fault) => return Err(fault),
    };
    let variables = parser.variables(alloc, &header.lattice)?;
    let names = Names {
        lattice: header.lattice,
        variables,
    };
    let body = parser.commands(alloc, &names)?;
    parser.laws();
    if !parser.is_at_end() {
        return Err(parser.unexpected());
    }
    match parser.fault() {
        Some(fault) => Err(fault),
        None => match shared(alloc, &names.lattice) {
            Ok(lattice) => Ok(assembled(lattice, header.pairs, names.variables, body)),
            Err(_) => Err(ParseFault::Memory),
        },
    }
}
