//! The names that the header of a text gives to labels, of a text whose labels are no lattice.

ghost use Rattle.std.specs.Prelude.{◌≡◌, ◌≤◌, length};
ghost use Rattle.mit_syntax.specs.Cut.{AreTokens};
ghost use Rattle.tool_texts.specs.Texts.{header_name};

use label_lattice::label::Label;
use mit_syntax::token::{Token, TokenKind};

/// The bytes of the name that the header of a text gives to a label; none where no name stands there.
pub fn header_name<'a>(text: &'a [u8], tokens: &[Token], a: Label) -> &'a [u8]
    requires { AreTokens text.now tokens.now }
    ensures name { result.now ≡ header_name text.now tokens.now a }
    ensures short { length result.now ≤ 32 }
{
    let place = 2 * usize::from(a.number()) + 1;
    if place >= tokens.len() {
        return &[];
    }
    let token = tokens[place];
    match token.kind {
        TokenKind::Name => token.bytes(text),
        _ => &[],
    }
}
