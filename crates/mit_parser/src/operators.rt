//! Which tokens are operators.

ghost use Rattle.std.specs.Prelude.{◌≡◌, ℕ, List};
ghost use Rattle.mit_parser.specs.Words.{symbol_of};
ghost use Rattle.mit_parser.specs.Operators.{op_at};

use mit_syntax::ast::Op;
use mit_syntax::operators::{op_of, rank};
use mit_syntax::token::TokenKind;

/// The operator of a rank (1, 2 or 3) that a token is.
pub fn op_at(wanted: u32, kind: TokenKind) -> Option<Op>
    ensures { (w : List ℕ) → result ≡ op_at wanted (symbol_of kind w) }
{
    let TokenKind::Sign(sign) = kind else {
        return None;
    };
    match op_of(sign) {
        Some(op) if rank(op) == wanted => Some(op),
        _ => None,
    }
}
