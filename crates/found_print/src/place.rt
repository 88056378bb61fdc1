//! Where a fault of a text is, and how many bytes stand there.

ghost use Rattle.std.specs.Prelude.{◌≡◌, ◌<◌, ◌^◌, IfSome};
ghost use Rattle.found_print.specs.Faults.{text_place, parse_place, token_place};

use fault_print::text::word_there;
use flow_print::places::Spelling;
use mit_parser::fault::ParseFault;
use mit_syntax::fault::TextFault;
use mit_syntax::token::Token;
use text_base::pos::Pos;

/// Where a fault of a text without tokens is, and how many bytes stand there.
pub fn text_place(text: &[u8], fault: TextFault) -> Option<(Pos, usize)>
    ensures place { result ≡ text_place text.now fault }
    ensures short { IfSome result (λ at. at.1 < 2 ^ 63) }
{
    match fault {
        TextFault::BadByte(pos) => Some((pos, 1)),
        TextFault::WideNumber(pos) => Some((pos, word_there(text, pos).len())),
        TextFault::LongName(pos) => Some((pos, word_there(text, pos).len())),
        TextFault::NotUtf8(_) => None,
        TextFault::Memory => None,
    }
}

// The token that begins at a place.
fn token_place(text: &[u8], tokens: &[Token], pos: Pos) -> Option<(Pos, usize)>
    ensures place { result ≡ token_place text.now tokens.now pos }
    ensures short { IfSome result (λ at. at.1 < 2 ^ 63) }
{
    let spelling = Spelling::new(text, tokens);
    Some((pos, spelling.spelled_at(pos).len()))
}

/// Where a fault of tokens is, if it has a place, and how many bytes stand there.
pub fn parse_place(text: &[u8], tokens: &[Token], fault: ParseFault) -> Option<(Pos, usize)>
    ensures place { result ≡ parse_place text.now tokens.now fault }
    ensures short { IfSome result (λ at. at.1 < 2 ^ 63) }
{
    match fault {
        ParseFault::Unexpected(pos) => token_place(text, tokens, pos),
        ParseFault::TooDeep(pos) => token_place(text, tokens, pos),
        ParseFault::Unknown(pos) => token_place(text, tokens, pos),
        ParseFault::Twice(pos) => token_place(text, tokens, pos),
        ParseFault::Size(pos) => token_place(text, tokens, pos),
        ParseFault::Misuse(pos) => token_place(text, tokens, pos),
        ParseFault::TooMany(_) => None,
        ParseFault::Lattice(_) => None,
        ParseFault::Memory => None,
    }
}
