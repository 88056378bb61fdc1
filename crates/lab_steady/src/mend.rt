//! The line that shows the form of a mend.

ghost use Rattle.std.specs.Prelude.{◌≡◌};
ghost use Rattle.lab_steady.specs.Mend.{by_table as mend_by_table, guard_mend as mend_of_guard, kind_there as kind_of_command, mend_line as line_of_mend};

use flow_print::places::kind_among;
use mit_syntax::token::{Keyword, Token, TokenKind};
use steady_code::costing::Costing;
use steady_code::fault::Reason;
use text_base::pos::Pos;

/// The kind of the token with which the command at a position begins, or `End` where no command is there.
pub(crate) fn kind_there(tokens: &[Token], at: Option<Pos>) -> TokenKind
    ensures { result ≡ kind_of_command tokens.now at }
{
    match at {
        Some(pos) => kind_among(tokens, pos),
        None => TokenKind::End,
    }
}

/// A mend that multiplies by secrets, where costs are those of the table.
fn by_table(costing: Costing, mend: &'static [u8]) -> &'static [u8]
    ensures { result.now ≡ mend_by_table costing mend.now }
{
    match costing {
        Costing::Table => mend,
        Costing::Only(_) => b"".as_slice(),
    }
}

/// The mend of the guard of a command that begins with such a token.
fn guard_mend(costing: Costing, kind: TokenKind) -> &'static [u8]
    ensures { result.now ≡ mend_of_guard costing kind }
{
    match kind {
        TokenKind::Key(Keyword::If) => {
            by_table(
                costing,
                b"mend: choose by arithmetic: x := (c != 0) * a + (c == 0) * b\n".as_slice(),
            )
        }
        TokenKind::Key(Keyword::While) => {
            b"mend: loop over a public number of turns: i := 0; while i < n do { ..; i := i + 1 }\n".as_slice()
        }
        _ => b"".as_slice(),
    }
}

/// The mend of a fault for a reason, in a command that begins with such a token, or nothing where none is known.
pub(crate) fn mend_line(costing: Costing, kind: TokenKind, reason: Reason) -> &'static [u8]
    ensures { result.now ≡ line_of_mend costing kind reason }
{
    match reason {
        Reason::Guard => guard_mend(costing, kind),
        Reason::Index => {
            by_table(
                costing,
                b"mend: go through all places and choose: i := 0; while i < n do { x := x + (i == j) * a[i]; i := i + 1 }\n".as_slice(),
            )
        }
        Reason::Left | Reason::Right => {
            by_table(
                costing,
                b"mend: multiply by what is short, as c == 0, 1 - c or h % 8, or choose by x := a / (c != 0) + b / (c == 0)\n".as_slice(),
            )
        }
        Reason::Wait => b"mend: sleep for a public time: sleep n\n".as_slice(),
        Reason::Estimate => b"mend: give a public estimate: mitigate (n, H) { .. }\n".as_slice(),
        Reason::Felt | Reason::Assigned | Reason::Target | Reason::Seen => b"".as_slice(),
    }
}
