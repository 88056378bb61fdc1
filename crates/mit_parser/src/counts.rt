//! What is limited along the tokens: open brackets, and the operators of an expression.

ghost use Rattle.std.specs.Prelude.{◌≡◌, ◌≤◌, ℕ, List};
ghost use Rattle.mit_syntax.specs.Chunks.{sign as a_sign};
ghost use Rattle.mit_parser.specs.Words.{symbol_of, word};
ghost use Rattle.mit_parser.specs.Counting.{count, is_over, past_left, past_right, past_operator, past_other, past_atom};

use mit_syntax::limits::{MAX_DEPTH, MAX_OPERATORS};
use mit_syntax::operators::op_of;
use mit_syntax::token::{Sign, TokenKind};

/// The brackets that are open, the operators of the expression so far, whether the last token is `@`, and
/// whether the brackets of marks are open.
#[derive(Clone, Copy)]
pub struct Counts {
    pub depth: u32,
    pub operators: u32,
    pub at: bool,
    pub marks: bool,
}

/// Whether a limit is passed.
pub fn is_over(c: Counts) -> bool
    ensures { result ≡ is_over c }
{
    c.depth > MAX_DEPTH || c.operators > MAX_OPERATORS
}

fn past_atom(c: Counts) -> Counts
    ensures { result ≡ past_atom c }
{
    Counts {
        depth: c.depth,
        operators: c.operators,
        at: false,
        marks: c.marks,
    }
}

fn past_operator(c: Counts) -> Counts
    requires { c.operators ≤ MAX_OPERATORS }
    ensures { result ≡ past_operator c }
{
    Counts {
        depth: c.depth,
        operators: c.operators + 1,
        at: false,
        marks: c.marks,
    }
}

fn past_left(c: Counts) -> Counts
    requires { c.depth ≤ MAX_DEPTH }
    ensures { result ≡ past_left c }
{
    Counts {
        depth: c.depth + 1,
        operators: c.operators,
        at: false,
        marks: c.marks,
    }
}

fn past_right(c: Counts) -> Counts
    ensures { result ≡ past_right c }
{
    Counts {
        depth: c.depth.saturating_sub(1),
        operators: c.operators,
        at: false,
        marks: c.marks,
    }
}

fn past_other(c: Counts) -> Counts
    ensures { result ≡ past_other c }
{
    Counts {
        depth: c.depth,
        operators: 0,
        at: false,
        marks: c.marks,
    }
}

/// The same, with the brackets of marks open or closed.
fn past_marks(c: Counts, at: bool, marks: bool) -> Counts
    ensures depth { result.depth ≡ c.depth }
    ensures operators { result.operators ≡ 0 }
    ensures at { result.at ≡ at }
    ensures marks { result.marks ≡ marks }
{
    Counts {
        depth: c.depth,
        operators: 0,
        at,
        marks,
    }
}

fn past_left_square(c: Counts) -> Counts
    requires { c.depth ≤ MAX_DEPTH }
    ensures { result ≡ count c (word (a_sign Sign.LeftSquare)) }
{
    if c.at {
        past_marks(c, false, true)
    } else {
        past_left(c)
    }
}

fn past_right_square(c: Counts) -> Counts
    ensures { result ≡ count c (word (a_sign Sign.RightSquare)) }
{
    if c.marks {
        past_marks(c, false, false)
    } else {
        past_right(c)
    }
}

fn past_sign(c: Counts, sign: Sign) -> Counts
    requires depth { c.depth ≤ MAX_DEPTH }
    requires operators { c.operators ≤ MAX_OPERATORS }
    ensures { result ≡ count c (word (a_sign sign)) }
{
    match sign {
        Sign::LeftRound => past_left(c),
        Sign::RightRound => past_right(c),
        Sign::LeftBrace => past_other(past_left(c)),
        Sign::RightBrace => past_other(past_right(c)),
        Sign::LeftSquare => past_left_square(c),
        Sign::RightSquare => past_right_square(c),
        Sign::At => past_marks(c, true, c.marks),
        _ => {
            if op_of(sign).is_some() {
                past_operator(c)
            } else {
                past_other(c)
            }
        }
    }
}

/// The counts after a token.
pub fn counted(c: Counts, kind: TokenKind) -> Counts
    requires depth { c.depth ≤ MAX_DEPTH }
    requires operators { c.operators ≤ MAX_OPERATORS }
    ensures { (w : List ℕ) → result ≡ count c (symbol_of kind w) }
{
    match kind {
        TokenKind::Number(_) | TokenKind::Name => past_atom(c),
        TokenKind::Key(_) | TokenKind::End => past_other(c),
        TokenKind::Sign(sign) => past_sign(c, sign),
    }
}
