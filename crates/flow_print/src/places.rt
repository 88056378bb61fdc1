//! Where words stand in a text.

ghost use Rattle.std.specs.Prelude.{◌≡◌, ◌≤◌, ◌&&◌, ℕ, List, true, length, IsTrue};
ghost use Rattle.std.specs.List.{AllAdjacentBelow, AllWithin};
ghost use Rattle.mit_syntax.specs.declared.token.Token.{Token as AToken};
ghost use Rattle.flow_print.specs.Places.{is_after, is_same, spelled, is_name_kind, is_name, next_place, is_var, declared_place, kind_at, spelled_at};

use mit_syntax::token::{Keyword, Token, TokenKind};
use text_base::pos::Pos;

fn is_after(p: Pos, q: Pos) -> bool
    ensures { result ≡ is_after p q }
{
    p.line > q.line || p.line == q.line && p.column > q.column
}

fn is_same(p: Pos, q: Pos) -> bool
    ensures { result ≡ is_same p q }
{
    p.line == q.line && p.column == q.column
}

/// The bytes of a token.
fn spelled<'a>(text: &'a [u8], t: &Token) -> &'a [u8]
    ensures { result.now ≡ spelled text.now t.now }
{
    let from = t.from as usize;
    let to = t.to as usize;
    if from <= to && to <= text.len() {
        &text[from..to]
    } else {
        b"".as_slice()
    }
}

fn is_name_kind(kind: TokenKind) -> bool
    ensures { result ≡ is_name_kind kind }
{
    match kind {
        TokenKind::Name => true,
        TokenKind::Key(_) | TokenKind::Number(_) | TokenKind::Sign(_) | TokenKind::End => false,
    }
}

/// Whether the token is this name.
fn is_name(text: &[u8], t: &Token, name: &[u8]) -> bool
    ensures { result ≡ is_name text.now t.now name.now }
{
    is_name_kind(t.kind) && spelled(text, t) == name
}

fn is_var(kind: TokenKind) -> bool
    ensures { result ≡ is_var kind }
{
    matches!(kind, TokenKind::Key(Keyword::Var))
}

/// Whether the token is this name after a position.
fn is_next(text: &[u8], t: &Token, q: Pos, name: &[u8]) -> bool
    ensures { result ≡ (is_after t.now.pos q && is_name text.now t.now name.now) }
{
    is_after(t.pos, q) && is_name(text, t, name)
}

/// Whether the token is this name after `var`.
fn is_declared(text: &[u8], after: bool, t: &Token, name: &[u8]) -> bool
    ensures { result ≡ (after && is_name text.now t.now name.now) }
{
    after && is_name(text, t, name)
}

/// The first place of a name after a position among tokens, or else that position.
fn next_among(text: &[u8], tokens: &[Token], q: Pos, name: &[u8]) -> Pos
    ensures { result ≡ next_place text.now tokens.now q name.now }
{
    for t in tokens {
        if is_next(text, t, q, name) {
            return t.pos;
        }
    }
    q
}

/// The kind of the token at a position among tokens, or `End` where none begins there.
pub fn kind_among(tokens: &[Token], q: Pos) -> TokenKind
    ensures { result ≡ kind_at tokens.now q }
{
    for t in tokens {
        if is_same(t.pos, q) {
            return t.kind;
        }
    }
    TokenKind::End
}

/// The bytes of the token at a position among tokens; none where none begins there.
fn spelled_among<'a>(text: &'a [u8], tokens: &[Token], q: Pos) -> &'a [u8]
    ensures { result.now ≡ spelled_at text.now tokens.now q }
{
    for t in tokens {
        if is_same(t.pos, q) {
            return spelled(text, t);
        }
    }
    b"".as_slice()
}

/// A text and its tokens, among which places are found. Where the positions of the tokens rise, as those of a text do,
/// a search begins near its place.
#[derive(Drop)]
pub struct Spelling<'a> {
    pub text: &'a [u8],
    pub tokens: &'a [Token],
    rise: bool,
    ghost risen: { IsTrue rise → AllAdjacentBelow (λ (a b : AToken). is_after b.pos a.pos ≡ true) tokens.now (length tokens.now) },
}

impl<'a> Spelling<'a> {
    /// Goes once through the tokens, to see whether their positions rise.
    pub fn new(text: &'a [u8], tokens: &'a [Token]) -> Spelling<'a>
        ensures text { result.text.now ≡ text.now }
        ensures tokens { result.tokens.now ≡ tokens.now }
    {
        let rise = tokens.is_sorted_by(|a, b| is_after(b.pos, a.pos));
        Spelling { text, tokens, rise }
    }

    /// How many tokens a search for a position passes over. Each of them stands before it.
    fn passed(&self, q: Pos) -> usize
        ensures within { result ≤ length self.now.tokens.now }
        ensures before { AllWithin (λ (t : AToken). is_after q t.pos ≡ true) self.now.tokens.now 0 result }
    {
        if self.rise {
            self.tokens.partition_point(|t| is_after(q, t.pos))
        } else {
            0
        }
    }

    /// The tokens among which a search for a position goes on.
    fn near(&self, q: Pos) -> &[Token]
        ensures next { (text name : List ℕ) → next_place text result.now q name ≡ next_place text self.now.tokens.now q name }
        ensures kind { kind_at result.now q ≡ kind_at self.now.tokens.now q }
        ensures word { (text : List ℕ) → spelled_at text result.now q ≡ spelled_at text self.now.tokens.now q }
    {
        let passed = self.passed(q);
        &self.tokens[passed..]
    }

    /// The first place of a name after a position, or else that position.
    pub fn next_place(&self, q: Pos, name: &[u8]) -> Pos
        ensures { result ≡ next_place self.now.text.now self.now.tokens.now q name.now }
    {
        next_among(self.text, self.near(q), q, name)
    }

    /// The kind of the token at a position.
    pub(crate) fn kind_at(&self, q: Pos) -> TokenKind
        ensures { result ≡ kind_at self.now.tokens.now q }
    {
        kind_among(self.near(q), q)
    }

    /// The bytes of the token at a position; none where none begins there.
    pub fn spelled_at(&self, q: Pos) -> &'a [u8]
        ensures { result.now ≡ spelled_at self.now.text.now self.now.tokens.now q }
    {
        spelled_among(self.text, self.near(q), q)
    }

    /// Where a name is declared: its first place after `var`.
    pub fn declared_place(&self, name: &[u8]) -> Option<Pos>
        ensures { result ≡ declared_place self.now.text.now self.now.tokens.now name.now }
    {
        let mut after = false;
        for t in self.tokens {
            if is_declared(self.text, after, t, name) {
                return Some(t.pos);
            }
            after = is_var(t.kind);
        }
        None
    }
}
