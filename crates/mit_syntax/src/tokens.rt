//! From a text to its tokens, in one pass.

ghost use Rattle.std.specs.Prelude.{◌≡◌, ◌+◌, ◌^◌, ◌<◌, ◌≤◌, ℕ, List, length, take, drop, slice_index};
ghost use Rattle.std.specs.Prelude.{true, false, MatchResult, MatchBool, IsUtf8};
ghost use Rattle.label_lattice.specs.Names.{Each};
ghost use Rattle.mit_syntax.specs.declared.fault.TextFault.TheVariants.{Memory};
ghost use Rattle.mit_syntax.specs.declared.token.Token.{Token};
ghost use Rattle.mit_syntax.specs.Lexemes.{is_white};
ghost use Rattle.mit_syntax.specs.Cut.{start, moved, in_line, starts_comment, AreTokens, IsFault, end_at, token_bytes};
ghost use Rattle.mit_syntax.specs.TokenSteps.{TookPiece, NoPiece};

use crate::fault::TextFault;
use crate::lexeme::{Flaw, lexeme};
use crate::token::{Token, TokenKind};
use std::alloc::Global;
use std::marker::Model;
use text_base::pos::Pos;

/// A place in a text: how many bytes lie before it, and its position.
#[derive(Clone, Copy)]
pub struct Place {
    pub at: u32,
    pub pos: Pos,
}

/// The bytes that are left, and where they begin.
#[derive(Drop)]
struct Lexer<'a> {
    rest: &'a [u8],
    place: Place,
}

impl<'a> Model for Lexer<'a> {
    ghost use Rattle.std.specs.Prelude.{ℕ, List, ◌+◌, ◌^◌, ◌<◌, ◌≤◌, length};
    ghost use Rattle.mit_syntax.specs.declared.tokens.Place.{Place};

    ghost Value = { Place × List ℕ };

    ghost view = { λ l. (l.place, l.rest.now) };

    ghost invariant = { λ l. (l.place.at + length l.rest.now < 2 ^ 31) × (l.place.pos.line ≤ l.place.at + 1) × (l.place.pos.column ≤ l.place.at + 1) };
}

fn is_white(b: u8) -> bool
    ensures { result ≡ is_white b }
{
    b == b' ' || b == b'\t' || b == b'\r' || b == b'\n'
}

fn starts_comment(text: &[u8]) -> bool
    ensures { result ≡ starts_comment text.now }
{
    match text {
        [a, b, ..] => *a == b'/' && *b == b'/',
        _ => false,
    }
}

/// How many bytes the line has from here on.
fn line_len(text: &[u8]) -> usize
    ensures within { result ≤ length text.now }
    ensures before { (k : ℕ) → k < result → in_line (slice_index text.now k) ≡ true }
    ensures stops { result < length text.now → in_line (slice_index text.now result) ≡ false }
{
    for (i, b) in text.iter().enumerate() {
        if *b == b'\n' {
            return i;
        }
    }
    text.len()
}

impl<'a> Lexer<'a> {
    fn new(text: &'a [u8]) -> Lexer<'a>
        requires { length text.now < 2 ^ 31 }
        ensures { result ≡ (start, text.now) }
    {
        Lexer {
            rest: text,
            place: Place {
                at: 0,
                pos: Pos { line: 1, column: 1 },
            },
        }
    }

    fn is_at_end(&self) -> bool
        ensures { MatchBool result (length self.now.1 ≡ 0) (0 < length self.now.1) }
    {
        self.rest.is_empty()
    }

    /// Passes n bytes of this line.
    fn skip(&mut self, n: usize)
        requires within { n ≤ length self.old.1 }
        requires in_line { Each in_line (take n self.old.1) }
        ensures rest { self.new.1 ≡ drop n self.old.1 }
        ensures place { self.new.0 ≡ moved self.old.0 (take n self.old.1) }
    {
        let Place { at, pos } = self.place;
        let size = n as u32;
        self.place = Place {
            at: at + size,
            pos: Pos {
                line: pos.line,
                column: pos.column + size,
            },
        };
        self.rest = &self.rest[n..];
    }

    /// Passes one byte of white space.
    fn skip_white(&mut self)
        requires { 0 < length self.old.1 }
        ensures rest { self.new.1 ≡ drop 1 self.old.1 }
        ensures place { self.new.0 ≡ moved self.old.0 (take 1 self.old.1) }
    {
        let pos = if self.rest[0] == b'\n' {
            Pos {
                line: self.place.pos.line + 1,
                column: 1,
            }
        } else {
            Pos {
                line: self.place.pos.line,
                column: self.place.pos.column + 1,
            }
        };
        self.place = Place {
            at: self.place.at + 1,
            pos,
        };
        self.rest = &self.rest[1..];
    }

    /// Passes a byte of white space, a comment or a token, and gives the token.
    fn piece(&mut self) -> Result<Option<Token>, TextFault>
        requires { 0 < length self.old.1 }
        ensures { MatchResult result (TookPiece self.old self.new) (NoPiece self.old) }
    {
        if is_white(self.rest[0]) {
            self.skip_white();
            return Ok(None);
        }
        if starts_comment(self.rest) {
            let n = line_len(self.rest);
            self.skip(n);
            return Ok(None);
        }
        let Place { at, pos } = self.place;
        match lexeme(self.rest) {
            Ok((kind, n)) => {
                self.skip(n);
                Ok(Some(Token {
                    kind,
                    from: at,
                    to: at + n as u32,
                    pos,
                }))
            }
            Err(Flaw::Bad) => Err(TextFault::BadByte(pos)),
            Err(Flaw::Wide) => Err(TextFault::WideNumber(pos)),
            Err(Flaw::Long) => Err(TextFault::LongName(pos)),
        }
    }

    fn end(&self) -> Token
        ensures { result ≡ end_at self.now.0 }
    {
        Token {
            kind: TokenKind::End,
            from: self.place.at,
            to: self.place.at,
            pos: self.place.pos,
        }
    }
}

impl Token {
    /// The bytes of a token of this text.
    pub fn bytes<'a>(&self, text: &'a [u8]) -> &'a [u8]
        requires order { self.now.from ≤ self.now.to }
        requires within { self.now.to ≤ length text.now }
        ensures { result.now ≡ token_bytes text.now self.now }
    {
        &text[self.from as usize..self.to as usize]
    }
}

/// The tokens of a text of at most 2^31 - 1 bytes, in order. The last one is `End`, and no other is.
///
/// A text has one list of tokens at most, and none where it has a fault.
///
/// Errors: `NotUtf8` exactly where the text is not UTF-8, whatever else is wrong with it. Else the first
/// fault in the text: `BadByte`, `WideNumber` or `LongName`. `Memory` may come for any text.
pub fn tokens(alloc: Global, text: &[u8]) -> Result<Vec<Token>, TextFault>
    requires { length text.now < 2 ^ 31 }
    ensures answer { MatchResult result (λ v. AreTokens text.now v.items) (IsFault text.now) }
    ensures only { MatchResult result (λ v. (others : List Token) → AreTokens text.now others → others ≡ v.items)
        (λ e. (others : List Token) → AreTokens text.now others → e ≡ Memory) }
{
    match std::str::from_utf8(text) {
        Ok(_) => cut(alloc, text),
        Err(e) => Err(TextFault::NotUtf8(e.valid_up_to() as u32)),
    }
}

/// The tokens of a text that is UTF-8.
fn cut(alloc: Global, text: &[u8]) -> Result<Vec<Token>, TextFault>
    requires size { length text.now < 2 ^ 31 }
    requires utf8 { IsUtf8 text.now }
    ensures { MatchResult result (λ v. AreTokens text.now v.items) (IsFault text.now) }
{
    let mut lexer = Lexer::new(text);
    let mut list = Vec::new(alloc);
    while !lexer.is_at_end() {
        if let Some(token) = lexer.piece()? {
            list.push(token)?;
        }
    }
    list.push(lexer.end())?;
    Ok(list)
}
