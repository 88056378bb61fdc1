//! The parser goes forward with one token of look-ahead.

ghost use Rattle.std.specs.Prelude.{None, ◌≡◌, ◌≤◌, ◌+◌, ◌<◌, ◌^◌, false, true, ℕ, List, MatchResult, MatchBool, length};
ghost use Rattle.mit_syntax.specs.Chunks.{sign as a_sign, key as a_key, number as a_number_word, name as a_name_word};
ghost use Rattle.mit_parser.specs.Words.{told, word, the_end, is, head_symbol, first_pos, kind_of, symbol_of};
ghost use Rattle.mit_parser.specs.Operators.{op_at};
ghost use Rattle.mit_parser.specs.Scope.{kept, labels_in, label_fault};
ghost use Rattle.mit_parser.specs.Meaning.{label};
ghost use Rattle.mit_parser.specs.Machine.{want, a_name, a_number};
ghost use Rattle.mit_parser.specs.State.{AreSound, begin, with_fault};
ghost use Rattle.mit_parser.specs.Reads.{Passed, Over, Refused, Found, Took, TookName, Accepted, NotAccepted, OnlyEnd, TookMark, TookNumber};

use crate::counts::{Counts, counted, is_over};
use crate::fault::ParseFault;
use crate::names::label_use;
use crate::operators::op_at;
use label_lattice::label::Label;
use label_lattice::lattice::Lattice;
use label_lattice::name::Name;
use mit_syntax::ast::Op;
use mit_syntax::token::{Keyword, Sign, Token, TokenKind};
use std::marker::Model;
use text_base::pos::Pos;

/// What is left of the tokens of a text, the limited counts, the first fault of names, and how many
/// mitigates there were. The last token stays.
#[derive(Drop)]
pub struct Parser<'a> {
    text: &'a [u8],
    rest: &'a [Token],
    counts: Counts,
    fault: Option<ParseFault>,
    marks: u32,
}

impl<'a> Model for Parser<'a> {
    ghost use Rattle.mit_parser.specs.State.{State};

    ghost Value = { State };

    ghost use Rattle.mit_parser.specs.Inside.{state_of, IsKept};

    ghost view = { state_of };

    ghost invariant = { IsKept };
}

impl<'a> Parser<'a> {
    /// A parser before the first token of a text.
    pub fn new(text: &'a [u8], tokens: &'a [Token]) -> Parser<'a>
        requires { AreSound text.now tokens.now }
        ensures { result ≡ begin (told text.now tokens.now) }
    {
        Parser {
            text,
            rest: tokens,
            counts: Counts {
                depth: 0,
                operators: 0,
                at: false,
                marks: false,
            },
            fault: None,
            marks: 0,
        }
    }

    /// Says nothing at run time: there are few tokens, and few brackets are open.
    pub fn laws(&self)
        ensures few { length self.now.words ≤ 2 ^ 31 }
        ensures low { self.now.counts.depth ≤ 100 }
    {
        let _ = &self.rest;
    }

    /// What the first token is.
    pub fn kind(&self) -> TokenKind
        ensures { result ≡ kind_of (head_symbol self.now.words) }
    {
        self.rest[0].kind
    }

    /// Where the first token stands.
    pub fn pos(&self) -> Pos
        ensures { result ≡ first_pos self.now.words }
    {
        self.rest[0].pos
    }

    /// Why the first token is refused.
    pub fn unexpected(&self) -> ParseFault
        ensures { Found result self.now }
    {
        ParseFault::Unexpected(self.rest[0].pos)
    }

    /// The first fault of names so far.
    pub fn fault(&self) -> Option<ParseFault>
        ensures { result ≡ self.now.fault }
    {
        self.fault
    }

    /// Whether only the end is left.
    pub fn is_at_end(&self) -> bool
        ensures { MatchBool result (OnlyEnd self.now.words) (is the_end (head_symbol self.now.words) ≡ false) }
    {
        match self.rest[0].kind {
            TokenKind::End => true,
            _ => false,
        }
    }

    /// Takes the first token, which is not the end, unless it passes a limit.
    pub fn advance(&mut self) -> Result<(), ParseFault>
        requires { is the_end (head_symbol self.old.words) ≡ false }
        ensures { MatchResult result (λ _. Passed self.old self.new) (λ f. Over self.old self.new f) }
    {
        let counts = counted(self.counts, self.rest[0].kind);
        if is_over(counts) {
            return Err(ParseFault::TooDeep(self.rest[0].pos));
        }
        self.counts = counts;
        self.rest = &self.rest[1..];
        Ok(())
    }

    /// Takes `mitigate`, unless it passes a limit, and tells its number.
    pub fn mitigate(&mut self) -> Result<u32, ParseFault>
        requires { kind_of (head_symbol self.old.words) ≡ TokenKind.Key Keyword.Mitigate }
        ensures { MatchResult result (λ k. TookMark k self.old self.new) (λ f. Over self.old self.new f) }
    {
        let mark = self.marks;
        self.advance()?;
        self.marks = mark + 1;
        Ok(mark)
    }

    /// The operator of a rank (1, 2 or 3) that the first token is.
    pub fn op_at(&self, rank: u32) -> Option<Op>
        ensures { result ≡ op_at rank (head_symbol self.now.words) }
    {
        op_at(rank, self.kind())
    }

    /// Keeps a fault of names, unless there is one already.
    pub fn note(&mut self, fault: Option<ParseFault>)
        ensures { self.new ≡ with_fault self.old (kept self.old.fault fault) }
    {
        if self.fault.is_none() {
            self.fault = fault;
        }
    }

    /// Whether the first token is this sign.
    pub fn at_sign(&self, sign: Sign) -> bool
        ensures { result ≡ is (word (a_sign sign)) (head_symbol self.now.words) }
    {
        match self.kind() {
            TokenKind::Sign(s) => s as u8 == sign as u8,
            _ => false,
        }
    }

    /// Whether the first token is this keyword.
    pub fn at_key(&self, key: Keyword) -> bool
        ensures { result ≡ is (word (a_key key)) (head_symbol self.now.words) }
    {
        match self.kind() {
            TokenKind::Key(k) => k as u8 == key as u8,
            _ => false,
        }
    }

    /// Takes this sign.
    pub fn sign(&mut self, sign: Sign) -> Result<(), ParseFault>
        ensures { MatchResult result (λ _. Took (word (a_sign sign)) self.old self.new) (Refused (want (word (a_sign sign))) self.old self.new) }
    {
        if !self.at_sign(sign) {
            return Err(self.unexpected());
        }
        self.advance()
    }

    /// Takes this keyword.
    pub fn key(&mut self, key: Keyword) -> Result<(), ParseFault>
        ensures { MatchResult result (λ _. Took (word (a_key key)) self.old self.new) (Refused (want (word (a_key key))) self.old self.new) }
    {
        if !self.at_key(key) {
            return Err(self.unexpected());
        }
        self.advance()
    }

    /// Takes this sign if it is there.
    pub fn accept_sign(&mut self, sign: Sign) -> Result<bool, ParseFault>
        ensures { MatchResult result (Accepted (word (a_sign sign)) self.old self.new) (NotAccepted (word (a_sign sign)) self.old self.new) }
    {
        if !self.at_sign(sign) {
            return Ok(false);
        }
        self.advance()?;
        Ok(true)
    }

    /// Takes this keyword if it is there.
    pub fn accept_key(&mut self, key: Keyword) -> Result<bool, ParseFault>
        ensures { MatchResult result (Accepted (word (a_key key)) self.old self.new) (NotAccepted (word (a_key key)) self.old self.new) }
    {
        if !self.at_key(key) {
            return Ok(false);
        }
        self.advance()?;
        Ok(true)
    }

    /// The name that the first token is.
    pub fn name_here(&self) -> Name
        requires { kind_of (head_symbol self.now.words) ≡ TokenKind.Name }
        ensures { head_symbol self.now.words ≡ word (a_name_word result) }
    {
        match Name::read(self.rest[0].bytes(self.text)) {
            Some(name) => name,
            None => unreachable!(),
        }
    }

    /// Takes a name, and tells where it stands.
    pub fn name(&mut self) -> Result<(Name, Pos), ParseFault>
        ensures { MatchResult result (λ r. TookName r.0 r.1 self.old self.new) (Refused a_name self.old self.new) }
    {
        let pos = self.pos();
        match self.kind() {
            TokenKind::Name => {
                let name = self.name_here();
                self.advance()?;
                Ok((name, pos))
            }
            TokenKind::Key(_) | TokenKind::Number(_) | TokenKind::Sign(_) | TokenKind::End => {
                Err(self.unexpected())
            }
        }
    }

    /// Takes a number, and tells where it stands.
    pub fn number(&mut self) -> Result<(i64, Pos), ParseFault>
        ensures { MatchResult result (λ r. TookNumber r.0 r.1 self.old self.new) (Refused a_number self.old self.new) }
    {
        let pos = self.pos();
        match self.kind() {
            TokenKind::Number(n) => {
                self.advance()?;
                Ok((n, pos))
            }
            TokenKind::Key(_) | TokenKind::Name | TokenKind::Sign(_) | TokenKind::End => {
                Err(self.unexpected())
            }
        }
    }

    /// The label with a name, which is noted where no label has it.
    pub fn label(&mut self, lattice: &Option<Lattice>, name: &Name, pos: Pos) -> Label
        ensures label { result ≡ label (labels_in lattice.now) name.now }
        ensures state { self.new ≡ with_fault self.old (kept self.old.fault (label_fault (labels_in lattice.now) name.now pos)) }
    {
        let (fault, label) = label_use(lattice, name, pos);
        self.note(fault);
        label
    }
}
