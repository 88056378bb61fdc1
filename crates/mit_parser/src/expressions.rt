//! The parser of expressions.

ghost use Rattle.std.specs.Prelude.{◌≡◌, false, true, MatchResult};
ghost use Rattle.mit_syntax.specs.Chunks.{sign as a_sign};
ghost use Rattle.mit_syntax.specs.Expression.{expression_of};
ghost use Rattle.mit_parser.specs.Words.{word, is, head_symbol, kind_of};
ghost use Rattle.mit_parser.specs.Machine.{an_atom, an_index, a_term, a_sum, an_expr};
ghost use Rattle.mit_parser.specs.Reads.{scope_of, IsAtom, IsIndex, IsTerm, IsSum, IsWhole, Refused};

use crate::fault::ParseFault;
use crate::names::{Names, array_use, scalar_use};
use crate::parser::Parser;
use mit_syntax::ast::Expr;
use mit_syntax::token::{Sign, TokenKind};
use std::alloc::Global;

impl<'a> Parser<'a> {
    // atom = number | name [ "[" expr "]" ] | "(" expr ")"
    #[cycle(expression)]
    fn atom(&mut self, alloc: Global, names: &Names) -> Result<Expr, ParseFault>
        ensures { MatchResult result (λ e. IsAtom (scope_of names.now) self.old self.new (expression_of e)) (Refused an_atom self.old self.new) }
    {
        match self.kind() {
            TokenKind::Number(n) => {
                self.advance()?;
                Ok(Expr::Number(n))
            }
            TokenKind::Name => self.named(alloc, names),
            TokenKind::Sign(Sign::LeftRound) => {
                self.advance()?;
                let inner = self.expr(alloc, names)?;
                self.sign(Sign::RightRound)?;
                Ok(inner)
            }
            TokenKind::Sign(_) | TokenKind::Key(_) | TokenKind::End => Err(self.unexpected()),
        }
    }

    // name [ "[" expr "]" ]
    #[cycle(expression)]
    fn named(&mut self, alloc: Global, names: &Names) -> Result<Expr, ParseFault>
        requires { kind_of (head_symbol self.old.words) ≡ TokenKind.Name }
        ensures { MatchResult result (λ e. IsAtom (scope_of names.now) self.old self.new (expression_of e)) (Refused an_atom self.old self.new) }
    {
        let pos = self.pos();
        let name = self.name_here();
        self.advance()?;
        if !self.at_sign(Sign::LeftSquare) {
            let (fault, variable) = scalar_use(&names.variables, &name, pos);
            self.note(fault);
            return Ok(Expr::Variable(variable));
        }
        let (fault, place) = array_use(&names.variables, &name, pos);
        self.note(fault);
        let index = self.index(alloc, names)?;
        Ok(Expr::Element {
            first: place.0,
            length: place.1,
            index: Box::new(alloc, index)?,
        })
    }

    /// An index: `"[" expr "]"`.
    #[cycle(expression)]
    pub fn index(&mut self, alloc: Global, names: &Names) -> Result<Expr, ParseFault>
        requires there { is (word (a_sign Sign.LeftSquare)) (head_symbol self.old.words) ≡ true }
        requires counted { self.old.counts.at ≡ false }
        ensures { MatchResult result (λ e. IsIndex (scope_of names.now) self.old self.new (expression_of e)) (Refused an_index self.old self.new) }
    {
        self.sign(Sign::LeftSquare)?;
        let inner = self.expr(alloc, names)?;
        self.sign(Sign::RightSquare)?;
        Ok(inner)
    }

    // term = atom { ( "*" | "/" | "%" ) atom }
    #[cycle(expression)]
    fn term(&mut self, alloc: Global, names: &Names) -> Result<Expr, ParseFault>
        ensures { MatchResult result (λ e. IsTerm (scope_of names.now) self.old self.new (expression_of e)) (Refused a_term self.old self.new) }
    {
        let mut left = self.atom(alloc, names)?;
        while let Some(op) = self.op_at(3) {
            self.advance()?;
            let right = self.atom(alloc, names)?;
            left = Expr::Binary(op, Box::new(alloc, left)?, Box::new(alloc, right)?);
        }
        Ok(left)
    }

    // sum = term { ( "+" | "-" ) term }
    #[cycle(expression)]
    fn sum(&mut self, alloc: Global, names: &Names) -> Result<Expr, ParseFault>
        ensures { MatchResult result (λ e. IsSum (scope_of names.now) self.old self.new (expression_of e)) (Refused a_sum self.old self.new) }
    {
        let mut left = self.term(alloc, names)?;
        while let Some(op) = self.op_at(2) {
            self.advance()?;
            let right = self.term(alloc, names)?;
            left = Expr::Binary(op, Box::new(alloc, left)?, Box::new(alloc, right)?);
        }
        Ok(left)
    }

    /// expr = sum [ ( "==" | "!=" | "<" | "<=" | ">" | ">=" ) sum ]
    #[cycle(expression)]
    pub fn expr(&mut self, alloc: Global, names: &Names) -> Result<Expr, ParseFault>
        ensures { MatchResult result (λ e. IsWhole (scope_of names.now) self.old self.new (expression_of e)) (Refused an_expr self.old self.new) }
    {
        let left = self.sum(alloc, names)?;
        let Some(op) = self.op_at(1) else {
            return Ok(left);
        };
        self.advance()?;
        let right = self.sum(alloc, names)?;
        Ok(Expr::Binary(op, Box::new(alloc, left)?, Box::new(alloc, right)?))
    }
}
