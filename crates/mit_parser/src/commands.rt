//! The parser of commands.

ghost use Rattle.std.specs.Prelude.{◌≡◌, MatchResult};
ghost use Rattle.mit_syntax.specs.Plan.{command_plan, list_plan};
ghost use Rattle.mit_parser.specs.Words.{head_symbol, kind_of};
ghost use Rattle.mit_parser.specs.Machine.{marks, second, a_command, a_block, otherwise, commands};
ghost use Rattle.mit_parser.specs.Scope.{labels_in};
ghost use Rattle.mit_parser.specs.Reads.{scope_of, IsSecond, IsMarks, IsCommand, IsBlock, IsElse, IsCommands, Refused};

use crate::fault::ParseFault;
use crate::names::{Names, array_use, both, scalar_use};
use crate::parser::Parser;
use label_lattice::label::Label;
use label_lattice::lattice::Lattice;
use mit_syntax::ast::{Command, Form};
use mit_syntax::token::{Keyword, Sign, TokenKind};
use std::alloc::Global;
use text_base::pos::Pos;

impl<'a> Parser<'a> {
    // [ "," name ]
    fn second(&mut self, lattice: &Option<Lattice>) -> Result<Option<Label>, ParseFault>
        ensures { MatchResult result (IsSecond (labels_in lattice.now) self.old self.new) (Refused second self.old self.new) }
    {
        if !self.accept_sign(Sign::Comma)? {
            return Ok(None);
        }
        let (name, pos) = self.name()?;
        let label = self.label(lattice, &name, pos);
        Ok(Some(label))
    }

    // [ "@" "[" name [ "," name ] "]" ]
    fn marks(&mut self, lattice: &Option<Lattice>) -> Result<Option<(Label, Label)>, ParseFault>
        ensures { MatchResult result (IsMarks (labels_in lattice.now) self.old self.new) (Refused marks self.old self.new) }
    {
        if !self.accept_sign(Sign::At)? {
            return Ok(None);
        }
        self.sign(Sign::LeftSquare)?;
        let (name, pos) = self.name()?;
        let read = self.label(lattice, &name, pos);
        let write = self.second(lattice)?;
        self.sign(Sign::RightSquare)?;
        Ok(Some(both(read, write)))
    }

    // "skip" [ marks ]
    fn skip(&mut self, names: &Names) -> Result<Command, ParseFault>
        requires { kind_of (head_symbol self.old.words) ≡ TokenKind.Key Keyword.Skip }
        ensures { MatchResult result (λ c. IsCommand (scope_of names.now) self.old self.new (command_plan c)) (Refused a_command self.old self.new) }
    {
        let pos = self.pos();
        self.advance()?;
        let labels = self.marks(&names.lattice)?;
        Ok(Command {
            pos,
            labels,
            form: Form::Skip,
        })
    }

    // name [ "[" expr "]" ] ":=" expr [ marks ]
    fn assignment(&mut self, alloc: Global, names: &Names) -> Result<Command, ParseFault>
        requires { kind_of (head_symbol self.old.words) ≡ TokenKind.Name }
        ensures { MatchResult result (λ c. IsCommand (scope_of names.now) self.old self.new (command_plan c)) (Refused a_command self.old self.new) }
    {
        let pos = self.pos();
        let name = self.name_here();
        self.advance()?;
        if !self.at_sign(Sign::LeftSquare) {
            let (fault, variable) = scalar_use(&names.variables, &name, pos);
            self.note(fault);
            self.sign(Sign::Assign)?;
            let value = self.expr(alloc, names)?;
            let labels = self.marks(&names.lattice)?;
            return Ok(Command {
                pos,
                labels,
                form: Form::Assign { variable, value },
            });
        }
        let (fault, place) = array_use(&names.variables, &name, pos);
        self.note(fault);
        let index = self.index(alloc, names)?;
        self.sign(Sign::Assign)?;
        let value = self.expr(alloc, names)?;
        let labels = self.marks(&names.lattice)?;
        Ok(Command {
            pos,
            labels,
            form: Form::Put {
                first: place.0,
                length: place.1,
                index,
                value,
            },
        })
    }

    // "sleep" expr [ marks ]
    fn sleep(&mut self, alloc: Global, names: &Names) -> Result<Command, ParseFault>
        requires { kind_of (head_symbol self.old.words) ≡ TokenKind.Key Keyword.Sleep }
        ensures { MatchResult result (λ c. IsCommand (scope_of names.now) self.old self.new (command_plan c)) (Refused a_command self.old self.new) }
    {
        let pos = self.pos();
        self.advance()?;
        let time = self.expr(alloc, names)?;
        let labels = self.marks(&names.lattice)?;
        Ok(Command {
            pos,
            labels,
            form: Form::Sleep { time },
        })
    }

    // "if" expr [ marks ] "then" block [ "else" block ]
    #[cycle(command)]
    fn branching(&mut self, alloc: Global, names: &Names) -> Result<Command, ParseFault>
        requires { kind_of (head_symbol self.old.words) ≡ TokenKind.Key Keyword.If }
        ensures { MatchResult result (λ c. IsCommand (scope_of names.now) self.old self.new (command_plan c)) (Refused a_command self.old self.new) }
    {
        let pos = self.pos();
        self.advance()?;
        let guard = self.expr(alloc, names)?;
        let labels = self.marks(&names.lattice)?;
        self.key(Keyword::Then)?;
        let then_part = self.block(alloc, names)?;
        let else_part = self.otherwise(alloc, names, pos)?;
        Ok(Command {
            pos,
            labels,
            form: Form::If {
                guard,
                then_part,
                else_part,
            },
        })
    }

    // "while" expr [ marks ] "do" block
    #[cycle(command)]
    fn repetition(&mut self, alloc: Global, names: &Names) -> Result<Command, ParseFault>
        requires { kind_of (head_symbol self.old.words) ≡ TokenKind.Key Keyword.While }
        ensures { MatchResult result (λ c. IsCommand (scope_of names.now) self.old self.new (command_plan c)) (Refused a_command self.old self.new) }
    {
        let pos = self.pos();
        self.advance()?;
        let guard = self.expr(alloc, names)?;
        let labels = self.marks(&names.lattice)?;
        self.key(Keyword::Do)?;
        let body = self.block(alloc, names)?;
        Ok(Command {
            pos,
            labels,
            form: Form::While { guard, body },
        })
    }

    // "mitigate" "(" expr [ "," name ] ")" [ marks ] block
    #[cycle(command)]
    fn mitigation(&mut self, alloc: Global, names: &Names) -> Result<Command, ParseFault>
        requires { kind_of (head_symbol self.old.words) ≡ TokenKind.Key Keyword.Mitigate }
        ensures { MatchResult result (λ c. IsCommand (scope_of names.now) self.old self.new (command_plan c)) (Refused a_command self.old self.new) }
    {
        let pos = self.pos();
        let mark = self.mitigate()?;
        self.sign(Sign::LeftRound)?;
        let estimate = self.expr(alloc, names)?;
        let level = self.second(&names.lattice)?;
        self.sign(Sign::RightRound)?;
        let labels = self.marks(&names.lattice)?;
        let body = self.block(alloc, names)?;
        Ok(Command {
            pos,
            labels,
            form: Form::Mitigate {
                mark,
                estimate,
                level,
                body,
            },
        })
    }

    // One command.
    #[cycle(command)]
    fn command(&mut self, alloc: Global, names: &Names) -> Result<Command, ParseFault>
        ensures { MatchResult result (λ c. IsCommand (scope_of names.now) self.old self.new (command_plan c)) (Refused a_command self.old self.new) }
    {
        match self.kind() {
            TokenKind::Name => self.assignment(alloc, names),
            TokenKind::Key(Keyword::Skip) => self.skip(names),
            TokenKind::Key(Keyword::Sleep) => self.sleep(alloc, names),
            TokenKind::Key(Keyword::If) => self.branching(alloc, names),
            TokenKind::Key(Keyword::While) => self.repetition(alloc, names),
            TokenKind::Key(Keyword::Mitigate) => self.mitigation(alloc, names),
            TokenKind::Key(_) | TokenKind::Number(_) | TokenKind::Sign(_) | TokenKind::End => {
                Err(self.unexpected())
            }
        }
    }

    // block = "{" commands "}"
    #[cycle(command)]
    fn block(&mut self, alloc: Global, names: &Names) -> Result<Vec<Command>, ParseFault>
        ensures { MatchResult result (λ v. IsBlock (scope_of names.now) self.old self.new (list_plan v.items)) (Refused a_block self.old self.new) }
    {
        self.sign(Sign::LeftBrace)?;
        let list = self.commands(alloc, names)?;
        self.sign(Sign::RightBrace)?;
        Ok(list)
    }

    // [ "else" block ], in an `if` at this position
    #[cycle(command)]
    fn otherwise(
        &mut self,
        alloc: Global,
        names: &Names,
        pos: Pos,
    ) -> Result<Vec<Command>, ParseFault>
        ensures { MatchResult result (λ v. IsElse (scope_of names.now) pos self.old self.new (list_plan v.items)) (Refused otherwise self.old self.new) }
    {
        if self.accept_key(Keyword::Else)? {
            return self.block(alloc, names);
        }
        let mut list = Vec::with_capacity(alloc, 1)?;
        list.push(Command {
            pos,
            labels: None,
            form: Form::Skip,
        })?;
        Ok(list)
    }

    /// commands = command { ";" command }
    #[cycle(command)]
    pub fn commands(&mut self, alloc: Global, names: &Names) -> Result<Vec<Command>, ParseFault>
        ensures { MatchResult result (λ v. IsCommands (scope_of names.now) self.old self.new (list_plan v.items)) (Refused commands self.old self.new) }
    {
        let first = self.command(alloc, names)?;
        let mut list = Vec::with_capacity(alloc, 1)?;
        list.push(first)?;
        while self.at_sign(Sign::Semicolon) {
            self.advance()?;
            let next = self.command(alloc, names)?;
            list.push(next)?;
        }
        Ok(list)
    }
}
