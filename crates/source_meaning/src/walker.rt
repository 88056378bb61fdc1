//! Walkers.

ghost use Rattle.std.specs.Prelude.{◌≡◌, [], length, IfOk, OnErr};
ghost use Rattle.mit_syntax.specs.Declarations.{variables};
ghost use Rattle.mit_syntax.specs.Program.{plan_of};
ghost use Rattle.source_meaning.specs.Source.{source_start};
ghost use Rattle.source_meaning.specs.Walked.{IsStep, source_at};

use crate::obey::obey;
use crate::walk::Walk;
use mit_syntax::ast::Command;
use mit_syntax::program::Program;
use std::alloc::Global;
use std::marker::Model;
use text_base::pos::Memory;

/// A run of a program without its time, one step after another.
#[derive(Drop)]
pub struct Walker<'a> {
    frames: Vec<&'a [Command]>,
    memory: Vec<i64>,
}

impl<'a> Model for Walker<'a> {
    ghost use Rattle.std.specs.Prelude.{map, length};
    ghost use Rattle.std.specs.Coded.{codes};
    ghost use Rattle.mit_syntax.specs.contracts.ast.Command as command;
    ghost use Rattle.source_meaning.specs.Walked.{Standing};
    ghost use Rattle.source_meaning.specs.Frames.{IsGoing};

    ghost Value = { Standing };

    ghost coded = { Prim.hlevel (codes, command.the_row.coded) };

    ghost view = { λ w. record { lists = map (λ f. f.now) w.frames.items; memory = w.memory.items } };

    ghost invariant = { λ w. IsGoing (map (λ f. f.now) w.frames.items) (length w.memory.items) };
}

impl<'a> Walker<'a> {
    /// A walker at the start of a program, with a value for each variable. Fails only for want of memory.
    pub fn new(alloc: Global, p: &'a Program, memory: &[i64]) -> Result<Walker<'a>, Memory>
        requires { length memory.now ≡ variables p.now.declarations }
        ensures { IfOk result (λ w. source_start (plan_of p.now) memory.now ≡ source_at w []) }
    {
        p.laws();
        let mut frames = Vec::new(alloc);
        frames.push(p.body())?;
        let memory = Vec::from_slice(alloc, memory)?;
        Ok(Walker { frames, memory })
    }

    /// Takes one step, and answers what it did. Where nothing is left to do it answers `Ended` and stays.
    ///
    /// # Errors
    /// `Memory` where memory runs out; the walker stays as it was.
    pub fn step(&mut self) -> Result<Walk, Memory>
        ensures step { IfOk result (λ walk. IsStep self.old walk self.new) }
        ensures kept { OnErr result (self.new ≡ self.old) }
    {
        let depth = self.frames.len();
        if depth == 0 {
            return Ok(Walk::Ended);
        }
        let list = self.frames[depth - 1];
        let [command, rest @ ..] = list else {
            unreachable!()
        };
        obey(command, list, rest, &mut self.frames, &mut self.memory)
    }
}
