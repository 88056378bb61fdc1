//! One command of a walk.

ghost use Rattle.std.specs.Prelude.{◌≡◌, ◌<◌, ◌∷◌, [], length, map, vec_len, IfOk, OnErr, OnOk};
ghost use Rattle.mit_syntax.specs.Plan.{list_plan};
ghost use Rattle.mit_syntax.specs.Todo.{then_todo};
ghost use Rattle.source_meaning.specs.Source.{source_act};
ghost use Rattle.source_meaning.specs.Frames.{IsGoing, IsFrame, todo_of, without_last};
ghost use Rattle.source_meaning.specs.Walked.{source_at, told_by};

use crate::frames::{enter, leave};
use crate::value::value;
use crate::walk::Walk;
use mit_syntax::ast::{Command, Form};
use mit_syntax::values::element;
use text_base::pos::Memory;

/// Does the first command of a list, which is the last one of the frames: the command and the rest of the list
/// are given beside it. Fails only for want of memory, and then nothing has changed.
pub fn obey<'a>(
    command: &'a Command,
    list: &'a [Command],
    rest: &'a [Command],
    frames: &mut Vec<&'a [Command]>,
    memory: &mut [i64],
) -> Result<Walk, Memory>
    requires some { 0 < vec_len frames.old }
    requires first { list.now ≡ command.now ∷ rest.now }
    requires frame { IsFrame (length memory.old) list.now }
    requires going { IsGoing (map (λ f. f.now) frames.old.items) (length memory.old) }
    ensures step { IfOk result (λ walk.
        source_act (then_todo (list_plan list.now) (todo_of (without_last (map (λ f. f.now) frames.old.items)))) memory.old []
        ≡ source_at (record { lists = map (λ f. f.now) frames.new.items; memory = memory.new }) (told_by walk)) }
    ensures told { IfOk result (λ walk. walk ≡ Walk.Ended → ⊥) }
    ensures going { OnOk result (IsGoing (map (λ f. f.now) frames.new.items) (length memory.old)) }
    ensures frames { OnErr result (frames.new.items ≡ frames.old.items) }
    ensures memory { OnErr result (memory.new ≡ memory.old) }
{
    match &command.form {
        Form::Skip | Form::Sleep { .. } => {
            leave(frames, rest);
            Ok(Walk::Silent)
        }
        Form::Assign { variable, value: e } => {
            let n = value(e, memory);
            memory[*variable as usize] = n;
            leave(frames, rest);
            Ok(Walk::Assigned(*variable, n))
        }
        Form::Put {
            first,
            length,
            index,
            value: e,
        } => {
            let x = element(*first, *length, value(index, memory));
            let n = value(e, memory);
            memory[x as usize] = n;
            leave(frames, rest);
            Ok(Walk::Assigned(x, n))
        }
        Form::If {
            guard,
            then_part,
            else_part,
        } => {
            if value(guard, memory) != 0 {
                enter(frames, rest, then_part)?;
            } else {
                enter(frames, rest, else_part)?;
            }
            Ok(Walk::Silent)
        }
        Form::While { guard, body } => {
            if value(guard, memory) != 0 {
                enter(frames, list, body)?;
            } else {
                leave(frames, rest);
            }
            Ok(Walk::Silent)
        }
        Form::Mitigate {
            mark,
            estimate: _,
            level: _,
            body,
        } => {
            enter(frames, rest, body)?;
            Ok(Walk::Began(*mark))
        }
    }
}
