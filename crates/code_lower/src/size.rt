//! How long the code of commands is, and how deep it goes.

ghost use Rattle.std.specs.Prelude.{◌≡◌, ◌+◌, ◌^◌, ◌<◌, max};
ghost use Rattle.mit_syntax.specs.Expression.{expression_of};
ghost use Rattle.mit_syntax.specs.Todo.{Done};
ghost use Rattle.mit_syntax.specs.Plan.{list_plan, command_plan};
ghost use Rattle.code_lower.specs.Layout.{expr_size, size};
ghost use Rattle.code_lower.specs.Measured.{IsExprExtent, IsExtent};

use mit_syntax::ast::{Command, Expr, Form};

/// How many instructions some code has, and its greatest depths of operands and of open mitigations.
#[derive(Clone, Copy)]
pub(crate) struct Extent {
    pub size: u64,
    pub operands: u64,
    pub nesting: u64,
}

/// No code.
const NOTHING: Extent = Extent {
    size: 0,
    operands: 0,
    nesting: 0,
};

/// One instruction. The operands that it takes are counted where they are pushed.
const ONE: Extent = Extent {
    size: 1,
    operands: 0,
    nesting: 0,
};

impl Extent {
    /// This code and then other code.
    fn followed_by(self, other: Extent) -> Extent
        requires { self.size + other.size < 2 ^ 64 }
        ensures size { result.size ≡ self.size + other.size }
        ensures operands { result.operands ≡ max self.operands other.operands }
        ensures nesting { result.nesting ≡ max self.nesting other.nesting }
    {
        Extent {
            size: self.size + other.size,
            operands: self.operands.max(other.operands),
            nesting: self.nesting.max(other.nesting),
        }
    }

    /// This code where there is one operand more.
    fn above_operand(self) -> Extent
        requires { self.operands + 1 < 2 ^ 64 }
        ensures size { result.size ≡ self.size }
        ensures operands { result.operands ≡ 1 + self.operands }
        ensures nesting { result.nesting ≡ self.nesting }
    {
        Extent {
            operands: self.operands + 1,
            ..self
        }
    }

    /// This code inside one mitigation more.
    fn mitigated(self) -> Extent
        requires { self.nesting + 1 < 2 ^ 64 }
        ensures size { result.size ≡ self.size }
        ensures operands { result.operands ≡ self.operands }
        ensures nesting { result.nesting ≡ 1 + self.nesting }
    {
        Extent {
            nesting: self.nesting + 1,
            ..self
        }
    }
}

fn expr_extent(e: &Expr) -> Extent
    requires { expr_size (expression_of e.now) < 2 ^ 63 }
    ensures { IsExprExtent result (expression_of e.now) }
{
    match e {
        Expr::Number(_) | Expr::Variable(_) => Extent {
            size: 1,
            operands: 1,
            nesting: 0,
        },
        Expr::Binary(_, left, right) => expr_extent(left)
            .followed_by(expr_extent(right).above_operand())
            .followed_by(ONE),
        Expr::Element {
            first: _,
            length: _,
            index,
        } => expr_extent(index).followed_by(ONE),
    }
}

#[cycle(extent)]
fn command_extent(c: &Command) -> Extent
    requires { size (command_plan c.now Done) < 2 ^ 63 }
    ensures { IsExtent result (command_plan c.now Done) }
{
    match &c.form {
        Form::Skip => ONE,
        Form::Assign { variable: _, value } => expr_extent(value).followed_by(ONE),
        Form::Put {
            first: _,
            length: _,
            index,
            value,
        } => expr_extent(index)
            .followed_by(expr_extent(value).above_operand())
            .followed_by(ONE),
        Form::Sleep { time } => expr_extent(time).followed_by(ONE),
        Form::If {
            guard,
            then_part,
            else_part,
        } => {
            let test = expr_extent(guard).followed_by(ONE);
            let chosen = list_extent(then_part).followed_by(ONE);
            test.followed_by(chosen).followed_by(list_extent(else_part))
        }
        Form::While { guard, body } => {
            let test = expr_extent(guard).followed_by(ONE);
            test.followed_by(list_extent(body)).followed_by(test)
        }
        Form::Mitigate {
            mark: _,
            estimate,
            level: _,
            body,
        } => {
            let start = expr_extent(estimate).followed_by(ONE);
            let inner = list_extent(body).mitigated().followed_by(ONE);
            start.followed_by(inner)
        }
    }
}

/// The extent of the code of a list.
#[cycle(extent)]
pub(crate) fn list_extent(commands: &[Command]) -> Extent
    requires { size (list_plan commands.now) < 2 ^ 63 }
    ensures { IsExtent result (list_plan commands.now) }
{
    let mut all = NOTHING;
    for c in commands {
        all = all.followed_by(command_extent(c));
    }
    all
}
