//! Which assignments are shown.

ghost use Rattle.std.specs.Prelude.{◌≤◌};
ghost use Rattle.mit_syntax.specs.Declarations.{variables};
ghost use Rattle.event_print.specs.Text.{TellsShown};

use label_lattice::label::Label;
use mit_syntax::declarations::CELLS;
use timing_types::labelled::Labelled;

/// A list that says of each variable, by its number, whether its assignments are shown: all, or to an observer
/// those of the variables whose labels flow to it.
pub fn shown_variables(p: &Labelled, observer: Option<Label>) -> [bool; CELLS]
    requires { variables p.now.program.declarations ≤ 3072 }
    ensures { TellsShown p.now observer result }
{
    let mut shown = [true; CELLS];
    if let Some(label) = observer {
        p.mark_seen(label, &mut shown);
    }
    shown
}
