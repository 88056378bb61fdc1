//! Which variables' assignments an observer sees.

ghost use Rattle.std.specs.Prelude.{◌≤◌};
ghost use Rattle.mit_syntax.specs.Declarations.{variables};
ghost use Rattle.leak_audit.specs.Observed.{TellsSeen};

use label_lattice::label::Label;
use mit_syntax::declarations::CELLS;
use timing_types::labelled::Labelled;

/// A list that says of each variable, by its number, whether the observer sees its assignments.
pub(crate) fn seen_variables(p: &Labelled, observer: Label) -> [bool; CELLS]
    requires { variables p.now.program.declarations ≤ 3072 }
    ensures { TellsSeen p.now observer.number result }
{
    let mut shown = [true; CELLS];
    p.mark_seen(observer, &mut shown);
    shown
}
