//! Which assignments are shown.

ghost use Rattle.std.specs.Prelude.{◌≡◌, ◌<◌};
ghost use Rattle.mit_syntax.specs.Declarations.{variables};
ghost use Rattle.event_print.specs.Text.{is_shown};

use label_lattice::label::Label;
use label_lattice::lattice::Lattice;
use timing_types::labelled::Labelled;

/// Whether assignments to a variable are shown: to an observer, where the variable's label flows to it. The
/// order is the program's.
pub fn shows(p: &Labelled, order: &Lattice, observer: Option<Label>, variable: u32) -> bool
    requires variable { variable < variables p.now.program.declarations }
    requires order { order.now ≡ p.now.program.order }
    ensures { result ≡ is_shown p.now observer variable }
{
    match observer {
        None => true,
        Some(label) => {
            let own = p.variable_label(variable);
            order.flows(own, label)
        }
    }
}
