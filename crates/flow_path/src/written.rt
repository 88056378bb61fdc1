//! What a program writes.

ghost use Rattle.std.specs.Prelude.{◌≡◌, option_map};
ghost use Rattle.label_lattice.specs.declared.label.Label.{Label as Written};
ghost use Rattle.flow_path.specs.Steps.{written};

use crate::step::Spot;
use label_lattice::label::Label;
use mit_syntax::program::Program;

/// The label that the program writes at a spot, if it writes one.
pub fn written_at(p: &Program, spot: &Spot) -> Option<Label>
    ensures { written p.now spot.now ≡ option_map (λ (l : Written). l.number) result }
{
    match spot {
        Spot::Variable(x) => {
            if *x < p.variables() {
                p.variable_label(*x)
            } else {
                Some(p.lattice().bottom())
            }
        }
        Spot::Command(label) => Some(*label),
        Spot::Level(_, level) => *level,
    }
}
