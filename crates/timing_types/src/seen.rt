//! Which variables an observer sees.

ghost use Rattle.std.specs.Prelude.{◌≡◌, ◌<◌, ◌≤◌, ℕ, true, length, slice_index_or};
ghost use Rattle.mit_syntax.specs.Declarations.{variables};
ghost use Rattle.timing_types.specs.Labelled.{order_of, labels_of};

use crate::labelled::Labelled;
use label_lattice::label::Label;

impl Labelled {
    /// Marks of each variable, by its number, whether its label flows to an observer's. What stands behind the
    /// variables' places stays.
    pub fn mark_seen(&self, observer: Label, seen: &mut [bool])
        requires { variables self.now.program.declarations ≤ length seen.old }
        ensures length { length seen.new ≡ length seen.old }
        ensures variables { (x : ℕ) → x < variables self.now.program.declarations
            → slice_index_or seen.new x true ≡ (order_of self.now).flows (labels_of self.now x) observer.number }
        ensures others { (x : ℕ) → variables self.now.program.declarations ≤ x → slice_index_or seen.new x true ≡ slice_index_or seen.old x true }
    {
        let program = self.program();
        let order = program.lattice();
        let labels = self.labels();
        for x in 0..program.variables() {
            seen[x as usize] = order.flows(labels.variable(x, order), observer);
        }
    }
}
