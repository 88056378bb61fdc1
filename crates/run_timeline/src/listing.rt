//! The mitigates of a program, with what is counted of each.

ghost use Rattle.std.specs.Prelude.{◌≡◌, ℕ, ◌<◌, IfOk, length, replicate, slice_index_or};
ghost use Rattle.mit_syntax.specs.Plan.{mitigates};
ghost use Rattle.mit_syntax.specs.Program.{plan_of};
ghost use Rattle.run_timeline.specs.Places.{places};
ghost use Rattle.run_timeline.specs.declared.tally.Tally.{Tally};
ghost use Rattle.run_timeline.specs.Tallied.{no_tally, noted_moment, HasRoom};

use crate::moment::Moment;
use crate::places::mitigate_places;
use crate::tally::Tally;
use mit_syntax::program::Program;
use std::alloc::Global;
use text_base::pos::{Memory, Pos};

/// Where each mitigate stands, and the tally of each, by their marks.
#[derive(Drop)]
pub struct Listing {
    pub places: Vec<Pos>,
    pub tallies: Vec<Tally>,
}

impl Listing {
    /// Of a program, before any run. Fails only for want of memory.
    pub fn of(alloc: Global, p: &Program) -> Result<Listing, Memory>
        ensures places { IfOk result (λ l. l.places.items ≡ places (plan_of p.now)) }
        ensures tallies { IfOk result (λ l. l.tallies.items ≡ replicate (mitigates (plan_of p.now)) no_tally) }
    {
        let places = mitigate_places(alloc, p)?;
        let tallies = vec![in alloc; Tally::new(); p.mitigates() as usize]?;
        Ok(Listing { places, tallies })
    }
}

/// Counts a mitigation that ended.
pub fn note(tallies: &mut Vec<Tally>, moment: Moment)
    requires { (k : ℕ) (d : Tally) → k < length tallies.old.items → HasRoom 1 (slice_index_or tallies.old.items k d) }
    ensures { tallies.new.items ≡ noted_moment tallies.old.items moment }
{
    if let Moment::Ends {
        mark,
        worked,
        before,
        after,
        ..
    } = moment
    {
        let k = mark as usize;
        if k < tallies.len() {
            tallies[k] = tallies[k].with(worked, before < after);
        }
    }
}
