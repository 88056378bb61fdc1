//! The lines after all runs.

ghost use Rattle.std.specs.Prelude.{◌≡◌, ◌<◌, ◌≤◌, ◌^◌, length, OnOk, OnErr};
ghost use Rattle.std.specs.Io.KnownBytes.{Appends};
ghost use Rattle.tim_base.specs.Faults.{Rose};
ghost use Rattle.tim_base.specs.Sinks.{AppendsPrefix};
ghost use Rattle.run_timeline.specs.Summary.{summary_text};

use crate::lines::{mitigate_line, tally_line};
use crate::listing::Listing;
use crate::write::write_both;
use tim_base::sink::{Sink, SinkFault};

/// Writes a line for each mitigate of the text: how many of its mitigations ended, the shortest and the longest
/// of their bodies, how many missed, and the least first prediction that no body reaches. There are at most
/// 2^32 of them.
///
/// # Errors
/// The sink's fault, where a prefix of the lines is written.
pub fn print_summary<W: Sink>(listing: &Listing, out: &mut W) -> Result<(), SinkFault>
    requires few { length listing.now.tallies.items < 2 ^ 32 }
    ensures text { OnOk result (Appends (W.taken out.old) (W.taken out.new) (summary_text listing.now.places.items listing.now.tallies.items)) }
    ensures prefix { OnErr result (AppendsPrefix (W.taken out.old) (W.taken out.new) (summary_text listing.now.places.items listing.now.tallies.items)) }
    ensures later { W.faults out.old ≤ W.faults out.new }
    ensures fault { OnErr result (Rose (W.faults out.old) (W.faults out.new)) }
{
    for mark in 0..listing.tallies.len() {
        let tally = listing.tallies[mark];
        let head = mitigate_line(&listing.places, mark as u32, tally.ended);
        let rest = tally_line(tally);
        write_both(head.bytes(), rest.bytes(), out)?;
    }
    Ok(())
}
