//! From an observer's name to a label.

ghost use Rattle.std.specs.Prelude.{◌≡◌, IfOk, IfErr, option_map, codes};
ghost use Rattle.label_lattice.specs.Order.{IsOrder};
ghost use Rattle.tool_texts.specs.Ends.{IsStop};
ghost use Rattle.tool_stages.specs.Stages.{Observes, ObserverStops};

use label_lattice::label::Label;
use label_lattice::lattice::Lattice;
use label_lattice::name::Name;
use tool_texts::stop::Stop;

/// The label that an observer's name names, where there is one.
///
/// # Errors
/// Stops with `Usage` where no label has the name.
pub fn observer(order: &Lattice, name: Option<&str>) -> Result<Option<Label>, Stop>
    ensures ok { IfOk result (Observes order.now (option_map (λ s. s.now) name.entry)) }
    ensures stop { IfErr result (IsStop (ObserverStops order.now (option_map (λ s. s.now) name.entry))) }
{
    let Some(word) = name else {
        return Ok(None);
    };
    order.laws();
    let Some(name) = Name::read(word.as_bytes()) else {
        return Err(Stop::Usage);
    };
    match order.find(&name) {
        Some(label) => Ok(Some(label)),
        None => Err(Stop::Usage),
    }
}
