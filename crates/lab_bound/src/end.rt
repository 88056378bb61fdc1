//! Whether the end of a run is counted.

ghost use Rattle.std.specs.Prelude.{◌≡◌, ◌++◌, true, false, OnOk};
ghost use Rattle.lab_bound.specs.Text.{CountsEnd, EndPut};

use label_lattice::label::Label;
use std::alloc::AllocError;
use timing_types::ends::loop_end;
use timing_types::typed::Typed;

// Whether the end label of a program flows to an observer. The walk of a list ends at the least of its end labels.
fn counts_end(typed: &Typed, observer: Label) -> bool
    ensures counted { result ≡ true → CountsEnd typed.now.labelled observer.number }
    ensures not_counted { result ≡ false → CountsEnd typed.now.labelled observer.number → ⊥ }
{
    let labelled = typed.labelled();
    let program = labelled.program();
    let order = program.lattice();
    order.laws();
    let bottom = order.bottom();
    let end = loop_end(
        program.body(),
        labelled.labels(),
        order,
        0,
        bottom,
        bottom,
        false,
    );
    order.flows(end, observer)
}

// Appends some bytes.
fn put(text: &mut Vec<u8>, words: &[u8]) -> Result<(), AllocError>
    ensures { OnOk result (text.new.items ≡ text.old.items ++ words.now) }
{
    text.extend_from_slice(words)
}

/// Appends the line that tells whether the counts hold of who sees runs end.
///
/// # Errors
/// `AllocError` where memory runs out.
pub fn put_end(text: &mut Vec<u8>, typed: &Typed, observer: Label) -> Result<(), AllocError>
    ensures { OnOk result (EndPut typed.now.labelled observer.number text.old.items text.new.items) }
{
    if counts_end(typed, observer) {
        return put(text, b"end counted: the same holds for who sees runs end\n");
    }
    put(
        text,
        b"end not counted: no limit told for who sees runs end\n",
    )
}
