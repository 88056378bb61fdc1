//! Which variable is to blame for a fault.

ghost use Rattle.std.specs.Prelude.{◌≡◌, ◌≤◌, ◌<◌, length};
ghost use Rattle.timing_types.specs.Labelled.{order_of, labels_of};
ghost use Rattle.label_code.specs.Shaped.{takes as operands_taken};
ghost use Rattle.code_lower.specs.Lowered.{lowered};
ghost use Rattle.steady_code.specs.Timed.{low_of};
ghost use Rattle.lab_steady.specs.Blame.{begin_of, blamed as variable_blamed, blamed_of, hidden as hidden_variable, hidden_in, index_end};

use label_code::code::Work;
use label_code::image::Image;
use label_lattice::label::Label;
use steady_code::fault::{Fault, Reason};
use timing_types::labelled::Labelled;

/// Whether an observer sees a variable.
pub(crate) fn is_seen(p: &Labelled, observer: Label, x: u32) -> bool
    ensures { result ≡ low_of (order_of p.now) (labels_of p.now) observer.number x }
{
    let lattice = p.program().lattice();
    let label = p.labels().variable(x, lattice);
    lattice.flows(label, observer)
}

/// What an instruction reads that is not seen.
fn hidden(p: &Labelled, observer: Label, work: Work) -> Option<u32>
    ensures { result ≡ hidden_variable (low_of (order_of p.now) (labels_of p.now) observer.number) work }
{
    match work {
        Work::Load(x)
        | Work::LoadAt {
            first: x,
            length: _,
        } => {
            if is_seen(p, observer, x) {
                None
            } else {
                Some(x)
            }
        }
        _ => None,
    }
}

/// The last such of the instructions from a place on and before another one.
fn last_hidden(p: &Labelled, observer: Label, image: &Image, from: u32, to: u32) -> Option<u32>
    requires { to ≤ length image.now.instrs }
    ensures { result ≡ hidden_in (low_of (order_of p.now) (labels_of p.now) observer.number) image.now.instrs from to }
{
    let mut at = to;
    while at > from {
        at -= 1;
        let read = hidden(p, observer, image.at(at).work);
        if read.is_some() {
            return read;
        }
    }
    None
}

/// How many operands an instruction takes.
fn takes(work: Work) -> u32
    ensures value { result ≡ operands_taken work }
    ensures few { result ≤ 2 }
{
    match work {
        Work::Store(_)
        | Work::LoadAt { .. }
        | Work::Brz(_)
        | Work::Brnz(_)
        | Work::Sleep
        | Work::Mitb { .. } => 1,
        Work::StoreAt { .. } | Work::Apply(_) => 2,
        Work::Push(_) | Work::Load(_) | Work::Jmp(_) | Work::Mite | Work::Nop | Work::Halt => 0,
    }
}

/// Where the code begins that makes the last operand that is there before a place.
fn begin(image: &Image, place: u32) -> u32
    requires { place ≤ length image.now.instrs }
    ensures value { result ≡ begin_of image.now.instrs 1 place }
    ensures within { result ≤ place }
{
    let mut at = place;
    let mut wanted: u64 = 1;
    while wanted > 0 && at > 0 {
        at -= 1;
        wanted = wanted - 1 + u64::from(takes(image.at(at).work));
    }
    at
}

/// Where the code of an index ends.
fn after_index(image: &Image, place: u32, work: Work) -> u32
    requires { place ≤ length image.now.instrs }
    ensures value { result ≡ index_end image.now.instrs place work }
    ensures within { result ≤ length image.now.instrs }
{
    match work {
        Work::StoreAt { .. } => begin(image, place),
        _ => place,
    }
}

/// The variable to blame for a fault of the instruction at a place.
fn blamed(
    p: &Labelled,
    observer: Label,
    image: &Image,
    place: u32,
    work: Work,
    reason: Reason,
) -> Option<u32>
    requires { place ≤ length image.now.instrs }
    ensures { result ≡ variable_blamed (low_of (order_of p.now) (labels_of p.now) observer.number) image.now.instrs place work reason }
{
    match reason {
        Reason::Guard | Reason::Assigned | Reason::Right | Reason::Wait | Reason::Estimate =>
            last_hidden(p, observer, image, 0, place),
        Reason::Index => last_hidden(p, observer, image, 0, after_index(image, place, work)),
        Reason::Left => last_hidden(p, observer, image, 0, begin(image, place)),
        Reason::Felt | Reason::Target | Reason::Seen => None,
    }
}

/// The variable to blame for a fault of the image of a program.
pub(crate) fn blamed_for(p: &Labelled, observer: Label, image: &Image, fault: Fault) -> Option<u32>
    requires image { image.now ≡ lowered p.now }
    requires place { fault.place < length image.now.instrs }
    ensures { result ≡ blamed_of p.now observer.number fault }
{
    let work = image.at(fault.place).work;
    blamed(p, observer, image, fault.place, work, fault.reason)
}
