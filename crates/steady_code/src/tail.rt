//! Where the last thing that is seen stands.

ghost use Rattle.std.specs.Prelude.{◌≡◌, ◌≤◌, ℕ, None, MatchOption, length};
ghost use Rattle.steady_code.specs.View.{low_in};
ghost use Rattle.steady_code.specs.Plain.{shown};
ghost use Rattle.steady_code.specs.Tail.{IsLastSeen};

use crate::view::{any_low, is_low};
use label_code::code::Work;
use label_code::image::Image;
use label_lattice::label::Label;
use label_lattice::lattice::Lattice;

/// The greatest place, `most` at most, from which on an instruction that stands there may stand where nothing is seen
/// any more; none where it may write something that is seen.
fn quiet_to(
    lattice: &Lattice,
    labels: &[Label],
    observer: Label,
    work: Work,
    most: u32,
) -> Option<u32>
    ensures { MatchOption result
        ((e : ℕ) → shown (low_in lattice.now labels.now observer.number) e work ≡ None → ⊥)
        (λ l. (l ≤ most) × (shown (low_in lattice.now labels.now observer.number) l work ≡ None)
        × ((e : ℕ) → e ≤ most → shown (low_in lattice.now labels.now observer.number) e work ≡ None → e ≤ l)) }
{
    match work {
        Work::Store(x) => {
            if is_low(lattice, labels, observer, x as usize) {
                return None;
            }
            Some(most)
        }
        Work::StoreAt { first, length } => {
            if 0 < length && !any_low(lattice, labels, observer, first, length) {
                return Some(most);
            }
            None
        }
        Work::Brz(to) | Work::Brnz(to) | Work::Jmp(to) => Some(most.min(to)),
        _ => Some(most),
    }
}

/// The least place from which on nothing is seen and from where no jump leads back before it.
pub fn last_seen(lattice: &Lattice, labels: &[Label], observer: Label, image: &Image) -> u32
    ensures within { result ≤ length image.now.instrs }
    ensures last { IsLastSeen (low_in lattice.now labels.now observer.number) image.now.instrs result }
{
    let count = image.len();
    let mut end = count;
    let mut least = count;
    for back in 0..count {
        let place = count - 1 - back;
        let work = image.at(place).work;
        match quiet_to(lattice, labels, observer, work, least) {
            None => return end,
            Some(to) => least = to,
        }
        if place <= least {
            end = place;
        }
    }
    end
}
