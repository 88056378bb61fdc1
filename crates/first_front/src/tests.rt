ghost use Rattle.std.specs.Prelude.{◌≡◌, IfOk};
ghost use Rattle.std.specs.List.{sum_by};

use crate::class::{Class, Varied};
use crate::enough::enough;
use crate::fault::WalkFault;
use crate::front::front;
use crate::interval::Interval;
use crate::walk::walk;
use label_lattice::label::Label;
use run_entries::entry::{Deed, Entry, Opening};
use std::alloc::Global;
use text_base::pos::Memory;

// Starts whose runs open one mitigation at cycle 1 and work so many cycles in it.
fn works(alloc: Global, cycles: u64, starts: u64) -> Result<Class, Memory>
    ensures { IfOk result (λ c. c.starts ≡ starts) }
{
    let opening = Opening {
        estimate: 1,
        level: Label::new(0),
        mark: 0,
    };
    let mut entries = Vec::new(alloc);
    entries.push(Entry {
        cost: 1,
        deed: Deed::Pushed(0),
    })?;
    entries.push(Entry {
        cost: 0,
        deed: Deed::Opens(opening),
    })?;
    entries.push(Entry {
        cost: cycles,
        deed: Deed::Closes,
    })?;
    Ok(Class { entries, starts })
}

// One start that works 9 cycles, and two that work 3.
fn nine_and_three(alloc: Global) -> Result<Vec<Class>, Memory>
    ensures { IfOk result (λ cs. sum_by (λ c. c.starts) cs.items ≡ 3) }
{
    let mut classes = Vec::new(alloc);
    let nine = works(alloc, 9, 1)?;
    classes.push(nine)?;
    let three = works(alloc, 3, 2)?;
    classes.push(three)?;
    Ok(classes)
}

// By hand: for 9 cycles the first predictions 1, 2, 3, 5 and 10 matter, for 3 cycles 1, 2 and 4.
static FIRSTS: [u64; 6] = [1, 2, 3, 4, 5, 10];

// With 5 the run of 9 cycles ends at 11 and those of 3 at 6; with 10 all three end at 11.
static FRONT: [Interval; 2] = [
    Interval {
        first: 5,
        last: 9,
        things: 2,
        cost: 23,
        latest: 11,
    },
    Interval {
        first: 10,
        last: 1_099_511_627_776,
        things: 1,
        cost: 33,
        latest: 11,
    },
];

static VARIED: Varied<'static> = Varied {
    written: &[],
    place: 0,
    relevant: &[true],
};

#[test]
fn intervals_by_hand(rt: HostRuntime) -> Result<(), WalkFault> {
    let classes = nine_and_three(rt.alloc())?;
    let intervals = walk(rt.alloc(), &classes, &VARIED)?;
    assert!(rt; intervals.len() == 6);
    for (interval, first) in intervals.iter().zip(&FIRSTS) {
        assert!(rt; interval.first == *first);
    }
    Ok(())
}

#[test]
fn front_by_hand(rt: HostRuntime) -> Result<(), WalkFault> {
    let classes = nine_and_three(rt.alloc())?;
    let best = front(rt.alloc(), &classes, &VARIED, 11)?;
    assert!(rt; best.as_slice() == FRONT.as_slice());
    let none = front(rt.alloc(), &classes, &VARIED, 10)?;
    assert!(rt; none.is_empty());
    Ok(())
}

#[test]
fn enough_by_hand(rt: HostRuntime) -> Result<(), WalkFault> {
    assert!(rt; enough(FRONT.as_slice(), 64) == Some(FRONT[0]));
    assert!(rt; enough(FRONT.as_slice(), 1) == Some(FRONT[0]));
    assert!(rt; enough(FRONT.as_slice(), 0) == Some(FRONT[1]));
    assert!(rt; enough(&FRONT[..1], 0).is_none());
    Ok(())
}
