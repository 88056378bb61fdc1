use super::*;
use std::cell::Cell;

// Keeps what it was told last, and how often the line was taken away.
#[derive(Drop)]
struct Last {
    number: Cell<usize>,
    clock: Cell<u64>,
    cleared: Cell<u32>,
}

impl Watch for Last {
    fn tell(&self, number: RunNumber, clock: u64, _limit: u64) {
        self.number.set(number.run);
        self.clock.set(clock);
    }

    fn clear(&self) {
        self.cleared.set(self.cleared.get().wrapping_add(1));
    }
}

#[test]
fn hands_on_what_it_is_told(rt: HostRuntime) {
    let last = Last {
        number: Cell::new(0),
        clock: Cell::new(0),
        cleared: Cell::new(0),
    };
    let behind = &last;
    let third = Watched::new(&behind, RunNumber { run: 3, runs: 4 });
    third.tell(7, 9);
    behind.clear();
    assert_eq!(rt; (last.number.get(), last.clock.get()), (3, 7));
    assert_eq!(rt; last.cleared.get(), 1);
    Nobody.tell(RunNumber { run: 1, runs: 1 }, 0, 9);
    Nobody.clear();
}
