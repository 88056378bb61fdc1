use super::*;
use crate::sink::write_all;
use run_watch::{Nobody, RunNumber, Watch};
use std::cell::Cell;
use std::fs;
use std::test::Fail;

#[test]
fn writes_a_file(rt: HostRuntime) -> Result<(), Fail> {
    let mut out = OutSink::new(fs::create(&rt, "sink_test.txt")?, Nobody);
    assert_eq!(rt; write_all(&mut out, b"one\ntwo\n"), Ok(()));
    assert_eq!(rt; out.faults, 0);
    drop(out);

    let written = fs::read(&rt, "sink_test.txt")?;
    assert_eq!(rt; written.as_slice(), b"one\ntwo\n".as_slice());

    let mut closed = OutSink::new(fs::open(&rt, "sink_test.txt")?, Nobody);
    assert_eq!(rt; closed.write(b"three"), Err(SinkFault));
    assert_eq!(rt; closed.faults, 1);
    fs::remove_file(&rt, "sink_test.txt")?;
    Ok(())
}

// Counts what it is told, and how often its line is taken away.
#[derive(Drop)]
struct Counts {
    told: Cell<u32>,
    cleared: Cell<u32>,
}

impl Watch for Counts {
    fn tell(&self, _number: RunNumber, _clock: u64, _limit: u64) {
        self.told.set(self.told.get().wrapping_add(1));
    }

    fn clear(&self) {
        self.cleared.set(self.cleared.get().wrapping_add(1));
    }
}

#[test]
fn takes_the_line_away_before_a_write(rt: HostRuntime) -> Result<(), Fail> {
    let counts = Counts {
        told: Cell::new(0),
        cleared: Cell::new(0),
    };
    let mut out = OutSink::new(fs::create(&rt, "watch_test.txt")?, &counts);
    out.tell(RunNumber { run: 1, runs: 1 }, 5, 9);
    assert_eq!(rt; (counts.told.get(), counts.cleared.get()), (1, 0));
    assert_eq!(rt; write_all(&mut out, b"one\n"), Ok(()));
    assert_eq!(rt; (counts.told.get(), counts.cleared.get()), (1, 1));
    drop(out);
    fs::remove_file(&rt, "watch_test.txt")?;
    Ok(())
}
