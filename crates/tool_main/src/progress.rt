//! How far runs have come, as a line on a terminal. No contract speaks of it.

use event_print::cells::put_number;
use run_watch::{RunNumber, Watch};
use std::cell::Cell;
use std::io::{IsTerminal, Write};
use std::rt::{Clock, Stderr};
use std::time::Instant;
use tim_base::line::Line;

// When the line is first written, and how long it then stands, in milliseconds.
const FIRST: u64 = 2000;

const STANDS: u64 = 250;

// What takes a line away.
const ERASE: &[u8] = b"\r\x1b[K";

/// A line on standard error, where that is a terminal: which run is worked on, of how many, its clock and its budget in
/// cycles, and the share done. It comes where more than two seconds have passed, is written anew a few times a second, and
/// is taken away before anything is written to standard output. Where the clock does not answer there is none.
#[derive(Drop)]
pub struct ProgressLine<'a, C: Clock> {
    clock: &'a C,
    terminal: Stderr,

    // When the program began; none where there is no line.
    began: Option<Instant>,

    // When the line is written next, in milliseconds after that.
    next: Cell<u64>,

    // Whether it stands there.
    stands: Cell<bool>,
}

impl<'a, C: Clock> ProgressLine<'a, C> {
    /// A line that does not stand there yet. The program begins now.
    pub fn new(clock: &'a C, terminal: Stderr) -> ProgressLine<'a, C> {
        let began = if terminal.is_terminal() {
            Instant::now(clock).ok()
        } else {
            None
        };
        ProgressLine {
            clock,
            terminal,
            began,
            next: Cell::new(FIRST),
            stands: Cell::new(false),
        }
    }

    // The time since the program began, in milliseconds.
    fn elapsed(&self) -> Option<u64> {
        let elapsed = self.began?.elapsed(self.clock).ok()?;
        let whole = elapsed.as_secs().saturating_mul(1000);
        Some(whole.saturating_add(u64::from(elapsed.subsec_millis())))
    }

    // Writes bytes to the terminal. If it takes none, the line is missing there.
    fn show(&self, bytes: &[u8]) {
        let mut terminal = &self.terminal;
        let _ = terminal.write_all(bytes);
    }
}

// The line: `run 3 of 128: cycle 500 of 1000 (50%)`, and of one run `run: cycle 500 of 1000 (50%)`.
fn line_of(number: RunNumber, clock: u64, limit: u64) -> Line {
    let mut line = Line::new();
    line.put_text(ERASE);
    line.put_text(b"run");
    if number.runs > 1 {
        put_number(&mut line, b" ", number.run as u64);
        put_number(&mut line, b" of ", number.runs as u64);
    }
    put_number(&mut line, b": cycle ", clock);
    put_number(&mut line, b" of ", limit);
    put_number(&mut line, b" (", clock.saturating_mul(100) / limit.max(1));
    line.put_text(b"%)");
    line
}

impl<C: Clock> Watch for ProgressLine<'_, C> {
    fn tell(&self, number: RunNumber, clock: u64, limit: u64) {
        let Some(elapsed) = self.elapsed() else {
            return;
        };
        if elapsed < self.next.get() {
            return;
        }
        self.next.set(elapsed.saturating_add(STANDS));
        self.stands.set(true);
        self.show(line_of(number, clock, limit).bytes());
    }

    fn clear(&self) {
        if self.stands.replace(false) {
            self.show(ERASE);
        }
    }
}
