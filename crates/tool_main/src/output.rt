//! When the text goes out.

use line_batch::Batch;
use run_watch::{RunNumber, Watch};
use std::alloc::Global;
use std::cell::RefCell;
use std::io;
use std::io::{Error, ErrorKind, IsTerminal, Write};
use std::rt::{Clock, Files, Stdout};
use std::time::Instant;
use tim_base::sink::{OutSink, Sink, SinkFault, send};

/// Where standard output leads.
#[derive(Clone, Copy)]
pub enum Target {
    /// To a terminal, whose reader sees each line as it is made.
    Terminal,
    /// To a file.
    File,
    /// To a pipe, or to what is none of these.
    Pipe,
}

impl Target {
    // How many bytes of lines may wait. The system keeps a write of so few bytes into a pipe together, so processes that
    // share one spoil no line of one another.
    fn room(self) -> usize {
        match self {
            Target::Terminal | Target::Pipe => 4096,
            Target::File => 65536,
        }
    }

    // How long lines may wait while work goes on, in milliseconds.
    fn wait(self) -> u64 {
        match self {
            Target::Terminal => 0,
            Target::File | Target::Pipe => 100,
        }
    }
}

/// Where standard output leads.
pub fn target_of<R: Files>(rt: &R, out: &Stdout) -> Target {
    if out.is_terminal() {
        return Target::Terminal;
    }
    match rt.metadata("/proc/self/fd/1") {
        Ok(found) if found.is_file() => Target::File,
        _ => Target::Pipe,
    }
}

// The clock is asked once in so many pieces. Where work lies between them the watch is told, so it is asked then too.
const PIECES: u32 = 64;

// Lines that wait, and when lines went last, or the program began; none where the clock does not answer, and then no line
// waits.
#[derive(Drop)]
struct Lines<W: Sink> {
    batch: Batch<W>,
    wait: u64,
    went: Option<Instant>,

    // How many pieces came since the clock was asked.
    pieces: u32,
    is_lost: bool,
}

impl<W: Sink> Lines<W> {
    // Whether lines that wait have to go.
    fn is_late<C: Clock>(&self, clock: &C) -> bool {
        if self.wait == 0 {
            return true;
        }
        let Some(went) = self.went else {
            return true;
        };
        match went.elapsed(clock) {
            Ok(elapsed) => {
                elapsed.as_secs() > 0 || u64::from(elapsed.subsec_millis()) >= self.wait
            }
            Err(_) => true,
        }
    }

    // Hands on the lines that wait, where they have to go.
    fn hand_on<C: Clock>(&mut self, clock: &C) -> Result<(), SinkFault> {
        if self.is_lost {
            return Err(SinkFault);
        }
        if !self.batch.waits() || !self.is_late(clock) {
            return Ok(());
        }
        let result = self.batch.hand_on();
        self.is_lost = result.is_err();
        self.went = Instant::now(clock).ok();
        result
    }

    // Takes a piece.
    fn put<C: Clock>(&mut self, clock: &C, piece: &[u8]) -> Result<(), SinkFault> {
        if self.is_lost {
            return Err(SinkFault);
        }
        if send(&mut self.batch, piece).1.is_err() {
            self.is_lost = true;
            return Err(SinkFault);
        }
        self.pieces = self.pieces.saturating_add(1);
        if self.wait > 0 && self.pieces < PIECES {
            return Ok(());
        }
        self.pieces = 0;
        self.hand_on(clock)
    }

    // Hands on all that waits.
    fn end(&mut self) -> Result<(), SinkFault> {
        if self.is_lost {
            return Err(SinkFault);
        }
        let result = self.batch.hand_all();
        self.is_lost = result.is_err();
        result
    }
}

/// A writer that hands whole lines to standard output: those that wait where no more fit, where they have waited long enough
/// when a line comes or the watch is told, and at the end. A call writes to it by one reference, and tells it by another;
/// what waits stands in a cell between the two. After a fault nothing more is handed on, and whatever comes fails. No
/// contract speaks of what is in the cell; those of `Batch` say what becomes of it.
#[derive(Drop)]
pub struct Outlet<'a, C: Clock, P: Watch> {
    clock: &'a C,
    watch: &'a P,
    lines: RefCell<Option<Lines<OutSink<Stdout, &'a P>>>>,
}

impl<'a, C: Clock, P: Watch> Outlet<'a, C, P> {
    /// A writer over standard output, from which nothing has gone yet. Where there is no memory for lines that wait, none
    /// waits.
    pub fn new(
        alloc: Global,
        clock: &'a C,
        watch: &'a P,
        out: Stdout,
        target: Target,
    ) -> Outlet<'a, C, P> {
        let batch = match Batch::new(alloc, OutSink::new(out, watch), target.room()) {
            Ok(batch) => Some(batch),
            Err(out) => Batch::new(alloc, out, 0).ok(),
        };
        let lines = batch.map(|batch| Lines {
            batch,
            wait: target.wait(),
            went: Instant::now(clock).ok(),
            pieces: 0,
            is_lost: false,
        });
        Outlet {
            clock,
            watch,
            lines: RefCell::new(lines),
        }
    }
}

// What a writer answers of which nothing more is known.
fn lost() -> Error {
    Error::from(ErrorKind::Other)
}

impl<C: Clock, P: Watch> Write for &Outlet<'_, C, P> {
    fn write(&mut self, piece: &[u8]) -> io::Result<usize> {
        let Ok(mut found) = self.lines.try_borrow_mut() else {
            return Err(lost());
        };
        let result = match &mut *found {
            Some(lines) => lines.put(self.clock, piece),
            None => Err(SinkFault),
        };
        match result {
            Ok(()) => Ok(piece.len()),
            Err(_) => Err(lost()),
        }
    }

    fn flush(&mut self) -> io::Result<()> {
        let Ok(mut found) = self.lines.try_borrow_mut() else {
            return Err(lost());
        };
        let result = match &mut *found {
            Some(lines) => lines.end(),
            None => Err(SinkFault),
        };
        match result {
            Ok(()) => Ok(()),
            Err(_) => Err(lost()),
        }
    }
}

impl<C: Clock, P: Watch> Watch for Outlet<'_, C, P> {
    fn tell(&self, number: RunNumber, clock: u64, limit: u64) {
        // Who shows how far runs have come is told of runs alone.
        if number.runs > 0 {
            self.watch.tell(number, clock, limit);
        }
        if let Ok(mut found) = self.lines.try_borrow_mut()
            && let Some(lines) = &mut *found
        {
            // What fails here fails where the next line comes, or at the end.
            let _ = lines.hand_on(self.clock);
        }
    }

    // The line of progress is taken away where lines go, and not where they wait.
    fn clear(&self) {}
}
