//! Calls of the tool and of the lab over files in memory, each with the answer that is wanted. The rows are tables in data/.
#![tactic(auto)]

use anyhow::{Context, Result, bail};
use row::Row;
use std::alloc::Global;
use std::rt::Files;
use tim_base::shelf::{FileShelf, Shelf};

mod line;
mod row;
mod text;
#[cfg(test)]
mod words_tests;

// The tables, in the order in which they are run.
const TABLES: [&str; 32] = [
    "examples.txt",
    "texts.txt",
    "grammar.txt",
    "prefixes.txt",
    "names.txt",
    "limits.txt",
    "refusals.txt",
    "starts.txt",
    "runs.txt",
    "clocks.txt",
    "caches.txt",
    "labels.txt",
    "audits.txt",
    "slots.txt",
    "neighbours.txt",
    "ample.txt",
    "certificates.txt",
    "rejections.txt",
    "faults.txt",
    "lab-examples.txt",
    "lab-why.txt",
    "lab-texts.txt",
    "lab-check.txt",
    "lab-runs.txt",
    "lab-bounds.txt",
    "lab-steady.txt",
    "lab-leaks.txt",
    "lab-tune.txt",
    "lab-spaces.txt",
    "lab-machines.txt",
    "lab-faults.txt",
    "lab-words.txt",
];

// How many rows were run, and how many of them gave something else than they want.
#[derive(Drop)]
struct Tally {
    rows: u64,
    wrong: u64,
}

impl Tally {
    // Runs a row, and says what it gives where that is wrong.
    fn take(&mut self, rt: &impl Print, alloc: Global, row: &Row) -> Result<()> {
        self.rows = self.rows.saturating_add(1);
        let (status, sink) = row.answer(alloc)?;
        if !row.is_answered(status, sink.bytes()) {
            self.wrong = self.wrong.saturating_add(1);
            let given = String::from_utf8_lossy(alloc, sink.bytes())?;
            println!(rt; "wrong: {}: status {status}\n{given}", row.shows())?;
        }
        Ok(())
    }
}

// Runs the rows of a table.
fn run_table(rt: &(impl Print + Files), alloc: Global, name: &str) -> Result<()> {
    let mut bytes = Vec::new(alloc);
    if FileShelf::new(alloc, rt)
        .fetch(alloc, name, &mut bytes)
        .is_err()
    {
        bail!("the table {name} could not be read");
    }
    let table = std::str::from_utf8(bytes.as_slice()).context("the table is no text")?;
    let mut tally = Tally { rows: 0, wrong: 0 };
    let mut last: Option<Row> = None;
    for line in table.lines() {
        if let Some(shows) = line.strip_prefix("= ") {
            if let Some(row) = &last {
                tally.take(rt, alloc, row)?;
            }
            last = Some(Row::new(alloc, shows)?);
        } else if let Some(row) = &mut last {
            row.read(alloc, line)?;
        }
    }
    if let Some(row) = &last {
        tally.take(rt, alloc, row)?;
    }
    println!(rt; "{name}: {} rows, {} wrong", tally.rows, tally.wrong)?;
    Ok(())
}

fn main(rt: HostRuntime) -> Result<()> {
    let alloc = rt.alloc();
    for name in TABLES {
        run_table(&rt, alloc, name)?;
    }
    Ok(())
}
