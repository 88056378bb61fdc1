//! The lines of a timeline.

ghost use Rattle.std.specs.Prelude.{◌≡◌, ◌+◌, ◌<◌, ◌≤◌, ◌++◌, length, codes, decimal, slice_get};
ghost use Rattle.mit_syntax.specs.Declarations.{variables};
ghost use Rattle.event_print.specs.Text.{event_line, last_line, cycle_text};
ghost use Rattle.run_timeline.specs.Text.{place_text, mark_text, level_text, head_text, begin_text, end_text};
ghost use Rattle.run_timeline.specs.Summary.{mitigate_text, tally_text};

use crate::tally::Tally;
use cycle_machine::end::RunEnd;
use event_print::cells::{put_cell, put_number, put_value, put_wide};
use mit_syntax::program::Program;
use text_base::pos::Pos;
use tim_base::line::Line;
use timing_types::labelled::Labelled;

// Ends a line with a cycle.
fn put_cycle(line: &mut Line, cycle: u64)
    requires { length line.old ≤ 136 }
    ensures { line.new ≡ line.old ++ cycle_text cycle }
{
    put_number(line, b" @", cycle);
    line.put_text(b"\n");
}

// The place of the mitigate with a mark.
fn place_of(places: &[Pos], mark: u32) -> Option<Pos>
    ensures { result ≡ slice_get places.now mark }
{
    places.get(mark as usize).copied()
}

// Appends a place.
fn put_place(line: &mut Line, at: Option<Pos>)
    requires { length line.old ≤ 32 }
    ensures text { line.new ≡ line.old ++ place_text at }
    ensures short { length line.new ≤ length line.old + 42 }
{
    if let Some(at) = at {
        put_number(line, b" ", u64::from(at.line));
        put_number(line, b":", u64::from(at.column));
    }
}

// Appends the mark of a mitigate and its place.
fn put_mark(line: &mut Line, places: &[Pos], mark: u32)
    requires { length line.old ≤ 10 }
    ensures text { line.new ≡ line.old ++ mark_text places.now mark }
    ensures short { length line.new ≤ 80 }
{
    put_number(line, b" #", u64::from(mark));
    put_place(line, place_of(places, mark));
}

/// What the lines of a beginning and of an end begin with: a word, the mark, the place and the level.
pub fn head_line(p: &Labelled, places: &[Pos], word: &[u8], mark: u32) -> Line
    requires { length word.now ≤ 10 }
    ensures { result ≡ head_text p.now places.now word.now mark }
{
    let mut line = Line::new();
    line.put_text(word);
    put_mark(&mut line, places, mark);
    if mark < p.program().mitigates() {
        let name = p.program().lattice().name(p.level(mark));
        line.put_text(b" level ");
        line.put_text(name.bytes());
    }
    line
}

/// The rest of the line of a beginning.
pub fn begin_line(estimate: i64, predicts: u128, misses: u32, cycle: u64) -> Line
    ensures { result ≡ begin_text estimate predicts misses cycle }
{
    let mut line = Line::new();
    put_value(&mut line, b" estimate ", estimate);
    put_wide(&mut line, b" predicts ", predicts);
    put_number(&mut line, b" misses ", u64::from(misses));
    put_cycle(&mut line, cycle);
    line
}

/// The rest of the line of an end.
pub fn end_line(worked: u64, lasts: u64, before: u32, after: u32, cycle: u64) -> Line
    ensures { result ≡ end_text worked lasts before after cycle }
{
    let mut line = Line::new();
    put_number(&mut line, b" worked ", worked);
    put_number(&mut line, b" lasts ", lasts);
    put_number(&mut line, b" misses ", u64::from(before));
    put_number(&mut line, b" to ", u64::from(after));
    put_cycle(&mut line, cycle);
    line
}

/// The line of an assignment.
pub fn event_line(p: &Program, variable: u32, value: i64, cycle: u64) -> Line
    requires { variable < variables p.now.declarations }
    ensures { result ≡ event_line p.now.declarations variable value cycle }
{
    let mut line = Line::new();
    put_cell(&mut line, p, variable);
    put_value(&mut line, b" = ", value);
    put_cycle(&mut line, cycle);
    line
}

/// The last line of a run.
pub fn last_line(end: RunEnd) -> Line
    ensures { result ≡ last_line end }
{
    let mut line = Line::new();
    match end {
        RunEnd::Halted(cycle) => {
            line.put_text(b"end");
            put_cycle(&mut line, cycle);
        }
        RunEnd::Limit(cycle) => {
            line.put_text(b"limit");
            put_cycle(&mut line, cycle);
        }
    }
    line
}

/// What the line of a mitigate in the summary begins with: how many ended.
pub fn mitigate_line(places: &[Pos], mark: u32, ended: u64) -> Line
    ensures { result ≡ mitigate_text places.now mark ended }
{
    let mut line = Line::new();
    line.put_text(b"mitigate");
    put_mark(&mut line, places, mark);
    put_number(&mut line, b" ended ", ended);
    line
}

/// The rest of that line.
pub fn tally_line(t: Tally) -> Line
    ensures { result ≡ tally_text t }
{
    let mut line = Line::new();
    put_number(&mut line, b" shortest ", t.shortest);
    put_number(&mut line, b" longest ", t.longest);
    put_number(&mut line, b" missed ", t.missed);
    put_wide(&mut line, b" least ", t.least());
    line.put_text(b"\n");
    line
}
