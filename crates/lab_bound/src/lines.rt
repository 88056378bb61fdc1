//! The lines of `bound`.

ghost use Rattle.std.specs.Prelude.{◌≡◌, ◌≤◌, ◌<◌, ◌+◌, ◌++◌, [], length, codes, decimal, cond, OnOk};
ghost use Rattle.label_lattice.specs.Order.{lattice_of};
ghost use Rattle.lab_bound.specs.Text.{level_line, level_lines, firsts_text, number_text, shared_line, own_line, SharpPut};

use label_lattice::label::Label;
use label_lattice::lattice::Lattice;
use seen_line::cells::{put_number, put_wide};
use sharp_count::bits::bits;
use sharp_count::count::{LevelRuns, miss_counts};
use std::alloc::AllocError;
use tim_base::line::Line;

// Appends the first prediction and the digits of a level of which mitigations are begun.
fn put_firsts(line: &mut Line, t: u64, told: LevelRuns)
    requires { length line.old ≤ 76 }
    ensures text { line.new ≡ line.old ++ firsts_text t told }
    ensures short { length line.new ≤ 159 }
{
    if told.mitigations == 0 {
        return;
    }
    put_number(line, b" first ", told.first);
    put_number(line, b" digits ", u64::from(miss_counts(t, told.first)));
}

// The line of a level.
fn level(order: &Lattice, t: u64, l: Label, told: LevelRuns) -> Line
    requires { l.number < order.now.size }
    ensures { result ≡ level_line order.now t l.number told }
{
    let name = order.name(l);
    let mut line = Line::new();
    line.put_text(b"level ");
    line.put_text(name.bytes());
    put_number(&mut line, b" mitigations ", told.mitigations);
    put_firsts(&mut line, t, told);
    line.put_text(b"\n");
    line
}

// Appends a line.
fn put(text: &mut Vec<u8>, line: &Line) -> Result<(), AllocError>
    ensures { OnOk result (text.new.items ≡ text.old.items ++ line.now) }
{
    text.extend_from_slice(line.bytes())
}

// Appends some words, a number of up to 128 bits and more words.
fn put_count(text: &mut Vec<u8>, words: &[u8], n: u128, after: &[u8]) -> Result<(), AllocError>
    requires words { length words.now ≤ 40 }
    requires after { length after.now ≤ 40 }
    ensures { OnOk result (text.new.items ≡ text.old.items ++ (number_text words.now n ++ after.now)) }
{
    let mut line = Line::new();
    put_wide(&mut line, words, n);
    line.put_text(after);
    put(text, &line)
}

// Appends the line of a level, unless it flows to the observer.
fn put_level(
    text: &mut Vec<u8>,
    order: &Lattice,
    observer: Label,
    t: u64,
    l: Label,
    told: LevelRuns,
) -> Result<(), AllocError>
    requires { l.number < order.now.size }
    ensures { OnOk result (text.new.items ≡ text.old.items ++ cond ((lattice_of order.now).flows l.number observer.number) []
        (level_line order.now t l.number told)) }
{
    if order.flows(l, observer) {
        return Ok(());
    }
    put(text, &level(order, t, l, told))
}

/// Appends the line of each level that does not flow to the observer: what is told of the levels, by their numbers, and
/// the budget in cycles.
///
/// # Errors
/// `AllocError` where memory runs out.
pub fn put_levels(
    text: &mut Vec<u8>,
    order: &Lattice,
    observer: Label,
    t: u64,
    levels: &[LevelRuns],
) -> Result<(), AllocError>
    requires { length levels.now ≡ order.now.size }
    ensures { OnOk result (text.new.items ≡ text.old.items ++ level_lines order.now observer.number t 0 levels.now) }
{
    order.laws();
    for (number, told) in levels.iter().enumerate() {
        put_level(text, order, observer, t, Label::new(number as u8), *told)?;
    }
    Ok(())
}

/// Appends the lines of a sharp count, which may be too large to be told.
///
/// # Errors
/// `AllocError` where memory runs out.
pub fn put_sharp(text: &mut Vec<u8>, count: Option<u128>) -> Result<(), AllocError>
    ensures { OnOk result (SharpPut count text.old.items text.new.items) }
{
    let Some(count) = count else {
        return text.extend_from_slice(
            b"sharp 2^128 or more\nbits 128 or more\nguess no limit told\n",
        );
    };
    put_count(text, b"sharp ", count, b"\n")?;
    put_count(text, b"bits ", u128::from(bits(count)), b"\n")?;
    put_count(text, b"guess at most ", count, b" times as often\n")?;
    Ok(())
}

/// Appends the line of a count by shared time, which may be too large to be told.
///
/// # Errors
/// `AllocError` where memory runs out.
pub fn put_shared_line(text: &mut Vec<u8>, count: Option<u128>) -> Result<(), AllocError>
    ensures { OnOk result (text.new.items ≡ text.old.items ++ shared_line count) }
{
    let Some(count) = count else {
        return text.extend_from_slice(b"shared 2^128 or more\n");
    };
    put_count(text, b"shared ", count, b"\n")
}

/// Appends the line of a count by own first predictions, which may be too large to be told.
///
/// # Errors
/// `AllocError` where memory runs out.
pub fn put_own_line(text: &mut Vec<u8>, count: Option<u128>) -> Result<(), AllocError>
    ensures { OnOk result (text.new.items ≡ text.old.items ++ own_line count) }
{
    let Some(count) = count else {
        return text.extend_from_slice(b"own 2^128 or more\n");
    };
    put_count(text, b"own ", count, b"\n")
}
