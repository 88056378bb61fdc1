//! The items that tell a chain.

ghost use Rattle.std.specs.Prelude.{◌≡◌, ◌++◌, OnOk, codes};
ghost use Rattle.flow_print.specs.Lines.{line, bound, side_line, place_text, reads_line, reader_line, label_line, time_line, counts_line};
ghost use Rattle.flow_print.specs.Places.{next_place, declared_place};
ghost use Rattle.json_text.specs.Json.{json_text, item, items_text, list, object, member, no_members, string};
ghost use Rattle.found_print.specs.Members.{but_feed};
ghost use Rattle.found_print.specs.Chains.{behind_blank, line_json, placed_item, part_items, step_items, steps_items, declared_item};
ghost use Rattle.found_print.specs.Chains.{first_items, chain_items};
ghost use Rattle.found_print.specs.Puts.{PutsItems};

use crate::members::{but_feed, put_places};
use flow_path::step::{How, Spot, Step};
use flow_print::lines::{
    put_counts, put_line_at, put_read_label, put_reader, put_reads, put_side, put_time,
};
use flow_print::places::Spelling;
use flow_print::words::{bound, put_line, spot_text, written_text};
use json_text::put::{put_first_bare, put_first_key, put_key, put_string};
use mit_syntax::program::Program;
use std::alloc::{AllocError, Global};
use text_base::pos::Pos;

// Behind the first blank.
fn behind_blank(words: &[u8]) -> &[u8]
    ensures { result.now ≡ behind_blank words.now }
{
    for (i, b) in words.iter().enumerate() {
        if *b == b' ' {
            return &words[i + 1..];
        }
    }
    &words[words.len()..]
}

// Puts a line at a place, where a token begins.
fn put_json(
    out: &mut Vec<u8>,
    spelling: &Spelling,
    pos: Pos,
    words: &[u8],
) -> Result<(), AllocError>
    ensures { OnOk result (out.new.items ≡ out.old.items ++ json_text (line_json spelling.now.text.now spelling.now.tokens.now pos words.now)) }
{
    put_first_key(out, b"place")?;
    put_places(out, pos, spelling.spelled_at(pos).len())?;
    put_key(out, b"text")?;
    put_string(out, but_feed(words))?;
    out.extend_from_slice(b"}")?;
    Ok(())
}

// Puts an item of such a line.
fn put_item(
    out: &mut Vec<u8>,
    spelling: &Spelling,
    pos: Pos,
    words: &[u8],
) -> Result<(), AllocError>
    ensures { OnOk result (PutsItems out.old.items out.new.items
        (λ more. item (line_json spelling.now.text.now spelling.now.tokens.now pos words.now) more)) }
{
    out.extend_from_slice(b",")?;
    put_json(out, spelling, pos, words)?;
    Ok(())
}

// Puts an item of a line that begins with its place.
fn put_placed(
    out: &mut Vec<u8>,
    spelling: &Spelling,
    pos: Pos,
    words: &[u8],
) -> Result<(), AllocError>
    ensures { OnOk result (PutsItems out.old.items out.new.items
        (placed_item spelling.now.text.now spelling.now.tokens.now pos words.now)) }
{
    put_item(out, spelling, pos, behind_blank(words))
}

// Puts where a command reads a variable.
fn put_read(
    alloc: Global,
    out: &mut Vec<u8>,
    spelling: &Spelling,
    q: Pos,
    words: &[u8],
    name: &[u8],
) -> Result<(), AllocError>
    ensures { OnOk result (PutsItems out.old.items out.new.items (placed_item spelling.now.text.now spelling.now.tokens.now
        (next_place spelling.now.text.now spelling.now.tokens.now q name.now)
        (reads_line spelling.now.text.now spelling.now.tokens.now q words.now name.now))) }
{
    let mut line = Vec::new(alloc);
    put_reads(&mut line, spelling, q, words, name)?;
    put_placed(out, spelling, spelling.next_place(q, name), line.as_slice())
}

// Puts what a command reads before another one.
fn put_before(
    alloc: Global,
    out: &mut Vec<u8>,
    spelling: &Spelling,
    q: Pos,
    name: &[u8],
) -> Result<(), AllocError>
    ensures { OnOk result (PutsItems out.old.items out.new.items (placed_item spelling.now.text.now spelling.now.tokens.now
        (next_place spelling.now.text.now spelling.now.tokens.now q name.now)
        (reader_line spelling.now.text.now spelling.now.tokens.now q name.now))) }
{
    let mut line = Vec::new(alloc);
    put_reader(&mut line, spelling, q, name)?;
    put_placed(out, spelling, spelling.next_place(q, name), line.as_slice())
}

// Puts the read label of a command.
fn put_label_there(
    alloc: Global,
    out: &mut Vec<u8>,
    spelling: &Spelling,
    q: Pos,
    name: &[u8],
) -> Result<(), AllocError>
    ensures { OnOk result (PutsItems out.old.items out.new.items (placed_item spelling.now.text.now spelling.now.tokens.now q
        (label_line spelling.now.tokens.now q name.now))) }
{
    let mut line = Vec::new(alloc);
    put_read_label(&mut line, spelling, q, name)?;
    put_placed(out, spelling, q, line.as_slice())
}

// Puts how long a command takes.
fn put_time_there(
    alloc: Global,
    out: &mut Vec<u8>,
    spelling: &Spelling,
    q: Pos,
    first: &[u8],
) -> Result<(), AllocError>
    ensures { OnOk result (PutsItems out.old.items out.new.items (placed_item spelling.now.text.now spelling.now.tokens.now q
        (time_line spelling.now.tokens.now q first.now))) }
{
    let mut line = Vec::new(alloc);
    put_time(&mut line, spelling, q, first)?;
    put_placed(out, spelling, q, line.as_slice())
}

// Puts how long an assignment takes.
fn put_counts_there(
    alloc: Global,
    out: &mut Vec<u8>,
    spelling: &Spelling,
    q: Pos,
    first: &[u8],
) -> Result<(), AllocError>
    ensures { OnOk result (PutsItems out.old.items out.new.items (placed_item spelling.now.text.now spelling.now.tokens.now q
        (counts_line q first.now))) }
{
    let mut line = Vec::new(alloc);
    put_counts(&mut line, q, first)?;
    put_placed(out, spelling, q, line.as_slice())
}

// Puts other words on a command.
fn put_words_there(
    alloc: Global,
    out: &mut Vec<u8>,
    spelling: &Spelling,
    q: Pos,
    words: &[u8],
    last: &[u8],
) -> Result<(), AllocError>
    ensures { OnOk result (PutsItems out.old.items out.new.items (placed_item spelling.now.text.now spelling.now.tokens.now q
        (place_text q ++ line words.now last.now))) }
{
    let mut line = Vec::new(alloc);
    put_line_at(&mut line, q, words, last)?;
    put_placed(out, spelling, q, line.as_slice())
}

// Puts how a part comes into the left side.
fn put_part(
    alloc: Global,
    out: &mut Vec<u8>,
    spelling: &Spelling,
    how: How,
    q: Pos,
    name: &[u8],
    first: &[u8],
) -> Result<(), AllocError>
    ensures { OnOk result (PutsItems out.old.items out.new.items
        (part_items spelling.now.text.now spelling.now.tokens.now how q name.now first.now)) }
{
    match how {
        How::Reads => put_read(alloc, out, spelling, q, b"this value reads ", name),
        How::ReadsInIndex => put_read(alloc, out, spelling, q, b"this index reads ", name),
        How::HasReadLabel => put_label_there(alloc, out, spelling, q, name),
        How::UnderGuard => put_read(alloc, out, spelling, q, b"this guard reads ", name),
        How::AfterReading => {
            put_before(alloc, out, spelling, q, name)?;
            put_time_there(alloc, out, spelling, q, first)?;
            Ok(())
        }
        How::AfterComputing => {
            put_before(alloc, out, spelling, q, name)?;
            put_counts_there(alloc, out, spelling, q, first)?;
            Ok(())
        }
        How::AfterReadLabel => {
            put_label_there(alloc, out, spelling, q, name)?;
            put_time_there(alloc, out, spelling, q, first)?;
            Ok(())
        }
        How::AfterAssigning => {
            put_words_there(alloc, out, spelling, q, b"this assigns to ", name)?;
            put_words_there(alloc, out, spelling, q, b"so when it is done is ", first)?;
            Ok(())
        }
    }
}

// Puts the right side of a step.
fn put_right(
    alloc: Global,
    out: &mut Vec<u8>,
    spelling: &Spelling,
    p: &Program,
    step: &Step,
    first: &[u8],
) -> Result<(), AllocError>
    ensures { OnOk result (PutsItems out.old.items out.new.items (λ more. item (line_json spelling.now.text.now spelling.now.tokens.now step.now.pos
        (side_line spelling.now.tokens.now p.now step.now.pos step.now.side (bound step.now.part.how) first.now)) more)) }
{
    let mut line = Vec::new(alloc);
    let bound = bound(step.part.how);
    put_side(&mut line, spelling, p, step.pos, &step.side, bound, first)?;
    put_item(out, spelling, step.pos, line.as_slice())
}

// Puts the items of a step.
fn put_step(
    alloc: Global,
    out: &mut Vec<u8>,
    spelling: &Spelling,
    p: &Program,
    step: &Step,
    first: &[u8],
) -> Result<(), AllocError>
    ensures { OnOk result (PutsItems out.old.items out.new.items
        (step_items spelling.now.text.now spelling.now.tokens.now p.now step.now first.now)) }
{
    let name = spot_text(alloc, p, &step.part.spot)?;
    let (how, q) = (step.part.how, step.part.pos);
    put_part(alloc, out, spelling, how, q, &name, first)?;
    put_right(alloc, out, spelling, p, step, first)?;
    Ok(())
}

fn put_steps(
    alloc: Global,
    out: &mut Vec<u8>,
    spelling: &Spelling,
    p: &Program,
    chain: &[Step],
    first: &[u8],
) -> Result<(), AllocError>
    ensures { OnOk result (out.new.items ≡ out.old.items
        ++ items_text (steps_items spelling.now.text.now spelling.now.tokens.now p.now chain.now first.now)) }
{
    for step in chain {
        put_step(alloc, out, spelling, p, step, first)?;
    }
    Ok(())
}

// Puts a line without a place.
fn put_unplaced(out: &mut Vec<u8>, words: &[u8]) -> Result<(), AllocError>
    ensures { OnOk result (PutsItems out.old.items out.new.items
        (λ more. item (object (member (codes "text") (string (but_feed words.now)) no_members)) more)) }
{
    out.extend_from_slice(b",")?;
    put_first_key(out, b"text")?;
    put_string(out, but_feed(words))?;
    out.extend_from_slice(b"}")?;
    Ok(())
}

fn put_declared(
    out: &mut Vec<u8>,
    spelling: &Spelling,
    place: Option<Pos>,
    words: &[u8],
) -> Result<(), AllocError>
    ensures { OnOk result (PutsItems out.old.items out.new.items
        (declared_item spelling.now.text.now spelling.now.tokens.now place words.now)) }
{
    match place {
        Some(pos) => put_item(out, spelling, pos, words),
        None => put_unplaced(out, words),
    }
}

// Puts that a variable is declared with a label.
fn put_variable(
    alloc: Global,
    out: &mut Vec<u8>,
    spelling: &Spelling,
    name: &[u8],
    first: &[u8],
) -> Result<(), AllocError>
    ensures { OnOk result (PutsItems out.old.items out.new.items (declared_item spelling.now.text.now spelling.now.tokens.now
        (declared_place spelling.now.text.now spelling.now.tokens.now name.now) (name.now ++ line (codes " is declared ") first.now))) }
{
    let mut words = Vec::new(alloc);
    words.extend_from_slice(name)?;
    put_line(&mut words, b" is declared ", first)?;
    put_declared(
        out,
        spelling,
        spelling.declared_place(name),
        words.as_slice(),
    )
}

// Puts where a chain begins.
fn put_first(
    alloc: Global,
    out: &mut Vec<u8>,
    spelling: &Spelling,
    spot: &Spot,
    name: &[u8],
    first: &[u8],
) -> Result<(), AllocError>
    ensures { OnOk result (PutsItems out.old.items out.new.items
        (first_items spelling.now.text.now spelling.now.tokens.now spot.now name.now first.now)) }
{
    match spot {
        Spot::Variable(_) => put_variable(alloc, out, spelling, name, first),
        Spot::Command(_) => Ok(()),
        Spot::Level(_, _) => Ok(()),
    }
}

fn put_chain(
    alloc: Global,
    out: &mut Vec<u8>,
    spelling: &Spelling,
    p: &Program,
    chain: &[Step],
) -> Result<(), AllocError>
    ensures { OnOk result (out.new.items ≡ out.old.items
        ++ items_text (chain_items spelling.now.text.now spelling.now.tokens.now p.now chain.now)) }
{
    match chain {
        [] => Ok(()),
        [begin, ..] => {
            let name = spot_text(alloc, p, &begin.part.spot)?;
            let first = written_text(alloc, p, &begin.part.spot)?;
            put_first(alloc, out, spelling, &begin.part.spot, &name, &first)?;
            put_steps(alloc, out, spelling, p, chain, &first)?;
            Ok(())
        }
    }
}

/// Puts the list of the items that tell a chain.
pub(crate) fn put_list(
    alloc: Global,
    out: &mut Vec<u8>,
    spelling: &Spelling,
    p: &Program,
    chain: &[Step],
) -> Result<(), AllocError>
    ensures { OnOk result (out.new.items ≡ out.old.items
        ++ json_text (list (chain_items spelling.now.text.now spelling.now.tokens.now p.now chain.now))) }
{
    let mut items = Vec::new(alloc);
    put_chain(alloc, &mut items, spelling, p, chain)?;
    out.extend_from_slice(b"[")?;
    put_first_bare(out, items.as_slice())?;
    out.extend_from_slice(b"]")?;
    Ok(())
}
