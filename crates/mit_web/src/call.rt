//! The calls that a page makes.

ghost use Rattle.std.specs.Prelude.{◌≡◌, ◌≤◌, ℕ, IfOk, IfErr, List, Option, drop, length, map, string_bytes};
ghost use Rattle.tim_base.specs.Shelves.{bytes_at};
ghost use Rattle.mit_web.specs.declared.given.GivenFault.TheVariants.{Memory, BadCall};
ghost use Rattle.mit_web.specs.Calls.{AreRows, EndsCall, IsAnswerOf, Shows, held_by, pieces};

use crate::given::{GivenFault, files, texts};
use lab_tool::lab_main;
use mit_tool::mitigate_main;
use std::alloc::Global;
use tim_base::shelf::MemShelf;
use tim_base::sink::MemSink;

/// The status where words, names or files cannot be stored, as the tool's own.
pub const NO_MEMORY: u32 = 11;

/// The status where words or names are not UTF-8, or the lengths say more than the bytes hold.
pub const BAD_CALL: u32 = 13;

/// How a call ended.
#[repr(C)]
#[derive(Clone, Copy)]
pub struct Ended {
    /// The exit number.
    pub status: u32,

    /// How many bytes of the text stand in the room that was given.
    pub length: usize,
}

/// A program that a call asks.
#[derive(Clone, Copy, Debug, PartialEq, Eq)]
pub enum Program {
    /// The tool `mitigate`.
    Tool,

    /// The lab.
    Lab,
}

// Asks the tool, with room for so many bytes of text.
fn ask_tool(
    alloc: Global,
    words: &[String],
    shelf: &mut MemShelf,
    room: usize,
) -> Result<(u32, MemSink), GivenFault>
    ensures answer { IfOk result (λ r. (held : List ℕ → Option (List ℕ)) → ((name : List ℕ) → bytes_at shelf.old name ≡ held name)
        → IsAnswerOf Program.Tool (map string_bytes words.now) held r.0 r.1.bytes) }
    ensures memory { IfErr result (λ e. e ≡ Memory) }
{
    let Ok(mut sink) = MemSink::new_with_room(alloc, room) else {
        return Err(GivenFault::Memory);
    };
    let status = mitigate_main(alloc, words, shelf, &mut sink);
    Ok((u32::from(status.number()), sink))
}

// Asks the lab, with room for so many bytes of text.
fn ask_lab(
    alloc: Global,
    words: &[String],
    shelf: &mut MemShelf,
    room: usize,
) -> Result<(u32, MemSink), GivenFault>
    ensures answer { IfOk result (λ r. (held : List ℕ → Option (List ℕ)) → ((name : List ℕ) → bytes_at shelf.old name ≡ held name)
        → IsAnswerOf Program.Lab (map string_bytes words.now) held r.0 r.1.bytes) }
    ensures memory { IfErr result (λ e. e ≡ Memory) }
{
    let Ok(mut sink) = MemSink::new_with_room(alloc, room) else {
        return Err(GivenFault::Memory);
    };
    let status = lab_main(alloc, words, shelf, &mut sink);
    Ok((u32::from(status.number()), sink))
}

// Asks a program, with room for so many bytes of text.
fn ask(
    alloc: Global,
    program: Program,
    words: &[String],
    shelf: &mut MemShelf,
    room: usize,
) -> Result<(u32, MemSink), GivenFault>
    ensures answer { IfOk result (λ r. (held : List ℕ → Option (List ℕ)) → ((name : List ℕ) → bytes_at shelf.old name ≡ held name)
        → IsAnswerOf program (map string_bytes words.now) held r.0 r.1.bytes) }
    ensures memory { IfErr result (λ e. e ≡ Memory) }
{
    match program {
        Program::Tool => ask_tool(alloc, words, shelf, room),
        Program::Lab => ask_lab(alloc, words, shelf, room),
    }
}

// Asks a program what stands in rows.
fn ask_rows(
    alloc: Global,
    program: Program,
    word_lengths: &[u64],
    words: &[u8],
    name_lengths: &[u64],
    names: &[u8],
    file_lengths: &[u64],
    contents: &[u8],
    room: usize,
) -> Result<(u32, MemSink), GivenFault>
    ensures answer { IfOk result (λ r. IsAnswerOf program (pieces word_lengths.now words.now)
        (held_by (pieces name_lengths.now names.now) (pieces file_lengths.now contents.now)) r.0 r.1.bytes) }
    ensures fit { IfOk result (λ r. AreRows word_lengths.now words.now name_lengths.now names.now file_lengths.now contents.now) }
    ensures bad { IfErr result (λ e. e ≡ BadCall → AreRows word_lengths.now words.now name_lengths.now names.now file_lengths.now contents.now → ⊥) }
{
    let words = texts(alloc, word_lengths, words)?;
    let names = texts(alloc, name_lengths, names)?;
    let mut shelf = files(alloc, names.as_slice(), file_lengths, contents)?;
    ask(alloc, program, words.as_slice(), &mut shelf, room)
}

// Puts a text into the room, as far as it goes there, and tells how many bytes it has there.
fn hand_out(text: &[u8], out: &mut [u8]) -> usize
    ensures shown { Shows (length out.old) out.new result text.now }
    ensures fits { result ≤ length out.new }
    ensures room { length out.new ≡ length out.old }
    ensures rest { drop result out.new ≡ drop result out.old }
{
    let count = text.len().min(out.len());
    out[..count].copy_from_slice(&text[..count]);
    count
}

// Makes a call, and tells how it ended.
fn call(
    alloc: Global,
    program: Program,
    word_lengths: &[u64],
    words: &[u8],
    name_lengths: &[u64],
    names: &[u8],
    file_lengths: &[u64],
    contents: &[u8],
    out: &mut [u8],
    ended: &mut Ended,
)
    ensures told { EndsCall program word_lengths.now words.now name_lengths.now names.now file_lengths.now contents.now
        (length out.old) out.new ended.new.status ended.new.length }
    ensures fits { ended.new.length ≤ length out.new }
    ensures room { length out.new ≡ length out.old }
    ensures rest { drop ended.new.length out.new ≡ drop ended.new.length out.old }
{
    let room = out.len();
    let answer = ask_rows(
        alloc,
        program,
        word_lengths,
        words,
        name_lengths,
        names,
        file_lengths,
        contents,
        room,
    );
    let (status, length) = match answer {
        Ok((status, sink)) => (status, hand_out(sink.bytes(), out)),
        Err(GivenFault::Memory) => (NO_MEMORY, 0),
        Err(GivenFault::BadCall) => (BAD_CALL, 0),
    };
    *ended = Ended { status, length };
}

/// Does what words ask of the tool, over files in memory. Words, names of files and what the files hold stand in a row of
/// bytes each, and the lengths say how many bytes each word, name and file has. The text is written to `out`, as far
/// as it goes there; the bytes after it stay.
///
/// The status is 13 only where words or names are not UTF-8, or the lengths say more than the bytes hold, and a call of
/// which that is so gets it, or 11 where memory was wanting; no text is written then.
#[unsafe(no_mangle)]
pub extern "C" fn mit_web_call(
    alloc: Global,
    word_lengths: &[u64],
    words: &[u8],
    name_lengths: &[u64],
    names: &[u8],
    file_lengths: &[u64],
    contents: &[u8],
    out: &mut [u8],
    ended: &mut Ended,
)
    ensures told { EndsCall Program.Tool word_lengths.now words.now name_lengths.now names.now file_lengths.now contents.now
        (length out.old) out.new ended.new.status ended.new.length }
    ensures fits { ended.new.length ≤ length out.new }
    ensures room { length out.new ≡ length out.old }
    ensures rest { drop ended.new.length out.new ≡ drop ended.new.length out.old }
{
    call(
        alloc,
        Program::Tool,
        word_lengths,
        words,
        name_lengths,
        names,
        file_lengths,
        contents,
        out,
        ended,
    );
}

/// Answers what words ask of the lab, as `mit_web_call` does what they ask of the tool.
#[unsafe(no_mangle)]
pub extern "C" fn lab_web_call(
    alloc: Global,
    word_lengths: &[u64],
    words: &[u8],
    name_lengths: &[u64],
    names: &[u8],
    file_lengths: &[u64],
    contents: &[u8],
    out: &mut [u8],
    ended: &mut Ended,
)
    ensures told { EndsCall Program.Lab word_lengths.now words.now name_lengths.now names.now file_lengths.now contents.now
        (length out.old) out.new ended.new.status ended.new.length }
    ensures fits { ended.new.length ≤ length out.new }
    ensures room { length out.new ≡ length out.old }
    ensures rest { drop ended.new.length out.new ≡ drop ended.new.length out.old }
{
    call(
        alloc,
        Program::Lab,
        word_lengths,
        words,
        name_lengths,
        names,
        file_lengths,
        contents,
        out,
        ended,
    );
}
