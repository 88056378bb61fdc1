use crate::line::Line;
use crate::text::{put_repeated, put_text};
use anyhow::{Context, Result, bail};
use lab_tool::lab_main;
use mit_tool::mitigate_main;
use std::alloc::{AllocError, Global};
use tim_base::shelf::MemShelf;
use tim_base::sink::MemSink;

// The room of a sink where a row names none.
const ROOM: usize = 1_048_576;

const USAGE: &[u8] = b"usage: mitigate check FILE
       mitigate infer FILE
       mitigate compile FILE
       mitigate run FILE [STARTS] [--env flat|part|part2] [--budget T] [--observer L]
       mitigate meaning FILE [STARTS] --steps N
       mitigate audit FILE STARTS --observer L [--env flat|part|part2] [--budget T]
       mitigate gen SIZE NUMBER
       mitigate cut FILE STARTS --observer L [--env flat|part|part2] [--budget T]
       mitigate blackbox READY --first Q [--budget T]
       mitigate certify FILE
       mitigate recheck FILE CERTIFICATE
";

const LAB_USAGE: &[u8] = b"usage: lab why FILE [STARTS] [--of NAME]
       lab seen FILE STARTS --observer L [--env flat|part|part2] [--machine M] [--budget T] [--refused]
       lab timeline FILE STARTS [--env flat|part|part2] [--machine M] [--budget T] [--observer L] [--refused]
       lab bound FILE STARTS --observer L [--env flat|part|part2] [--machine M] [--budget T]
       lab steady FILE --observer L [--parts P] [--constant NAMES] [--whole]
       lab leak FILE STARTS --observer L [--env flat|part|part2] [--machine M] [--budget T] [--refused]
       lab tune FILE STARTS --observer L [--env flat|part|part2] [--machine M] [--budget T] [--of #K] [--bits B]
       lab check FILE --json
       lab help [COMMAND]
       lab version
";

// The usage text of the program that is called.
fn usage_of(lab: bool) -> &'static [u8] {
    if lab { LAB_USAGE } else { USAGE }
}

// A file in memory.
#[derive(Drop)]
struct NamedFile {
    name: String,
    bytes: Vec<u8>,
}

// A call over files in memory, and what is wanted of it.
#[derive(Drop)]
pub(crate) struct Row {
    shows: String,

    // Whether the call is one of the lab, and not of the tool.
    lab: bool,
    words: Vec<String>,
    files: Vec<NamedFile>,

    // The numbers of the read and of the write that fail, 0 for none.
    fetch_fails: u32,
    write_fails: u32,

    // How many bytes may be written.
    room: usize,

    // Whether the wanted text is only the end of what is written.
    end_alone: bool,
    wanted: Vec<u8>,
    status: u8,
}

impl Row {
    // A row without words and files, of which no text and status 0 are wanted.
    pub(crate) fn new(alloc: Global, shows: &str) -> Result<Row, AllocError> {
        Ok(Row {
            shows: String::from_str(alloc, shows)?,
            lab: false,
            words: Vec::new(alloc),
            files: Vec::new(alloc),
            fetch_fails: 0,
            write_fails: 0,
            room: ROOM,
            end_alone: false,
            wanted: Vec::new(alloc),
            status: 0,
        })
    }

    pub(crate) fn shows(&self) -> &str {
        self.shows.as_str()
    }

    // Takes up a line of the row.
    pub(crate) fn read(&mut self, alloc: Global, line: &str) -> Result<()> {
        match Line::read(line)? {
            Line::Lab => self.lab = true,
            Line::Words(words) => self.put_words(alloc, words)?,
            Line::File(name) => self.files.push(NamedFile {
                name: String::from_str(alloc, name)?,
                bytes: Vec::new(alloc),
            })?,
            Line::Content(text) => put_text(self.last_file()?, text)?,
            Line::Repeated { first, end, unit } => {
                put_repeated(alloc, self.last_file()?, unit, first, end)?;
            }
            Line::Wanted(text) => put_text(&mut self.wanted, text)?,
            Line::Usage => {
                let usage = usage_of(self.lab);
                self.wanted.extend_from_slice(usage)?;
                self.status = 4;
            }
            Line::EndAlone => self.end_alone = true,
            Line::Status(status) => self.status = status,
            Line::ReadFails(call) => self.fetch_fails = call,
            Line::WriteFails(call) => self.write_fails = call,
            Line::Room(room) => self.room = room,
            Line::Nothing => (),
        }
        Ok(())
    }

    fn put_words(&mut self, alloc: Global, words: &str) -> Result<(), AllocError> {
        for word in words.split_whitespace() {
            self.words.push(String::from_str(alloc, word)?)?;
        }
        Ok(())
    }

    fn last_file(&mut self) -> Result<&mut Vec<u8>> {
        match self.files.last_mut() {
            Some(file) => Ok(&mut file.bytes),
            None => bail!("a content without a file"),
        }
    }

    // The status and the text of the call.
    pub(crate) fn answer(&self, alloc: Global) -> Result<(u8, MemSink), AllocError> {
        let mut shelf = MemShelf::new(alloc);
        for file in &self.files {
            shelf
                .put(file.name.as_str(), file.bytes.as_slice())
                .map_err(|_| AllocError)?;
        }
        shelf.fail_at(self.fetch_fails).map_err(|_| AllocError)?;
        let mut sink = MemSink::new_with_room(alloc, self.room).map_err(|_| AllocError)?;
        sink.fail_at(self.write_fails).map_err(|_| AllocError)?;
        let words = self.words.as_slice();
        let status = if self.lab {
            lab_main(alloc, words, &mut shelf, &mut sink)
        } else {
            mitigate_main(alloc, words, &mut shelf, &mut sink)
        };
        Ok((status.number(), sink))
    }

    // Whether a status and a text are what is wanted.
    pub(crate) fn is_answered(&self, status: u8, text: &[u8]) -> bool {
        let fits = if self.end_alone {
            text.ends_with(self.wanted.as_slice())
        } else {
            text == self.wanted.as_slice()
        };
        fits && status == self.status
    }
}
