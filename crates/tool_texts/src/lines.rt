//! The lines that commands write.

ghost use Rattle.std.specs.Prelude.{◌≡◌, ◌+◌, ◌≤◌, ◌++◌, length, decimal, codes};
ghost use Rattle.label_lattice.specs.Order.{name_of};
ghost use Rattle.mit_syntax.specs.Cut.{AreTokens};
ghost use Rattle.tool_texts.specs.Texts.{header_name, memory_line, number_line, pos_text, at_line, text_fault_line};
ghost use Rattle.tool_texts.specs.Texts.{labels_line, lattice_fault_line, parse_fault_line, refused_line, run_line};
ghost use Rattle.tool_texts.specs.Texts.{start_fault_line, counted_line, accepted_line, rechecked_line, rejected_line};

pub mod report;
pub mod steps;

use crate::header::header_name;
use label_lattice::fault::LatticeFault;
use label_lattice::label::Label;
use label_lattice::lattice::Lattice;
use mit_parser::fault::ParseFault;
use mit_syntax::fault::TextFault;
use mit_syntax::token::Token;
use start_file::fault::StartFault;
use text_base::pos::Pos;
use tim_base::line::Line;
use timing_types::rule::Rule;

// Appends bytes.
fn put(line: &mut Line, text: &[u8])
    requires { length line.old + length text.now ≤ 160 }
    ensures text { line.new ≡ line.old ++ text.now }
    ensures size { length line.new ≡ length line.old + length text.now }
{
    line.put_text(text);
}

// Appends a number of at most 20 digits.
fn put_number(line: &mut Line, n: u64)
    requires { length line.old ≤ 140 }
    ensures text { line.new ≡ line.old ++ decimal n }
    ensures size { length line.new ≤ length line.old + 20 }
{
    line.put_unsigned(n);
}

// Appends a position of at most 41 bytes.
fn put_pos(line: &mut Line, pos: Pos)
    requires { length line.old ≤ 119 }
    ensures text { line.new ≡ line.old ++ pos_text pos }
    ensures size { length line.new ≤ length line.old + 41 }
{
    put_number(line, u64::from(pos.line));
    put(line, b":");
    put_number(line, u64::from(pos.column));
}

// Appends the name of a label, of at most 32 bytes; nothing for a number that is no label.
fn put_label(line: &mut Line, order: &Lattice, a: Label)
    requires { length line.old ≤ 128 }
    ensures text { line.new ≡ line.old ++ name_of order.now a.number }
    ensures size { length line.new ≤ length line.old + 32 }
{
    order.laws();
    if u32::from(a.number()) < order.size() {
        let name = order.name(a);
        put(line, name.bytes());
    }
}

/// The line where memory was wanting.
pub fn memory() -> Line
    ensures { result ≡ memory_line }
{
    let mut line = Line::new();
    put(&mut line, b"memory\n");
    line
}

// Words, the name of a file, and the end of the line.
fn of_file(words: &[u8], file: &[u8]) -> Line
    requires words { length words.now ≤ 32 }
    requires file { length file.now ≤ 32 }
    ensures { result ≡ words.now ++ (file.now ++ codes "\n") }
{
    let mut line = Line::new();
    put(&mut line, words);
    put(&mut line, file);
    put(&mut line, b"\n");
    line
}

/// The line of a file that could not be read.
pub fn read_fault(file: &[u8]) -> Line
    requires { length file.now ≤ 32 }
    ensures { result ≡ codes "read fault: " ++ (file.now ++ codes "\n") }
{
    of_file(b"read fault: ", file)
}

/// The line of a file that is too long.
pub fn too_long(file: &[u8]) -> Line
    requires { length file.now ≤ 32 }
    ensures { result ≡ codes "too long: " ++ (file.now ++ codes "\n") }
{
    of_file(b"too long: ", file)
}

/// The line of an image that is too long, by its number of instructions.
pub fn too_long_image(count: u64) -> Line
    ensures { result ≡ number_line (codes "too long: image ") count }
{
    number(b"too long: image ", count)
}

/// Words, a number and the end of the line.
pub fn number(words: &[u8], n: u64) -> Line
    requires { length words.now ≤ 64 }
    ensures { result ≡ number_line words.now n }
{
    let mut line = Line::new();
    put(&mut line, words);
    put_number(&mut line, n);
    put(&mut line, b"\n");
    line
}

// What is wrong with a text, and where.
fn at(words: &[u8], pos: Pos) -> Line
    requires { length words.now ≤ 64 }
    ensures { result ≡ at_line words.now pos }
{
    let mut line = Line::new();
    put(&mut line, b"syntax: ");
    put(&mut line, words);
    put(&mut line, b" at ");
    put_pos(&mut line, pos);
    put(&mut line, b"\n");
    line
}

// What is wrong with two labels, by their names.
fn labels(words: &[u8], a: &[u8], b: &[u8]) -> Line
    requires words { length words.now ≤ 32 }
    requires first { length a.now ≤ 32 }
    requires second { length b.now ≤ 32 }
    ensures { result ≡ labels_line words.now a.now b.now }
{
    let mut line = Line::new();
    put(&mut line, b"syntax: ");
    put(&mut line, words);
    put(&mut line, a);
    put(&mut line, b" and ");
    put(&mut line, b);
    put(&mut line, b"\n");
    line
}

/// The line of a text that has no tokens.
pub fn text_fault(fault: TextFault) -> Line
    ensures { result ≡ text_fault_line fault }
{
    match fault {
        TextFault::NotUtf8(n) => number(b"syntax: not UTF-8 at byte ", u64::from(n)),
        TextFault::BadByte(pos) => at(b"bad byte", pos),
        TextFault::WideNumber(pos) => at(b"wide number", pos),
        TextFault::LongName(pos) => at(b"long name", pos),
        TextFault::Memory => memory(),
    }
}

// The line of labels that are no lattice, by the names that the header of the text gives them.
fn lattice_fault(text: &[u8], tokens: &[Token], fault: LatticeFault) -> Line
    requires { AreTokens text.now tokens.now }
    ensures { result ≡ lattice_fault_line (header_name text.now tokens.now) fault }
{
    let name = |a| header_name(text, tokens, a);
    match fault {
        LatticeFault::TooMany(n) => number(b"syntax: too many labels: ", u64::from(n)),
        LatticeFault::Cycle(a, b) => labels(b"order cycle between ", name(a), name(b)),
        LatticeFault::NoBottom(a, b) => labels(b"no bottom below ", name(a), name(b)),
        LatticeFault::NoJoin(a, b) => labels(b"no join of ", name(a), name(b)),
    }
}

/// The line of tokens that are no program. Labels are told by the names that the header of the text gives them.
pub fn parse_fault(text: &[u8], tokens: &[Token], fault: ParseFault) -> Line
    requires { AreTokens text.now tokens.now }
    ensures { result ≡ parse_fault_line (header_name text.now tokens.now) fault }
{
    match fault {
        ParseFault::Unexpected(pos) => at(b"unexpected", pos),
        ParseFault::TooDeep(pos) => at(b"too deep", pos),
        ParseFault::TooMany(n) => number(b"syntax: too many variables: ", u64::from(n)),
        ParseFault::Unknown(pos) => at(b"unknown name", pos),
        ParseFault::Twice(pos) => at(b"name twice", pos),
        ParseFault::Lattice(fault) => lattice_fault(text, tokens, fault),
        ParseFault::Memory => memory(),
        ParseFault::Size(pos) => at(b"array size", pos),
        ParseFault::Misuse(pos) => at(b"wrong use of a name", pos),
    }
}

/// The line of the first broken condition: its rule, where it is, and the label that does not flow to the other.
pub fn refused(order: &Lattice, rule: Rule, pos: Pos, have: Label, allowed: Label) -> Line
    ensures { result ≡ refused_line order.now rule pos have allowed }
{
    let mut line = Line::new();
    put(&mut line, b"refused ");
    put(&mut line, rule.name());
    put(&mut line, b" at ");
    put_pos(&mut line, pos);
    put(&mut line, b": ");
    put_label(&mut line, order, have);
    put(&mut line, b" does not flow to ");
    put_label(&mut line, order, allowed);
    put(&mut line, b"\n");
    line
}

// What is wrong with a run of a start file.
fn run(n: u32, words: &[u8]) -> Line
    requires { length words.now ≤ 64 }
    ensures { result ≡ run_line n words.now }
{
    let mut line = Line::new();
    put(&mut line, b"starts: run ");
    put_number(&mut line, u64::from(n));
    put(&mut line, b": ");
    put(&mut line, words);
    put(&mut line, b"\n");
    line
}

// A line of these words.
fn words(text: &[u8]) -> Line
    requires { length text.now ≤ 160 }
    ensures { result ≡ text.now }
{
    let mut line = Line::new();
    put(&mut line, text);
    line
}

/// The line of a start file that is refused.
pub fn start_fault(fault: StartFault) -> Line
    ensures { result ≡ start_fault_line fault }
{
    match fault {
        StartFault::NotToml => words(b"starts: not TOML\n"),
        StartFault::Version => words(b"starts: version\n"),
        StartFault::UnknownKey(n) => run(n, b"unknown key"),
        StartFault::NoRuns => words(b"starts: no runs\n"),
        StartFault::TooMany(n) => number(b"starts: too many runs: ", n),
        StartFault::NotNumber(n) => run(n, b"not a number"),
        StartFault::BadTouch(n) => run(n, b"bad touch"),
        StartFault::Memory => memory(),
    }
}

// Words, a number of commands, and a number of mitigates.
fn counted(words: &[u8], commands: u32, mitigates: u32) -> Line
    requires { length words.now ≤ 64 }
    ensures { result ≡ counted_line words.now commands mitigates }
{
    let mut line = Line::new();
    put(&mut line, words);
    put_number(&mut line, u64::from(commands));
    put(&mut line, b", mitigates ");
    put_number(&mut line, u64::from(mitigates));
    put(&mut line, b"\n");
    line
}

/// The line of an accepted program, by its numbers of commands and of mitigates.
pub fn accepted(commands: u32, mitigates: u32) -> Line
    ensures { result ≡ accepted_line commands mitigates }
{
    counted(b"accepted: commands ", commands, mitigates)
}

/// The line of a program whose certificate is accepted, by its numbers of commands and of mitigates.
pub fn rechecked(commands: u32, mitigates: u32) -> Line
    ensures { result ≡ rechecked_line commands mitigates }
{
    counted(b"rechecked: commands ", commands, mitigates)
}

/// The line of bytes that are no certificate, by their first wrong line.
pub fn rejected(first_wrong: u32) -> Line
    ensures { result ≡ rejected_line first_wrong }
{
    number(b"rejected: line ", u64::from(first_wrong))
}
