//! The words of a line, and how they are put.

ghost use Rattle.std.specs.Prelude.{◌≡◌, ◌++◌, OnOk, IfOk, decimal};
ghost use Rattle.flow_print.specs.Places.{noun, reader};
ghost use Rattle.flow_print.specs.Lines.{label_text, variable_text, spot_text, written_text, place_text, line, bound};

use flow_path::step::{How, Spot};
use flow_path::written::written_at;
use itoa::Buffer;
use label_lattice::label::Label;
use label_lattice::lattice::Lattice;
use mit_syntax::program::Program;
use mit_syntax::token::{Keyword, TokenKind};
use std::alloc::{AllocError, Global};
use text_base::pos::Pos;

/// What a command is called that begins with such a token.
pub(crate) fn noun(kind: TokenKind) -> &'static [u8]
    ensures { result.now ≡ noun kind }
{
    match kind {
        TokenKind::Key(Keyword::Skip) => b"skip".as_slice(),
        TokenKind::Key(Keyword::If) => b"if".as_slice(),
        TokenKind::Key(Keyword::While) => b"while".as_slice(),
        TokenKind::Key(Keyword::Mitigate) => b"mitigate".as_slice(),
        TokenKind::Key(Keyword::Sleep) => b"sleep".as_slice(),
        _ => b"assignment".as_slice(),
    }
}

/// What in such a command reads.
pub(crate) fn reader(kind: TokenKind) -> &'static [u8]
    ensures { result.now ≡ reader kind }
{
    match kind {
        TokenKind::Key(Keyword::If) => b"guard".as_slice(),
        TokenKind::Key(Keyword::While) => b"guard".as_slice(),
        _ => noun(kind),
    }
}

/// How the right side of a condition stands to a part of its left side.
pub fn bound(how: How) -> &'static [u8]
    ensures { result.now ≡ bound how }
{
    match how {
        How::Reads => b"from it".as_slice(),
        How::ReadsInIndex => b"with it".as_slice(),
        How::HasReadLabel => b"with it".as_slice(),
        How::UnderGuard => b"under it".as_slice(),
        How::AfterReading => b"after it".as_slice(),
        How::AfterComputing => b"after it".as_slice(),
        How::AfterReadLabel => b"after it".as_slice(),
        How::AfterAssigning => b"after it".as_slice(),
    }
}

/// Puts a number in decimal digits.
fn put_natural(out: &mut Vec<u8>, n: u32) -> Result<(), AllocError>
    ensures { OnOk result (out.new.items ≡ out.old.items ++ decimal n) }
{
    let mut buffer = Buffer::new();
    out.extend_from_slice(buffer.format(n).as_bytes())
}

/// Puts a place.
pub(crate) fn put_place(out: &mut Vec<u8>, q: Pos) -> Result<(), AllocError>
    ensures { OnOk result (out.new.items ≡ out.old.items ++ place_text q) }
{
    put_natural(out, q.line)?;
    out.push(b':')?;
    put_natural(out, q.column)?;
    out.push(b' ')?;
    Ok(())
}

/// Puts words, and the last words of a line.
pub fn put_line(out: &mut Vec<u8>, words: &[u8], last: &[u8]) -> Result<(), AllocError>
    ensures { OnOk result (out.new.items ≡ out.old.items ++ line words.now last.now) }
{
    out.extend_from_slice(words)?;
    out.extend_from_slice(last)?;
    out.push(b'\n')?;
    Ok(())
}

/// Puts the name of a label.
pub fn put_label(out: &mut Vec<u8>, labels: &Lattice, label: Label) -> Result<(), AllocError>
    ensures { OnOk result (out.new.items ≡ out.old.items ++ label_text labels.now label.number) }
{
    if u32::from(label.number) < labels.size() {
        out.extend_from_slice(labels.name(label).bytes())?;
    }
    Ok(())
}

/// Puts the name of a variable.
pub(crate) fn put_variable(out: &mut Vec<u8>, p: &Program, x: u32) -> Result<(), AllocError>
    ensures { OnOk result (out.new.items ≡ out.old.items ++ variable_text p.now x) }
{
    if x < p.variables() {
        out.extend_from_slice(p.variable_name(x).bytes())?;
    }
    Ok(())
}

fn put_spot(out: &mut Vec<u8>, p: &Program, spot: &Spot) -> Result<(), AllocError>
    ensures { OnOk result (out.new.items ≡ out.old.items ++ spot_text p.now spot.now) }
{
    match spot {
        Spot::Variable(x) => {
            put_variable(out, p, *x)?;
            Ok(())
        }
        Spot::Command(label) => {
            put_label(out, p.lattice(), *label)?;
            Ok(())
        }
        Spot::Level(_, _) => Ok(()),
    }
}

fn put_written(out: &mut Vec<u8>, p: &Program, spot: &Spot) -> Result<(), AllocError>
    ensures { OnOk result (out.new.items ≡ out.old.items ++ written_text p.now spot.now) }
{
    match written_at(p, spot) {
        Some(label) => {
            put_label(out, p.lattice(), label)?;
            Ok(())
        }
        None => Ok(()),
    }
}

/// What stands at a spot.
pub fn spot_text(alloc: Global, p: &Program, spot: &Spot) -> Result<Vec<u8>, AllocError>
    ensures { IfOk result (λ v. v.items ≡ spot_text p.now spot.now) }
{
    let mut out = Vec::new(alloc);
    put_spot(&mut out, p, spot)?;
    Ok(out)
}

/// The label that the program writes at a spot.
pub fn written_text(alloc: Global, p: &Program, spot: &Spot) -> Result<Vec<u8>, AllocError>
    ensures { IfOk result (λ v. v.items ≡ written_text p.now spot.now) }
{
    let mut out = Vec::new(alloc);
    put_written(&mut out, p, spot)?;
    Ok(out)
}
