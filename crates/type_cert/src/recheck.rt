//! Checking a certificate, line by line and without inference.

ghost use Rattle.std.specs.Prelude.{◌≡◌, ◌+◌, ◌++◌, ◌<◌, ℕ, List, [], length, map, codes, IfOk, IfErr, IsTrue, ◌↔◌, MatchOption};
ghost use Rattle.label_lattice.specs.declared.label.Label.{Label};
ghost use Rattle.label_lattice.specs.Order.{lattice_of};
ghost use Rattle.timing_types.specs.Labelling.{IsKept};
ghost use Rattle.type_cert.specs.declared.line.Line.{Line};
ghost use Rattle.type_cert.specs.Certificate.{spread, places_of, line_at, before, levels_in, BeginsWith, IsCertificate};
ghost use Rattle.type_cert.specs.Contents.{AreContents, pc_before, pcs_in};
ghost use Rattle.type_cert.specs.Demands.{Meets};
ghost use Rattle.type_cert.specs.Reading.{ReadsLine, ReadsVariable};
ghost use Rattle.type_cert.specs.Fault.{IsCertFault};

use crate::demands::meets;
use crate::fault::CertFault;
use crate::line::Line;
use crate::place::{Close, Place, Start};
use crate::places::list_places;
use crate::read::{after, line, variable};
use label_lattice::label::Label;
use label_lattice::lattice::Lattice;
use label_lattice::name::Name;
use mit_syntax::program::Program;
use std::alloc::{AllocError, Global};
use timing_types::labelled::Labelled;
use timing_types::typed::Typed;

/// What the lines of a certificate say: a label for each variable, and the line of each command.
#[derive(Drop)]
struct Contents {
    variables: Vec<Label>,
    lines: Vec<Line>,
}

/// The tables of a labelling, and the program-counter label of each mitigate.
#[derive(Drop)]
struct Held {
    commands: Vec<(Label, Label)>,
    levels: Vec<Label>,
    pcs: Vec<Label>,
}

/// Whether a written label is kept.
fn is_kept(written: Option<Label>, label: Label) -> bool
    ensures { IsTrue result ↔ IsKept written label.number }
{
    match written {
        Some(written) => label.number == written.number,
        None => true,
    }
}

/// The right line of a declaration at the front of a text, and what follows it.
fn right_variable<'a>(
    text: &'a [u8],
    order: &Lattice,
    name: Name,
    written: Option<Label>,
) -> Option<(Label, &'a [u8])>
    ensures { MatchOption result ((l : Label) (q : List ℕ) → ReadsVariable order.now name text.now l q → IsKept written l.number → ⊥)
        (λ r. ReadsVariable order.now name text.now r.0 r.1.now × IsKept written r.0.number) }
{
    order.laws();
    let (label, rest) = variable(text, order, name)?;
    if is_kept(written, label) {
        return Some((label, rest));
    }
    None
}

/// The right line of the command at a place at the front of a text, and what follows it.
fn right_line<'a>(
    text: &'a [u8],
    order: &Lattice,
    number: usize,
    place: &Place,
    lines: &[Line],
) -> Option<(Line, &'a [u8])>
    ensures { MatchOption result ((x : Line) (q : List ℕ) → ReadsLine order.now number place.now.act text.now x q
        → Meets (lattice_of order.now) (line_at order.now.bottom lines.now) place.now x → ⊥)
        (λ r. ReadsLine order.now number place.now.act text.now r.0 r.1.now
        × Meets (lattice_of order.now) (line_at order.now.bottom lines.now) place.now r.0) }
{
    order.laws();
    let (line, rest) = line(text, order, number, place.act)?;
    if meets(order, lines, place, &line) {
        return Some((line, rest));
    }
    None
}

/// The labels of the declarations, and what follows their lines.
fn read_variables<'a>(
    alloc: Global,
    p: &Program,
    bytes: &'a [u8],
) -> Result<(Vec<Label>, &'a [u8]), CertFault>
    ensures begins { IfOk result (λ r. BeginsWith p.now r.0.items [] bytes.now r.1.now) }
    ensures complete { IfOk result (λ r. length r.0.items ≡ length p.now.declarations) }
    ensures fault { IfErr result (IsCertFault p.now bytes.now) }
{
    let order = p.lattice();
    order.laws();
    p.laws();
    let declarations = p.declarations();
    let Some(mut rest) = after(bytes, b"certificate 1\n") else {
        return Err(CertFault::Line(1));
    };
    let mut found = Vec::new(alloc);
    for k in 0..declarations.len() {
        let (name, decl) = declarations.declaration(k);
        let Some((label, next)) = right_variable(rest, order, name, decl.label) else {
            return Err(CertFault::Line(k as u32 + 2));
        };
        found.push(label)?;
        rest = next;
    }
    Ok((found, rest))
}

/// The label of each variable, from those of the declarations.
fn spread(alloc: Global, p: &Program, declared: &[Label]) -> Result<Vec<Label>, AllocError>
    requires { length declared.now ≡ length p.now.declarations }
    ensures { IfOk result (λ v. v.items ≡ spread p.now.declarations declared.now) }
{
    let declarations = p.declarations();
    let mut found = Vec::new(alloc);
    for k in 0..declarations.len() {
        let (_, decl) = declarations.declaration(k);
        let size = decl.length.unwrap_or(1) as usize;
        found.resize(found.len() + size, declared[k])?;
    }
    Ok(found)
}

/// The places of a program's commands, where its variables have these labels.
fn places(
    alloc: Global,
    p: &Program,
    declared: &[Label],
    variables: &[Label],
) -> Result<Vec<Place>, AllocError>
    requires { variables.now ≡ spread p.now.declarations declared.now }
    ensures { IfOk result (λ v. v.items ≡ places_of p.now declared.now) }
{
    let order = p.lattice();
    let mut found = Vec::new(alloc);
    list_places(
        p.body(),
        variables,
        order,
        order.bottom(),
        Start::First,
        Close::Open,
        &mut found,
    )?;
    Ok(found)
}

/// The number of the line of a command, which stands behind the first line and those of the declarations.
fn line_number(declared: usize, number: usize) -> u32
    requires { declared + number < 4294967294 }
    ensures { result ≡ declared + number + 2 }
{
    (declared + number) as u32 + 2
}

/// What a certificate of a program says.
#[tactic(none)]
fn read(alloc: Global, p: &Program, bytes: &[u8]) -> Result<Contents, CertFault>
    ensures contents { IfOk result (λ c. AreContents p.now bytes.now c.variables.items c.lines.items) }
    ensures fault { IfErr result (IsCertFault p.now bytes.now) }
{
    let order = p.lattice();
    order.laws();
    p.laws();
    let (declared, text) = read_variables(alloc, p, bytes)?;
    let variables = spread(alloc, p, &declared)?;
    let places = places(alloc, p, &declared, &variables)?;
    let mut rest = text;
    let mut lines = Vec::new(alloc);
    for (number, place) in places.iter().enumerate() {
        let Some((line, next)) = right_line(rest, order, number, place, &lines) else {
            return Err(CertFault::Line(line_number(declared.len(), number)));
        };
        lines.push(line)?;
        rest = next;
    }
    if !rest.is_empty() {
        return Err(CertFault::Line(line_number(declared.len(), places.len())));
    }
    Ok(Contents { variables, lines })
}

/// Appends the level and the program-counter label of a mitigate's line.
fn push_level(line: &Line, levels: &mut Vec<Label>, pcs: &mut Vec<Label>) -> Result<(), AllocError>
    ensures levels { IfOk result (λ _. levels.new.items ≡ levels.old.items ++ before line.now.level []) }
    ensures pcs { IfOk result (λ _. pcs.new.items ≡ pcs.old.items ++ pc_before line.now.level line.now.pc []) }
{
    if let Some(level) = line.level {
        levels.push(level)?;
        pcs.push(line.pc)?;
    }
    Ok(())
}

/// The labels of the commands and the levels that lines hold.
fn tables(alloc: Global, lines: &[Line]) -> Result<Held, AllocError>
    ensures commands { IfOk result (λ t. t.commands.items ≡ map (λ x. (x.read, x.write)) lines.now) }
    ensures levels { IfOk result (λ t. t.levels.items ≡ levels_in lines.now) }
    ensures pcs { IfOk result (λ t. t.pcs.items ≡ pcs_in lines.now) }
{
    let mut commands = Vec::new(alloc);
    let mut levels = Vec::new(alloc);
    let mut pcs = Vec::new(alloc);
    for line in lines {
        commands.push((line.read, line.write))?;
        push_level(line, &mut levels, &mut pcs)?;
    }
    Ok(Held {
        commands,
        levels,
        pcs,
    })
}

/// Checks bytes as a certificate of a program, line by line: the typed program with the labelling that the
/// certificate holds.
///
/// # Errors
/// `Line` comes exactly where the bytes are no certificate of the program, with the first wrong line, from 1; a
/// missing or a surplus line counts at its number. `Memory` is want of memory. After a fault the program comes back.
#[tactic(none)]
pub fn recheck(alloc: Global, p: Program, bytes: &[u8]) -> Result<Typed, (Program, CertFault)>
    ensures program { IfOk result (λ q. q.labelled.program ≡ p) }
    ensures certificate { IfOk result (λ q. IsCertificate q.labelled bytes.now) }
    ensures kept { IfErr result (λ e. e.0 ≡ p) }
    ensures fault { IfErr result (λ e. IsCertFault p bytes.now e.1) }
{
    p.laws();
    let contents = match read(alloc, &p, bytes) {
        Ok(contents) => contents,
        Err(fault) => return Err((p, fault)),
    };
    match tables(alloc, &contents.lines) {
        Ok(held) => {
            let labelled = Labelled::of(p, contents.variables, held.commands, held.levels);
            Ok(Typed::of(labelled, held.pcs))
        }
        Err(_) => Err((p, CertFault::Memory)),
    }
}
