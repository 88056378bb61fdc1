//! The object of a program that is refused.

ghost use Rattle.std.specs.Prelude.{◌≡◌, ◌++◌, OnOk, IfOk};
ghost use Rattle.flow_print.specs.Lines.{label_text};
ghost use Rattle.json_text.specs.Json.{json_text};
ghost use Rattle.found_print.specs.Refused.{labels_json, refused_object};

use crate::chain::put_list;
use crate::members::{put_end, put_found, put_places};
use flow_path::step::Step;
use flow_print::places::Spelling;
use flow_print::words::put_label;
use json_text::put::{put_first_key, put_key, put_string};
use label_lattice::label::Label;
use label_lattice::lattice::Lattice;
use mit_syntax::program::Program;
use mit_syntax::token::Token;
use std::alloc::{AllocError, Global};
use timing_types::rule::TypeFault;
use tool_texts::lines;

fn label_name(alloc: Global, labels: &Lattice, label: Label) -> Result<Vec<u8>, AllocError>
    ensures { IfOk result (λ v. v.items ≡ label_text labels.now label.number) }
{
    let mut name = Vec::new(alloc);
    put_label(&mut name, labels, label)?;
    Ok(name)
}

// Puts the label that is there, and the one that is allowed.
fn put_labels(
    alloc: Global,
    out: &mut Vec<u8>,
    labels: &Lattice,
    have: Label,
    allowed: Label,
) -> Result<(), AllocError>
    ensures { OnOk result (out.new.items ≡ out.old.items
        ++ json_text (labels_json (label_text labels.now have.number) (label_text labels.now allowed.number))) }
{
    let have = label_name(alloc, labels, have)?;
    let allowed = label_name(alloc, labels, allowed)?;
    put_first_key(out, b"have")?;
    put_string(out, have.as_slice())?;
    put_key(out, b"allowed")?;
    put_string(out, allowed.as_slice())?;
    out.extend_from_slice(b"}")?;
    Ok(())
}

/// The object of a condition that is broken: its rule, place and labels, and the chain that shows why it can't hold, for a program that is
/// spelled by the tokens of a text.
///
/// # Errors
/// `AllocError` is want of memory.
pub fn refused_object(
    alloc: Global,
    text: &[u8],
    tokens: &[Token],
    p: &Program,
    fault: TypeFault,
    chain: &[Step],
) -> Result<Vec<u8>, AllocError>
    ensures { IfOk result (λ v. v.items ≡ refused_object text.now tokens.now p.now fault chain.now) }
{
    let mut out = Vec::new(alloc);
    let TypeFault::Refused {
        rule,
        pos,
        have,
        allowed,
    } = fault
    else {
        return Ok(out);
    };
    let spelling = Spelling::new(text, tokens);
    let line = lines::refused(p.lattice(), rule, pos, have, allowed);
    put_found(&mut out, b"refused", line.bytes())?;
    put_key(&mut out, b"place")?;
    put_places(&mut out, pos, spelling.spelled_at(pos).len())?;
    put_key(&mut out, b"rule")?;
    put_string(&mut out, rule.name())?;
    put_key(&mut out, b"labels")?;
    put_labels(alloc, &mut out, p.lattice(), have, allowed)?;
    put_key(&mut out, b"chain")?;
    put_list(alloc, &mut out, &spelling, p, chain)?;
    put_end(&mut out)?;
    Ok(out)
}
