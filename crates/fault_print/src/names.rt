//! What is told of a name that is declared nowhere.

ghost use Rattle.std.specs.Prelude.{◌≡◌, ◌++◌, ◌&&◌, false, OnOk, IfOk};
ghost use Rattle.std.specs.Str.{bytes_eq};
ghost use Rattle.mit_syntax.specs.Cut.{AreTokens};
ghost use Rattle.fault_print.specs.Names.{listed, is_near, near_names, has_variable, front_names, in_front, has_header, label_names, has_label, number_at};
ghost use Rattle.fault_print.specs.Names.{names_label, is_label_place, labels_line, near_line, no_label, no_variable, name_lines};

use crate::near::is_near;
use crate::token::{sort_at, sort_before, word_at};
use crate::traps::{Trap, trap_line};
use mit_syntax::token::{Keyword, Sign, Token};
use next_tokens::sort::{Sort, sort_in};
use std::alloc::{AllocError, Global};
use text_base::pos::{Memory, Pos};

/// Appends a name, if it is one of those that are listed.
pub fn put_listed(out: &mut Vec<u8>, is: bool, word: &[u8]) -> Result<(), AllocError>
    ensures { OnOk result (out.new.items ≡ out.old.items ++ listed is word.now) }
{
    if is {
        out.extend_from_slice(b" ")?;
        out.extend_from_slice(word)?;
    }
    Ok(())
}

// Whether a name is declared, and near to a word.
fn is_listed(declared: bool, word: &[u8], name: &[u8]) -> bool
    ensures { result ≡ (declared && is_near word.now name.now) }
{
    declared && is_near(word, name)
}

fn is_named(declared: bool, word: &[u8], name: &[u8]) -> bool
    ensures { result ≡ (declared && bytes_eq word.now name.now) }
{
    declared && word == name
}

// Appends the names of variables and arrays that are near to a word.
fn put_near(out: &mut Vec<u8>, text: &[u8], tokens: &[Token], word: &[u8]) -> Result<(), AllocError>
    requires { AreTokens text.now tokens.now }
    ensures { OnOk result (out.new.items ≡ out.old.items ++ near_names text.now word.now false tokens.now) }
{
    let mut declared = false;
    for i in 0..tokens.len() {
        let name = word_at(text, tokens, i);
        put_listed(out, is_listed(declared, word, name), name)?;
        declared = sort_in(tokens[i].kind).is_key(Keyword::Var);
    }
    Ok(())
}

// Whether a word is the name of a variable or an array.
fn has_variable(text: &[u8], tokens: &[Token], word: &[u8]) -> bool
    requires { AreTokens text.now tokens.now }
    ensures { result ≡ has_variable text.now word.now false tokens.now }
{
    let mut declared = false;
    for i in 0..tokens.len() {
        if is_named(declared, word, word_at(text, tokens, i)) {
            return true;
        }
        declared = sort_in(tokens[i].kind).is_key(Keyword::Var);
    }
    false
}

// Appends the names up to a `;`.
fn put_front(out: &mut Vec<u8>, text: &[u8], tokens: &[Token]) -> Result<(), AllocError>
    requires { AreTokens text.now tokens.now }
    ensures { OnOk result (out.new.items ≡ out.old.items ++ front_names text.now tokens.now) }
{
    for i in 0..tokens.len() {
        let sort = sort_in(tokens[i].kind);
        if sort.is_sign(Sign::Semicolon) {
            return Ok(());
        }
        put_listed(out, sort.is_name(), word_at(text, tokens, i))?;
    }
    Ok(())
}

// Whether a word is one of the names up to a `;`.
fn in_front(text: &[u8], tokens: &[Token], word: &[u8]) -> bool
    requires { AreTokens text.now tokens.now }
    ensures { result ≡ in_front text.now word.now tokens.now }
{
    for i in 0..tokens.len() {
        if sort_in(tokens[i].kind).is_sign(Sign::Semicolon) {
            return false;
        }
        if word == word_at(text, tokens, i) {
            return true;
        }
    }
    false
}

fn has_header(tokens: &[Token]) -> bool
    ensures { result ≡ has_header tokens.now }
{
    match tokens {
        [first, ..] => sort_in(first.kind).is_key(Keyword::Labels),
        [] => false,
    }
}

// Appends the names of the labels.
fn put_labels(out: &mut Vec<u8>, text: &[u8], tokens: &[Token]) -> Result<(), AllocError>
    requires { AreTokens text.now tokens.now }
    ensures { OnOk result (out.new.items ≡ out.old.items ++ label_names text.now tokens.now) }
{
    if has_header(tokens) {
        return put_front(out, text, tokens);
    }
    out.extend_from_slice(b" L H")?;
    Ok(())
}

// Whether a word is the name of a label.
fn has_label(text: &[u8], tokens: &[Token], word: &[u8]) -> bool
    requires { AreTokens text.now tokens.now }
    ensures { result ≡ has_label text.now word.now tokens.now }
{
    if has_header(tokens) {
        return in_front(text, tokens, word);
    }
    word == b"L".as_slice() || word == b"H".as_slice()
}

// The number of the token at a place.
fn number_at(tokens: &[Token], pos: Pos) -> usize
    ensures { result ≡ number_at pos tokens.now }
{
    for (i, token) in tokens.iter().enumerate() {
        if token.pos.line == pos.line && token.pos.column == pos.column {
            return i;
        }
    }
    tokens.len()
}

// Whether a name stands for a label behind these sorts of tokens.
fn names_label(third: Sort, second: Sort, first: Sort) -> bool
    ensures { result ≡ names_label third second first }
{
    first.is_sign(Sign::Colon)
        || first.is_sign(Sign::Comma)
        || first.is_key(Keyword::Order)
        || first.is_sign(Sign::LeftSquare) && second.is_sign(Sign::At)
        || first.is_sign(Sign::Less) && (third.is_key(Keyword::Order) || third.is_sign(Sign::Comma))
}

fn is_label_place(tokens: &[Token], n: usize) -> bool
    ensures { result ≡ is_label_place tokens.now n }
{
    let third = sort_before(tokens, n.saturating_sub(2));
    let second = sort_before(tokens, n.saturating_sub(1));
    names_label(third, second, sort_before(tokens, n))
}

fn put_labels_line(out: &mut Vec<u8>, text: &[u8], tokens: &[Token]) -> Result<(), AllocError>
    requires { AreTokens text.now tokens.now }
    ensures { OnOk result (out.new.items ≡ out.old.items ++ labels_line text.now tokens.now) }
{
    out.extend_from_slice(b"labels")?;
    put_labels(out, text, tokens)?;
    out.extend_from_slice(b"\n")?;
    Ok(())
}

fn put_near_line(out: &mut Vec<u8>, near: &[u8]) -> Result<(), AllocError>
    ensures { OnOk result (out.new.items ≡ out.old.items ++ near_line near.now) }
{
    if near.is_empty() {
        out.extend_from_slice(trap_line(Trap::Declaration))?;
        return Ok(());
    }
    out.extend_from_slice(b"nearest")?;
    out.extend_from_slice(near)?;
    out.extend_from_slice(b"\n")?;
    Ok(())
}

// A name in the place of a label.
fn no_label(alloc: Global, text: &[u8], tokens: &[Token], word: &[u8]) -> Result<Vec<u8>, Memory>
    requires { AreTokens text.now tokens.now }
    ensures { IfOk result (λ v. v.items ≡ no_label text.now word.now tokens.now) }
{
    let mut out = Vec::new(alloc);
    if has_variable(text, tokens, word) {
        out.extend_from_slice(b"it is a variable, and no label\n")?;
    }
    put_labels_line(&mut out, text, tokens)?;
    Ok(out)
}

// A name in the place of a variable.
fn no_variable(alloc: Global, text: &[u8], tokens: &[Token], word: &[u8]) -> Result<Vec<u8>, Memory>
    requires { AreTokens text.now tokens.now }
    ensures { IfOk result (λ v. v.items ≡ no_variable text.now word.now tokens.now) }
{
    let mut out = Vec::new(alloc);
    if has_label(text, tokens, word) {
        out.extend_from_slice(b"it is a label, and no variable\n")?;
        return Ok(out);
    }
    let mut near = Vec::new(alloc);
    put_near(&mut near, text, tokens, word)?;
    put_near_line(&mut out, near.as_slice())?;
    Ok(out)
}

/// The lines on a name that is declared nowhere, at its place: the labels, or the variables that have a name like it.
pub(crate) fn name_text(
    alloc: Global,
    text: &[u8],
    tokens: &[Token],
    word: &[u8],
    pos: Pos,
) -> Result<Vec<u8>, Memory>
    requires { AreTokens text.now tokens.now }
    ensures { IfOk result (λ v. v.items ≡ name_lines text.now tokens.now word.now pos) }
{
    if is_label_place(tokens, number_at(tokens, pos)) {
        return no_label(alloc, text, tokens, word);
    }
    no_variable(alloc, text, tokens, word)
}
