//! A token that can't stand at its place.

ghost use Rattle.std.specs.Prelude.{◌≡◌, ◌++◌, OnOk, slice_get};
ghost use Rattle.mit_syntax.specs.Cut.{AreTokens};
ghost use Rattle.next_tokens.specs.Sorts.{sort_in};
ghost use Rattle.fault_print.specs.Marked.{marked};
ghost use Rattle.fault_print.specs.Words.{expected_line};
ghost use Rattle.fault_print.specs.Tokens.{sort_at, word_at, before_at};
ghost use Rattle.fault_print.specs.Faults.{found_sort, trap_at, token_lines};

use crate::marked::put_marked;
use crate::traps::{token_trap, trap_lines};
use crate::words::{put_expected, put_found_end, put_found_word};
use mit_syntax::token::Token;
use next_tokens::sort::{Sort, sort_in};
use std::alloc::AllocError;

/// The sort of the token with a number; the end where there is none.
pub(crate) fn sort_at(tokens: &[Token], n: usize) -> Sort
    ensures { result ≡ sort_at (slice_get tokens.now n) }
{
    if n >= tokens.len() {
        return Sort::End;
    }
    sort_in(tokens[n].kind)
}

/// The bytes of the token with a number; none where there is no such token.
pub(crate) fn word_at<'a>(text: &'a [u8], tokens: &[Token], n: usize) -> &'a [u8]
    requires { AreTokens text.now tokens.now }
    ensures { result.now ≡ word_at text.now (slice_get tokens.now n) }
{
    if n >= tokens.len() {
        return &[];
    }
    tokens[n].bytes(text)
}

/// The sort of the token before the one with a number.
pub(crate) fn sort_before(tokens: &[Token], n: usize) -> Sort
    ensures { result ≡ sort_at (before_at tokens.now n) }
{
    if n == 0 {
        return Sort::End;
    }
    sort_at(tokens, n - 1)
}

// The word of the token before the one with a number.
fn word_before<'a>(text: &'a [u8], tokens: &[Token], n: usize) -> &'a [u8]
    requires { AreTokens text.now tokens.now }
    ensures { result.now ≡ word_at text.now (before_at tokens.now n) }
{
    if n == 0 {
        return &[];
    }
    word_at(text, tokens, n - 1)
}

fn put_found(out: &mut Vec<u8>, sort: Sort, word: &[u8]) -> Result<(), AllocError>
    ensures { OnOk result (out.new.items ≡ out.old.items ++ found_sort sort word.now) }
{
    match sort {
        Sort::End => put_found_end(out),
        _ => put_found_word(out, word),
    }
}

// The mistake that the token with a number shows, which has this sort and this word.
fn trap_at(
    text: &[u8],
    tokens: &[Token],
    n: usize,
    sort: Sort,
    word: &[u8],
    could: &[Sort],
) -> &'static [u8]
    requires { AreTokens text.now tokens.now }
    ensures { result.now ≡ trap_at text.now tokens.now n sort word.now could.now }
{
    let before = sort_before(tokens, n);
    let before_word = word_before(text, tokens, n);
    let next = sort_at(tokens, n.saturating_add(1));
    trap_lines(token_trap(before, before_word, sort, word, next, could))
}

// Appends the lines on a token of this place, sort and word, and the mistake that it shows.
fn put_lines(
    out: &mut Vec<u8>,
    text: &[u8],
    token: Token,
    word: &[u8],
    could: &[Sort],
    trap: &[u8],
) -> Result<(), AllocError>
    ensures { OnOk result (out.new.items ≡ out.old.items
        ++ (marked text.now token.pos ++ (found_sort (sort_in token.kind) word.now ++ (expected_line could.now ++ trap.now)))) }
{
    put_marked(out, text, token.pos)?;
    put_found(out, sort_in(token.kind), word)?;
    put_expected(out, could)?;
    out.extend_from_slice(trap)?;
    Ok(())
}

/// Appends the lines on the token with a number, which can't stand at its place, where tokens of these sorts could.
pub(crate) fn put_token(
    out: &mut Vec<u8>,
    text: &[u8],
    tokens: &[Token],
    n: usize,
    could: &[Sort],
) -> Result<(), AllocError>
    requires { AreTokens text.now tokens.now }
    ensures { OnOk result (out.new.items ≡ out.old.items ++ token_lines text.now tokens.now n could.now) }
{
    if n >= tokens.len() {
        return Ok(());
    }
    let token = tokens[n];
    let word = token.bytes(text);
    let trap = trap_at(text, tokens, n, sort_in(token.kind), word, could);
    put_lines(out, text, token, word, could, trap)
}
