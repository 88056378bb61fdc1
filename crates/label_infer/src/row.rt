//! Sets of variables.

ghost use Rattle.std.specs.Prelude.{◌≡◌, ◌<◌, length, ◌||◌, ◌&&◌, not, false, eqb, bit_and, MatchBool, IsTrue, IfOk};
ghost use Rattle.label_infer.specs.Rows.{has_in, Meet, SharesBit};

use mit_syntax::declarations::MAX_CELLS;
use std::alloc::{AllocError, Global};

/// How many variables a program can have: each declaration is one, and each element of an array.
pub(crate) const MAX_NUMBERS: u32 = MAX_CELLS;

/// How many words a row of bits has: one bit for each number.
const WORDS: usize = MAX_NUMBERS as usize / 64;

/// A set of variables with numbers below `MAX_NUMBERS`, as a row of bits.
#[derive(Drop)]
pub(crate) struct Row {
    words: Vec<u64>,
    ghost full: { length words.items ≡ 48 },
}

/// Whether a bit is set in both words.
fn overlap(a: u64, b: u64) -> bool
    ensures { MatchBool result (SharesBit a b) (bit_and a b ≡ 0) }
{
    a & b != 0
}

/// Adds the variables of other words to those of words.
fn unite_words(words: &mut [u64], other: &[u64])
    requires full { length words.old ≡ 48 }
    requires as_full { length other.now ≡ 48 }
    ensures full { length words.new ≡ 48 }
    ensures has { has_in words.new ≡ λ y. has_in words.old y || has_in other.now y }
{
    for i in 0..WORDS {
        words[i] |= other[i];
    }
}

/// Whether words have each variable that others have.
fn words_include(words: &[u64], other: &[u64]) -> bool
    requires full { length words.now ≡ 48 }
    requires as_full { length other.now ≡ 48 }
    ensures { IsTrue result → has_in words.now ≡ λ y. has_in words.now y || has_in other.now y }
{
    for i in 0..WORDS {
        if words[i] | other[i] != words[i] {
            return false;
        }
    }
    true
}

/// Whether a variable is in both.
fn words_meet(a: &[u64], b: &[u64]) -> bool
    requires full { length a.now ≡ 48 }
    requires as_full { length b.now ≡ 48 }
    ensures { MatchBool result (Meet (has_in a.now) (has_in b.now)) (Meet (has_in a.now) (has_in b.now) → ⊥) }
{
    for i in 0..WORDS {
        if overlap(a[i], b[i]) {
            return true;
        }
    }
    false
}

impl Row {
    /// No variable.
    pub(crate) fn empty(alloc: Global) -> Result<Row, AllocError>
        ensures { IfOk result (λ r. has_in r.words.items ≡ λ y. false) }
    {
        let words = vec![in alloc; 0; WORDS]?;
        Ok(Row { words })
    }

    /// The same set.
    pub(crate) fn copy(&self, alloc: Global) -> Result<Row, AllocError>
        ensures { IfOk result (λ r. has_in r.words.items ≡ has_in self.now.words.items) }
    {
        let words = Vec::from_slice(alloc, &self.words)?;
        Ok(Row { words })
    }

    /// Whether the set has a variable.
    pub(crate) fn has(&self, x: u32) -> bool
        requires { x < MAX_NUMBERS }
        ensures { result ≡ has_in self.now.words.items x }
    {
        self.words[x as usize / 64] >> (x % 64) & 1 == 1
    }

    /// One variable more.
    pub(crate) fn insert(&mut self, x: u32)
        requires { x < MAX_NUMBERS }
        ensures { has_in self.new.words.items ≡ λ y. has_in self.old.words.items y || eqb x y }
    {
        self.words[x as usize / 64] |= 1 << (x % 64);
    }

    /// Without a variable.
    pub(crate) fn remove(&mut self, x: u32)
        requires { x < MAX_NUMBERS }
        ensures { has_in self.new.words.items ≡ λ y. has_in self.old.words.items y && not (eqb x y) }
    {
        self.words[x as usize / 64] &= !(1 << (x % 64));
    }

    /// The variables of another set more.
    pub(crate) fn unite(&mut self, other: &Row)
        ensures { has_in self.new.words.items ≡ λ y. has_in self.old.words.items y || has_in other.now.words.items y }
    {
        unite_words(&mut self.words, &other.words);
    }

    /// Whether the set has each variable of another: true only where uniting them changes nothing.
    pub(crate) fn includes(&self, other: &Row) -> bool
        ensures { IsTrue result → has_in self.now.words.items ≡ λ y. has_in self.now.words.items y || has_in other.now.words.items y }
    {
        words_include(&self.words, &other.words)
    }

    /// Whether a variable is in both.
    pub(crate) fn meets(&self, other: &Row) -> bool
        ensures { MatchBool result (Meet (has_in self.now.words.items) (has_in other.now.words.items))
            (Meet (has_in self.now.words.items) (has_in other.now.words.items) → ⊥) }
    {
        words_meet(&self.words, &other.words)
    }
}
