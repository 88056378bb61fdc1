//! The names of labels and of variables.

ghost use Rattle.std.specs.Prelude.{◌≡◌, false, IfSome, IsSome, IsTrue, ◌↔◌};
ghost use Rattle.std.specs.List.{list_all};
ghost use Rattle.std.specs.Str.{bytes_eq};
ghost use Rattle.std.specs.Hash as fed;
ghost use Rattle.std.specs.Cmp;
ghost use Rattle.std.specs.Cmp.Lexicographic.{nat_list_eq_equiv};
ghost use Rattle.std.specs.Cmp.Rules.{hashing};
ghost use Rattle.std.proofs.Common.{rules};
ghost use Rattle.label_lattice.specs.Names.{IsName, IsWord, is_one_of, keywords, is_name_byte};

use std::hash::{Hash, Hasher};
use std::marker::Model;

/// The most bytes that a name of a label or of a variable may have.
pub const MAX_NAME: usize = 32;

/// A name: a letter, then letters, digits and `_`, of at most 32 bytes, and no keyword.
#[derive(Clone, Copy, Debug)]
pub struct Name {
    room: [u8; MAX_NAME],
    len: u8,
}

impl Model for Name {
    ghost use Rattle.std.specs.Prelude.{List, ℕ};
    ghost use Rattle.std.specs.Coded.{coded_ℕ, coded_list};

    ghost Value = { List ℕ };

    ghost coded = { coded_list coded_ℕ };

    ghost use Rattle.label_lattice.specs.Padded.{text_of, padded, IsPadded, padded_again};

    ghost view = { text_of };

    ghost invariant = { IsPadded };

    ghost inverse = { padded };

    ghost inverse_ok = { padded_again };
}

impl Name {
    /// The name with these bytes, or `None` where they are no name.
    pub fn read(bytes: &[u8]) -> Option<Name>
        ensures names { IsSome result ↔ IsName bytes.now }
        ensures text { IfSome result (λ n. n ≡ bytes.now) }
    {
        if bytes.len() > MAX_NAME || !is_word(bytes) || is_keyword(bytes) {
            return None;
        }
        let mut room = [0u8; MAX_NAME];
        room[..bytes.len()].copy_from_slice(bytes);
        Some(Name {
            room,
            len: bytes.len() as u8,
        })
    }

    /// Says nothing at run time: what is true of every name.
    pub fn laws(&self)
        ensures { IsName self.now }
    {
        let _ = &self.len;
    }

    /// The name's bytes.
    pub fn bytes(&self) -> &[u8]
        ensures value { result.now ≡ self.now }
        ensures name { IsName self.now }
    {
        &self.room[..self.len as usize]
    }
}

impl PartialEq for Name {
    ghost eq = { bytes_eq };

    ghost laws = { Cmp.partial_equiv_from_equiv nat_list_eq_equiv };

    fn eq(&self, other: &Self) -> bool {
        self.bytes() == other.bytes()
    }
}

impl Eq for Name {
    ghost laws = { nat_list_eq_equiv };
}

impl Hash for Name {
    ghost hash_input = { fed.slice fed.u8 };

    ghost respects_eq = { Prim.search (hashing, rules) };

    fn hash<H: Hasher>(&self, state: &mut H) {
        self.bytes().hash(state);
    }
}

fn is_name_byte(b: u8) -> bool
    ensures { result ≡ is_name_byte b }
{
    b.is_ascii_alphabetic() || b.is_ascii_digit() || b == b'_'
}

// Whether the bytes are a letter, and then letters, digits and `_`.
fn is_word(bytes: &[u8]) -> bool
    ensures { IsTrue result ↔ IsWord bytes.now }
{
    match bytes {
        [first, rest @ ..] => first.is_ascii_alphabetic() && are_name_bytes(rest),
        [] => false,
    }
}

fn are_name_bytes(bytes: &[u8]) -> bool
    ensures { result ≡ list_all is_name_byte bytes.now }
{
    bytes.iter().all(|b| is_name_byte(*b))
}

// Whether the bytes are a word of the language.
#[tactic(auto, unfolding(crate::specs::Names::keywords))]
fn is_keyword(word: &[u8]) -> bool
    ensures { result ≡ is_one_of keywords word.now }
{
    word == b"labels".as_slice()
        || word == b"order".as_slice()
        || word == b"var".as_slice()
        || word == b"skip".as_slice()
        || word == b"if".as_slice()
        || word == b"then".as_slice()
        || word == b"else".as_slice()
        || word == b"while".as_slice()
        || word == b"do".as_slice()
        || word == b"mitigate".as_slice()
        || word == b"sleep".as_slice()
}
