//! The sorts of tokens.

ghost use Rattle.std.specs.Prelude.{◌≡◌};
ghost use Rattle.next_tokens.specs.Sorts.{sort_in, has_key, has_sign, has_rank, is_a_name, is_a_number, is_the_end};

use mit_syntax::operators::{op_of, rank};
use mit_syntax::token::{Keyword, Sign, TokenKind};

/// A token without its bytes: names are one sort, and so are numbers.
#[derive(Clone, Copy, Debug, PartialEq, Eq)]
pub enum Sort {
    Key(Keyword),
    Sign(Sign),
    Name,
    Number,
    /// The end of the text.
    End,
}

impl Sort {
    /// Whether it is this keyword.
    pub fn is_key(self, key: Keyword) -> bool
        ensures { result ≡ has_key key self }
    {
        match self {
            Sort::Key(k) => k as u8 == key as u8,
            _ => false,
        }
    }

    /// Whether it is this sign.
    pub fn is_sign(self, sign: Sign) -> bool
        ensures { result ≡ has_sign sign self }
    {
        match self {
            Sort::Sign(s) => s as u8 == sign as u8,
            _ => false,
        }
    }

    /// Whether it is an operator of a rank (1, 2 or 3).
    pub fn is_operator(self, wanted: u32) -> bool
        ensures { result ≡ has_rank wanted self }
    {
        let Sort::Sign(sign) = self else {
            return false;
        };
        match op_of(sign) {
            Some(op) => rank(op) == wanted,
            None => false,
        }
    }

    /// Whether it is the names.
    pub fn is_name(self) -> bool
        ensures { result ≡ is_a_name self }
    {
        match self {
            Sort::Name => true,
            _ => false,
        }
    }

    /// Whether it is the numbers.
    pub fn is_number(self) -> bool
        ensures { result ≡ is_a_number self }
    {
        match self {
            Sort::Number => true,
            _ => false,
        }
    }

    /// Whether it is the end of the text.
    pub fn is_end(self) -> bool
        ensures { result ≡ is_the_end self }
    {
        match self {
            Sort::End => true,
            _ => false,
        }
    }
}

/// The sort of a token of a kind.
pub fn sort_in(kind: TokenKind) -> Sort
    ensures { result ≡ sort_in kind }
{
    match kind {
        TokenKind::Key(key) => Sort::Key(key),
        TokenKind::Sign(sign) => Sort::Sign(sign),
        TokenKind::Name => Sort::Name,
        TokenKind::Number(_) => Sort::Number,
        TokenKind::End => Sort::End,
    }
}
