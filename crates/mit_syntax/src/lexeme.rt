//! The longest token at the front of a text.

ghost use Rattle.std.specs.Prelude.{◌≡◌, ◌≢◌, ℕ, ◌<◌, ◌≤◌, true, false, length, slice_index, MatchBool, MatchResult, MatchOption};
ghost use Rattle.std.specs.Char.{is_ascii_digit, is_ascii_alphabetic};
ghost use Rattle.label_lattice.specs.Names.{is_name_byte, Each, keywords, is_one_of};
ghost use Rattle.mit_syntax.specs.declared.token.Keyword.{Keyword};
ghost use Rattle.mit_syntax.specs.Lexemes.{key_text, value};
ghost use Rattle.mit_syntax.specs.TokenSteps.{IsToken, HasFlaw, second_is_equal, sign_front};

use crate::token::{Keyword, Sign, TokenKind};
use label_lattice::name::MAX_NAME;

/// The greatest value of a number.
const MAX_LITERAL: u64 = 9223372036854775807;

/// What is wrong with the front of a text.
#[derive(Clone, Copy)]
pub enum Flaw {
    /// No token begins here.
    Bad,
    /// A number above the greatest value begins here.
    Wide,
    /// A name above the greatest length begins here.
    Long,
}

fn is_name_byte(b: u8) -> bool
    ensures { result ≡ is_name_byte b }
{
    b.is_ascii_alphabetic() || b.is_ascii_digit() || b == b'_'
}

/// How many bytes of names are at the front.
fn name_len(text: &[u8]) -> usize
    ensures within { result ≤ length text.now }
    ensures before { (k : ℕ) → k < result → is_name_byte (slice_index text.now k) ≡ true }
    ensures stops { result < length text.now → is_name_byte (slice_index text.now result) ≡ false }
{
    for (i, b) in text.iter().enumerate() {
        if !is_name_byte(*b) {
            return i;
        }
    }
    text.len()
}

/// How many digits are at the front.
fn digits_len(text: &[u8]) -> usize
    ensures within { result ≤ length text.now }
    ensures before { (k : ℕ) → k < result → is_ascii_digit (slice_index text.now k) ≡ true }
    ensures stops { result < length text.now → is_ascii_digit (slice_index text.now result) ≡ false }
{
    for (i, b) in text.iter().enumerate() {
        if !b.is_ascii_digit() {
            return i;
        }
    }
    text.len()
}

/// The value of digits, if it is not too large.
fn number_of(digits: &[u8]) -> Option<u64>
    requires { Each is_ascii_digit digits.now }
    ensures { MatchOption result (MAX_LITERAL < value digits.now) (λ n. (n ≡ value digits.now) × (n ≤ MAX_LITERAL)) }
{
    let mut n: u64 = 0;
    for b in digits {
        let digit = u64::from(*b - b'0');
        if n > (MAX_LITERAL - digit) / 10 {
            return None;
        }
        n = 10 * n + digit;
    }
    Some(n)
}

#[tactic(auto, using(crate::proofs::Keywords::no_keyword))]
fn keyword_of(word: &[u8]) -> Option<Keyword>
    ensures { MatchOption result (is_one_of keywords word.now ≡ false) (λ k. word.now ≡ key_text k) }
{
    match word {
        b"labels" => Some(Keyword::Labels),
        b"order" => Some(Keyword::Order),
        b"var" => Some(Keyword::Var),
        b"skip" => Some(Keyword::Skip),
        b"if" => Some(Keyword::If),
        b"then" => Some(Keyword::Then),
        b"else" => Some(Keyword::Else),
        b"while" => Some(Keyword::While),
        b"do" => Some(Keyword::Do),
        b"mitigate" => Some(Keyword::Mitigate),
        b"sleep" => Some(Keyword::Sleep),
        _ => None,
    }
}

/// The longest token at the front of a text that isn't empty, and how many bytes it has. A comment is not
/// known here.
pub fn lexeme(text: &[u8]) -> Result<(TokenKind, usize), Flaw>
    requires { 0 < length text.now }
    ensures { MatchResult result (λ t. IsToken text.now t.0 t.1) (HasFlaw text.now) }
{
    let first = text[0];
    if first.is_ascii_alphabetic() {
        return word(text);
    }
    if first.is_ascii_digit() {
        return number(text);
    }
    sign(text)
}

// Whether a word has more bytes than a name may have.
fn is_too_long(n: usize) -> bool
    ensures { MatchBool result (32 < n) (n ≤ 32) }
{
    n > MAX_NAME
}

fn word(text: &[u8]) -> Result<(TokenKind, usize), Flaw>
    requires some { 0 < length text.now }
    requires letter { is_ascii_alphabetic (slice_index text.now 0) ≡ true }
    ensures { MatchResult result (λ t. IsToken text.now t.0 t.1) (HasFlaw text.now) }
{
    let n = name_len(text);
    let spelled = &text[..n];
    if let Some(key) = keyword_of(spelled) {
        return Ok((TokenKind::Key(key), n));
    }
    if is_too_long(n) {
        return Err(Flaw::Long);
    }
    Ok((TokenKind::Name, n))
}

fn number(text: &[u8]) -> Result<(TokenKind, usize), Flaw>
    requires some { 0 < length text.now }
    requires digit { is_ascii_digit (slice_index text.now 0) ≡ true }
    ensures { MatchResult result (λ t. IsToken text.now t.0 t.1) (HasFlaw text.now) }
{
    let n = digits_len(text);
    let spelled = &text[..n];
    match number_of(spelled) {
        Some(value) => Ok((TokenKind::Number(value as i64), n)),
        None => Err(Flaw::Wide),
    }
}

fn second_is_equal(text: &[u8]) -> bool
    ensures { result ≡ second_is_equal text.now }
{
    match text {
        [_, b, ..] => *b == b'=',
        _ => false,
    }
}

/// The longest sign that begins with this byte, and how many bytes it has. `equal`: the byte is followed
/// by `=`.
fn sign_front(first: u8, equal: bool) -> Option<(Sign, usize)>
    ensures { result ≡ sign_front first equal }
{
    match first {
        b':' => {
            if equal {
                Some((Sign::Assign, 2))
            } else {
                Some((Sign::Colon, 1))
            }
        }
        b'<' => {
            if equal {
                Some((Sign::LessEqual, 2))
            } else {
                Some((Sign::Less, 1))
            }
        }
        b'>' => {
            if equal {
                Some((Sign::GreaterEqual, 2))
            } else {
                Some((Sign::Greater, 1))
            }
        }
        b'=' => { if equal { Some((Sign::Equal, 2)) } else { None } }
        b'!' => {
            if equal {
                Some((Sign::NotEqual, 2))
            } else {
                None
            }
        }
        b';' => Some((Sign::Semicolon, 1)),
        b',' => Some((Sign::Comma, 1)),
        b'(' => Some((Sign::LeftRound, 1)),
        b')' => Some((Sign::RightRound, 1)),
        b'{' => Some((Sign::LeftBrace, 1)),
        b'}' => Some((Sign::RightBrace, 1)),
        b'[' => Some((Sign::LeftSquare, 1)),
        b']' => Some((Sign::RightSquare, 1)),
        b'@' => Some((Sign::At, 1)),
        b'+' => Some((Sign::Plus, 1)),
        b'-' => Some((Sign::Minus, 1)),
        b'*' => Some((Sign::Star, 1)),
        b'/' => Some((Sign::Slash, 1)),
        b'%' => Some((Sign::Percent, 1)),
        _ => None,
    }
}

fn sign(text: &[u8]) -> Result<(TokenKind, usize), Flaw>
    requires some { 0 < length text.now }
    requires no_letter { is_ascii_alphabetic (slice_index text.now 0) ≡ false }
    requires no_digit { is_ascii_digit (slice_index text.now 0) ≡ false }
    ensures { MatchResult result (λ t. IsToken text.now t.0 t.1) (HasFlaw text.now) }
{
    match sign_front(text[0], second_is_equal(text)) {
        Some((sign, n)) => Ok((TokenKind::Sign(sign), n)),
        None => Err(Flaw::Bad),
    }
}
