//! Mistakes that are often made by those who know another language.

ghost use Rattle.std.specs.Prelude.{◌≡◌};
ghost use Rattle.fault_print.specs.Traps.{trap_line, trap_lines, with_key, with_sign, with_number, begins_command, is_elif, assigns, name_trap, declared_trap};
ghost use Rattle.fault_print.specs.Traps.{semicolon_trap, begins_body, behind_semicolon, is_else_if, other_trap, token_trap, equals_trap, byte_trap};
ghost use Rattle.fault_print.specs.Traps.{ends_command, is_pass, is_denied, word_trap, value_trap, is_unknown, only_semicolon, is_declared};

use mit_syntax::token::{Keyword, Sign};
use next_tokens::sort::Sort;

/// A mistake, told by a sentence.
#[derive(Clone, Copy, Debug, PartialEq, Eq)]
pub enum Trap {
    Assign,
    Equality,
    For,
    Declaration,
    Call,
    LastSemicolon,
    BeforeElse,
    Negative,
    OneVar,
    NoValue,
    Then,
    Do,
    ElseIf,
    LateVar,
    Between,
    Comment,
    And,
    Or,
    Not,
    Whole,
    Body,
    Chain,
    Choice,
    Array,
    Nothing,
    OneLeft,
}

/// The sentence of a mistake.
pub(crate) fn trap_line(trap: Trap) -> &'static [u8]
    ensures { result.now ≡ trap_line trap }
{
    match trap {
        Trap::Assign => b"an assignment is written NAME := VALUE\n".as_slice(),
        Trap::Equality => b"equality is written ==\n".as_slice(),
        Trap::For => b"there is no for: write while .. do { .. }\n".as_slice(),
        Trap::Declaration => {
            b"a variable is declared before the commands, as var NAME;\n".as_slice()
        }
        Trap::Call => b"there are no functions\n".as_slice(),
        Trap::LastSemicolon => {
            b"a ; stands between two commands, and none behind the last one\n".as_slice()
        }
        Trap::BeforeElse => b"no ; stands before else\n".as_slice(),
        Trap::Negative => b"a number has no sign: write 0 - 1 for -1\n".as_slice(),
        Trap::OneVar => b"each variable has a var of its own\n".as_slice(),
        Trap::NoValue => {
            b"a declaration gives no value: a command or a start file does\n".as_slice()
        }
        Trap::Then => b"behind the guard of an if stands then\n".as_slice(),
        Trap::Do => b"behind the guard of a while stands do\n".as_slice(),
        Trap::ElseIf => b"behind else stands a block: else { if .. then { .. } }\n".as_slice(),
        Trap::LateVar => b"all declarations stand before the first command\n".as_slice(),
        Trap::Between => b"between two commands stands a ;\n".as_slice(),
        Trap::Comment => b"a comment begins with //\n".as_slice(),
        Trap::And => {
            b"there is no and: write an if in an if, or multiply two comparisons\n".as_slice()
        }
        Trap::Or => {
            b"there is no or: write an if in an else, or add two comparisons\n".as_slice()
        }
        Trap::Not => b"there is no not: compare with 0\n".as_slice(),
        Trap::Whole => b"values are whole numbers\n".as_slice(),
        Trap::Body => b"a body stands in braces: { .. }\n".as_slice(),
        Trap::Chain => {
            b"a comparison has two sides: multiply two, as (a < b) * (b < c)\n".as_slice()
        }
        Trap::Choice => {
            b"a choice is a command and has no value: if .. then { .. } else { .. }\n".as_slice()
        }
        Trap::Array => b"an array is declared as var NAME[LENGTH] : LABEL;\n".as_slice(),
        Trap::Nothing => b"what does nothing is skip\n".as_slice(),
        Trap::OneLeft => b"an assignment has one variable on its left side\n".as_slice(),
    }
}

/// The sentence of a mistake, if there is one.
pub(crate) fn trap_lines(trap: Option<Trap>) -> &'static [u8]
    ensures { result.now ≡ trap_lines trap }
{
    match trap {
        Some(trap) => trap_line(trap),
        None => b"".as_slice(),
    }
}

fn with_key(sorts: &[Sort], key: Keyword) -> bool
    ensures { result ≡ with_key key sorts.now }
{
    for sort in sorts {
        if sort.is_key(key) {
            return true;
        }
    }
    false
}

fn with_sign(sorts: &[Sort], sign: Sign) -> bool
    ensures { result ≡ with_sign sign sorts.now }
{
    for sort in sorts {
        if sort.is_sign(sign) {
            return true;
        }
    }
    false
}

fn with_number(sorts: &[Sort]) -> bool
    ensures { result ≡ with_number sorts.now }
{
    for sort in sorts {
        if sort.is_number() {
            return true;
        }
    }
    false
}

fn begins_command(sort: Sort) -> bool
    ensures { result ≡ begins_command sort }
{
    sort.is_name()
        || sort.is_key(Keyword::Skip)
        || sort.is_key(Keyword::If)
        || sort.is_key(Keyword::While)
        || sort.is_key(Keyword::Mitigate)
        || sort.is_key(Keyword::Sleep)
}

fn begins_body(sort: Sort) -> bool
    ensures { result ≡ begins_body sort }
{
    begins_command(sort) || sort.is_sign(Sign::LeftBrace) || sort.is_sign(Sign::Colon)
}

fn is_elif(word: &[u8]) -> bool
    ensures { result ≡ is_elif word.now }
{
    word == b"elif".as_slice() || word == b"elsif".as_slice()
}

// Whether a sign behind a name would be that of an assignment in another language.
fn assigns(sort: Sort, next: Sort) -> bool
    ensures { result ≡ assigns sort next }
{
    sort.is_sign(Sign::Equal)
        || sort.is_sign(Sign::Plus)
        || sort.is_sign(Sign::Minus)
        || sort.is_sign(Sign::Less) && next.is_sign(Sign::Minus)
}

fn ends_command(sort: Sort) -> bool
    ensures { result ≡ ends_command sort }
{
    sort.is_sign(Sign::Semicolon) || sort.is_sign(Sign::RightBrace) || sort.is_end()
}

fn is_pass(word: &[u8], sort: Sort) -> bool
    ensures { result ≡ is_pass word.now sort }
{
    word == b"pass".as_slice() && ends_command(sort)
}

fn name_trap(before: &[u8], sort: Sort, next: Sort) -> Option<Trap>
    ensures { result ≡ name_trap before.now sort next }
{
    if before == b"for".as_slice() {
        return Some(Trap::For);
    }
    if is_pass(before, sort) {
        return Some(Trap::Nothing);
    }
    if sort.is_name() {
        return Some(Trap::Declaration);
    }
    if sort.is_sign(Sign::LeftRound) {
        return Some(Trap::Call);
    }
    if sort.is_sign(Sign::Comma) {
        return Some(Trap::OneLeft);
    }
    if assigns(sort, next) {
        return Some(Trap::Assign);
    }
    None
}

fn declared_trap(sort: Sort) -> Option<Trap>
    ensures { result ≡ declared_trap sort }
{
    if sort.is_sign(Sign::Comma) {
        return Some(Trap::OneVar);
    }
    if sort.is_sign(Sign::Assign) {
        return Some(Trap::NoValue);
    }
    if sort.is_sign(Sign::Semicolon) {
        return Some(Trap::Array);
    }
    None
}

fn semicolon_trap(sort: Sort) -> Option<Trap>
    ensures { result ≡ semicolon_trap sort }
{
    if sort.is_sign(Sign::RightBrace) || sort.is_end() {
        return Some(Trap::LastSemicolon);
    }
    if sort.is_key(Keyword::Else) {
        return Some(Trap::BeforeElse);
    }
    None
}

fn is_else_if(before: Sort, sort: Sort, word: &[u8], could: &[Sort]) -> bool
    ensures { result ≡ is_else_if before sort word.now could.now }
{
    with_key(could, Keyword::Else) && is_elif(word)
        || before.is_key(Keyword::Else) && sort.is_key(Keyword::If)
}

fn is_denied(before: &[u8], sort: Sort) -> bool
    ensures { result ≡ is_denied before.now sort }
{
    before == b"not".as_slice() && (sort.is_name() || sort.is_sign(Sign::LeftRound))
}

fn word_trap(before: &[u8], sort: Sort, word: &[u8]) -> Option<Trap>
    ensures { result ≡ word_trap before.now sort word.now }
{
    if word == b"and".as_slice() {
        return Some(Trap::And);
    }
    if word == b"or".as_slice() {
        return Some(Trap::Or);
    }
    if is_denied(before, sort) {
        return Some(Trap::Not);
    }
    None
}

fn value_trap(before: Sort, sort: Sort, could: &[Sort]) -> Option<Trap>
    ensures { result ≡ value_trap before sort could.now }
{
    if sort.is_sign(Sign::LeftRound) && before.is_name() {
        return Some(Trap::Call);
    }
    if with_number(could) && sort.is_key(Keyword::If) {
        return Some(Trap::Choice);
    }
    if sort.is_sign(Sign::LeftSquare) && before.is_sign(Sign::Colon) {
        return Some(Trap::Array);
    }
    if sort.is_operator(1) && with_sign(could, Sign::Plus) {
        return Some(Trap::Chain);
    }
    if with_number(could) && sort.is_sign(Sign::Minus) {
        return Some(Trap::Negative);
    }
    None
}

fn other_trap(before: Sort, sort: Sort, word: &[u8], could: &[Sort]) -> Option<Trap>
    ensures { result ≡ other_trap before sort word.now could.now }
{
    if is_else_if(before, sort, word, could) {
        return Some(Trap::ElseIf);
    }
    if with_key(could, Keyword::Then) && begins_body(sort) {
        return Some(Trap::Then);
    }
    if with_key(could, Keyword::Do) && begins_body(sort) {
        return Some(Trap::Do);
    }
    if with_sign(could, Sign::LeftBrace) && begins_command(sort) {
        return Some(Trap::Body);
    }
    if sort.is_key(Keyword::Var) {
        return Some(Trap::LateVar);
    }
    if with_sign(could, Sign::Semicolon) && begins_command(sort) {
        return Some(Trap::Between);
    }
    if sort.is_sign(Sign::Slash) {
        return Some(Trap::Comment);
    }
    None
}

fn behind_semicolon(before: Sort, sort: Sort) -> Option<Trap>
    ensures { result ≡ behind_semicolon before sort }
{
    if before.is_sign(Sign::Semicolon) {
        return semicolon_trap(sort);
    }
    None
}

fn only_semicolon(could: &[Sort]) -> bool
    ensures { result ≡ only_semicolon could.now }
{
    match could {
        [only] => only.is_sign(Sign::Semicolon),
        _ => false,
    }
}

fn is_declared(could: &[Sort]) -> bool
    ensures { result ≡ is_declared could.now }
{
    with_sign(could, Sign::Colon) || only_semicolon(could)
}

/// The mistake that a token shows which can't stand at its place, by the sorts of the tokens around it, its word and that of the one
/// before it, and by what could stand there.
pub(crate) fn token_trap(
    before: Sort,
    before_word: &[u8],
    sort: Sort,
    word: &[u8],
    next: Sort,
    could: &[Sort],
) -> Option<Trap>
    ensures { result ≡ token_trap before before_word.now sort word.now next could.now }
{
    if with_sign(could, Sign::Assign) && before.is_name() {
        return name_trap(before_word, sort, next);
    }
    if is_declared(could) {
        return declared_trap(sort);
    }
    if let Some(trap) = behind_semicolon(before, sort) {
        return Some(trap);
    }
    if let Some(trap) = word_trap(before_word, sort, word) {
        return Some(trap);
    }
    if let Some(trap) = value_trap(before, sort, could) {
        return Some(trap);
    }
    other_trap(before, sort, word, could)
}

fn equals_trap(could: &[Sort]) -> Option<Trap>
    ensures { result ≡ equals_trap could.now }
{
    if with_sign(could, Sign::Assign) || could.is_empty() {
        return Some(Trap::Assign);
    }
    if with_sign(could, Sign::Equal) {
        return Some(Trap::Equality);
    }
    if is_declared(could) {
        return Some(Trap::NoValue);
    }
    None
}

/// The mistake that a byte shows with which no word begins, by what could stand there.
pub(crate) fn byte_trap(b: u8, could: &[Sort]) -> Option<Trap>
    ensures { result ≡ byte_trap b could.now }
{
    match b {
        b'=' => equals_trap(could),
        b'!' => Some(Trap::Not),
        b'&' => Some(Trap::And),
        b'|' => Some(Trap::Or),
        b'#' => Some(Trap::Comment),
        b'?' => Some(Trap::Choice),
        b'"' | b'\'' | b'.' => Some(Trap::Whole),
        _ => None,
    }
}
