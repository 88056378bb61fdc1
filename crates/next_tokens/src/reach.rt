//! How many tokens begin a program, and what can stand behind these.

ghost use Rattle.std.specs.Prelude.{◌≡◌, ℕ, List, IfOk};
ghost use Rattle.mit_parser.specs.Words.{told};
ghost use Rattle.next_tokens.specs.Following.{all_sorts, Reaches};
ghost use Rattle.next_tokens.specs.Parts.{left_of, AreTaken, at_first, IsRead};

use crate::part::Part;
use crate::sort::{Sort, sort_in};
use crate::stack::{take, takes};
use mit_syntax::token::{Keyword, Sign, Token};
use std::alloc::{AllocError, Global};
use text_base::pos::Memory;

/// All sorts of tokens, in the order in which they are told.
static ALL_SORTS: [Sort; 36] = [
    Sort::Name,
    Sort::Number,
    Sort::Key(Keyword::Labels),
    Sort::Key(Keyword::Order),
    Sort::Key(Keyword::Var),
    Sort::Key(Keyword::Skip),
    Sort::Key(Keyword::If),
    Sort::Key(Keyword::Then),
    Sort::Key(Keyword::Else),
    Sort::Key(Keyword::While),
    Sort::Key(Keyword::Do),
    Sort::Key(Keyword::Mitigate),
    Sort::Key(Keyword::Sleep),
    Sort::Sign(Sign::Assign),
    Sort::Sign(Sign::Colon),
    Sort::Sign(Sign::Semicolon),
    Sort::Sign(Sign::Comma),
    Sort::Sign(Sign::LeftRound),
    Sort::Sign(Sign::RightRound),
    Sort::Sign(Sign::LeftBrace),
    Sort::Sign(Sign::RightBrace),
    Sort::Sign(Sign::LeftSquare),
    Sort::Sign(Sign::RightSquare),
    Sort::Sign(Sign::At),
    Sort::Sign(Sign::Plus),
    Sort::Sign(Sign::Minus),
    Sort::Sign(Sign::Star),
    Sort::Sign(Sign::Slash),
    Sort::Sign(Sign::Percent),
    Sort::Sign(Sign::Equal),
    Sort::Sign(Sign::NotEqual),
    Sort::Sign(Sign::Less),
    Sort::Sign(Sign::LessEqual),
    Sort::Sign(Sign::Greater),
    Sort::Sign(Sign::GreaterEqual),
    Sort::End,
];

/// How many of some tokens begin a program, and the sorts of tokens that can stand behind these, in the order of a table: names,
/// numbers, keywords, signs, the end.
#[derive(Drop)]
pub struct Reach {
    pub taken: usize,
    pub sorts: Vec<Sort>,
}

fn all_sorts() -> &'static [Sort]
    ensures { result.now ≡ all_sorts }
{
    &ALL_SORTS
}

// The sorts of the tokens that can stand before these parts.
fn sorts_before(alloc: Global, parts: &[Part]) -> Result<Vec<Sort>, AllocError>
    ensures { IfOk result (λ v. AreTaken (left_of parts.now) all_sorts v.items) }
{
    let mut sorts = Vec::new(alloc);
    for sort in all_sorts() {
        if takes(parts, *sort) {
            sorts.push(*sort)?;
        }
    }
    Ok(sorts)
}

fn first_parts(alloc: Global) -> Result<Vec<Part>, AllocError>
    ensures { IfOk result (λ v. v.items ≡ at_first) }
{
    let mut parts = Vec::new(alloc);
    parts.push(Part::WantEnd)?;
    parts.push(Part::Commands)?;
    parts.push(Part::Declarations)?;
    parts.push(Part::Header)?;
    Ok(parts)
}

// How many tokens begin a program, and what is still to be read behind these.
fn read(alloc: Global, tokens: &[Token]) -> Result<(usize, Vec<Part>), AllocError>
    ensures { IfOk result (λ r. (text : List ℕ) → IsRead (told text tokens.now) r.0 (left_of r.1.items)) }
{
    let mut parts = first_parts(alloc)?;
    for (i, token) in tokens.iter().enumerate() {
        let sort = sort_in(token.kind);
        if !takes(parts.as_slice(), sort) {
            return Ok((i, parts));
        }
        take(&mut parts, sort)?;
    }
    Ok((tokens.len(), parts))
}

/// How many tokens of a text begin a program, and the sorts of tokens that can stand behind these: a token is of one of these sorts
/// if and only if the tokens before, with it, are the beginning of what the grammar allows.
///
/// # Errors
/// `Memory` is want of memory.
pub fn reach_of(alloc: Global, tokens: &[Token]) -> Result<Reach, Memory>
    ensures { IfOk result (λ r. (text : List ℕ) → Reaches (told text tokens.now) r.taken r.sorts.items) }
{
    let (taken, parts) = read(alloc, tokens)?;
    let sorts = sorts_before(alloc, parts.as_slice())?;
    Ok(Reach { taken, sorts })
}
