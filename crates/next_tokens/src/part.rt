//! The parts of a text that are still to be read, each with what it does at a token.

ghost use Rattle.std.specs.Prelude.{◌≡◌, ◌∷◌, [], cond};
ghost use Rattle.next_tokens.specs.Parts.{meeting_of, goes, stuck, left_out, meet_atom, meet_command, meet_shape, meet};

use crate::sort::Sort;
use mit_syntax::token::{Keyword, Sign};

/// A part that is still to be read.
#[derive(Clone, Copy, Debug, PartialEq, Eq)]
pub enum Part {
    WantKey(Keyword),
    WantSign(Sign),
    WantEnd,
    Atom,
    Index,
    Term,
    Factors,
    Sum,
    Addends,
    Expression,
    Comparison,
    Name,
    Number,
    Marks,
    Second,
    Command,
    Block,
    Commands,
    More,
    Otherwise,
    Names,
    MoreNames,
    Pair,
    Pairs,
    MorePairs,
    Ordering,
    Header,
    Shape,
    Declarations,
}

/// What a part does at a token.
#[derive(Clone, Copy)]
pub enum Move {
    /// The token can't stand there.
    Stuck,
    /// Nothing of the part is there: what comes behind it meets the token.
    Over,
    /// The token begins the part, and these parts are to be read in place of it, the last one first.
    Goes(&'static [Part]),
}

// A part that has to be there; these are to be read in place of it.
fn must_begin(begins: bool, after: &'static [Part]) -> Move
    ensures { meeting_of result ≡ cond begins (goes after.now) stuck }
{
    if begins {
        Move::Goes(after)
    } else {
        Move::Stuck
    }
}

// A part that may be left out.
fn may_begin(begins: bool, after: &'static [Part]) -> Move
    ensures { meeting_of result ≡ left_out begins after.now }
{
    if begins {
        Move::Goes(after)
    } else {
        Move::Over
    }
}

fn meet_atom(sort: Sort) -> Move
    ensures { meeting_of result ≡ meet_atom [] sort }
{
    match sort {
        Sort::Number => Move::Goes(&[]),
        Sort::Name => Move::Goes(&[Part::Index]),
        Sort::Sign(Sign::LeftRound) => {
            Move::Goes(&[Part::WantSign(Sign::RightRound), Part::Expression])
        }
        _ => Move::Stuck,
    }
}

fn meet_term(sort: Sort) -> Move
    ensures { meeting_of result ≡ meet_atom (Part.Factors ∷ []) sort }
{
    match sort {
        Sort::Number => Move::Goes(&[Part::Factors]),
        Sort::Name => Move::Goes(&[Part::Factors, Part::Index]),
        Sort::Sign(Sign::LeftRound) => Move::Goes(&[
            Part::Factors,
            Part::WantSign(Sign::RightRound),
            Part::Expression,
        ]),
        _ => Move::Stuck,
    }
}

fn meet_sum(sort: Sort) -> Move
    ensures { meeting_of result ≡ meet_atom (Part.Addends ∷ Part.Factors ∷ []) sort }
{
    match sort {
        Sort::Number => Move::Goes(&[Part::Addends, Part::Factors]),
        Sort::Name => Move::Goes(&[Part::Addends, Part::Factors, Part::Index]),
        Sort::Sign(Sign::LeftRound) => Move::Goes(&[
            Part::Addends,
            Part::Factors,
            Part::WantSign(Sign::RightRound),
            Part::Expression,
        ]),
        _ => Move::Stuck,
    }
}

fn meet_expression(sort: Sort) -> Move
    ensures { meeting_of result ≡ meet_atom (Part.Comparison ∷ Part.Addends ∷ Part.Factors ∷ []) sort }
{
    match sort {
        Sort::Number => Move::Goes(&[Part::Comparison, Part::Addends, Part::Factors]),
        Sort::Name => Move::Goes(&[Part::Comparison, Part::Addends, Part::Factors, Part::Index]),
        Sort::Sign(Sign::LeftRound) => Move::Goes(&[
            Part::Comparison,
            Part::Addends,
            Part::Factors,
            Part::WantSign(Sign::RightRound),
            Part::Expression,
        ]),
        _ => Move::Stuck,
    }
}

fn meet_command(sort: Sort) -> Move
    ensures { meeting_of result ≡ meet_command [] sort }
{
    match sort {
        Sort::Name => Move::Goes(&[
            Part::Marks,
            Part::Expression,
            Part::WantSign(Sign::Assign),
            Part::Index,
        ]),
        Sort::Key(Keyword::Skip) => Move::Goes(&[Part::Marks]),
        Sort::Key(Keyword::Sleep) => Move::Goes(&[Part::Marks, Part::Expression]),
        Sort::Key(Keyword::If) => Move::Goes(&[
            Part::Otherwise,
            Part::Block,
            Part::WantKey(Keyword::Then),
            Part::Marks,
            Part::Expression,
        ]),
        Sort::Key(Keyword::While) => Move::Goes(&[
            Part::Block,
            Part::WantKey(Keyword::Do),
            Part::Marks,
            Part::Expression,
        ]),
        Sort::Key(Keyword::Mitigate) => Move::Goes(&[
            Part::Block,
            Part::Marks,
            Part::WantSign(Sign::RightRound),
            Part::Second,
            Part::Expression,
            Part::WantSign(Sign::LeftRound),
        ]),
        _ => Move::Stuck,
    }
}

fn meet_commands(sort: Sort) -> Move
    ensures { meeting_of result ≡ meet_command (Part.More ∷ []) sort }
{
    match sort {
        Sort::Name => Move::Goes(&[
            Part::More,
            Part::Marks,
            Part::Expression,
            Part::WantSign(Sign::Assign),
            Part::Index,
        ]),
        Sort::Key(Keyword::Skip) => Move::Goes(&[Part::More, Part::Marks]),
        Sort::Key(Keyword::Sleep) => Move::Goes(&[Part::More, Part::Marks, Part::Expression]),
        Sort::Key(Keyword::If) => Move::Goes(&[
            Part::More,
            Part::Otherwise,
            Part::Block,
            Part::WantKey(Keyword::Then),
            Part::Marks,
            Part::Expression,
        ]),
        Sort::Key(Keyword::While) => Move::Goes(&[
            Part::More,
            Part::Block,
            Part::WantKey(Keyword::Do),
            Part::Marks,
            Part::Expression,
        ]),
        Sort::Key(Keyword::Mitigate) => Move::Goes(&[
            Part::More,
            Part::Block,
            Part::Marks,
            Part::WantSign(Sign::RightRound),
            Part::Second,
            Part::Expression,
            Part::WantSign(Sign::LeftRound),
        ]),
        _ => Move::Stuck,
    }
}

fn meet_shape(sort: Sort) -> Move
    ensures { meeting_of result ≡ meet_shape sort }
{
    if sort.is_sign(Sign::LeftSquare) {
        return Move::Goes(&[
            Part::Name,
            Part::WantSign(Sign::Colon),
            Part::WantSign(Sign::RightSquare),
            Part::Number,
        ]);
    }
    may_begin(sort.is_sign(Sign::Colon), &[Part::Name])
}

/// What a part does at a token of a sort.
pub fn meet(part: Part, sort: Sort) -> Move
    ensures { meeting_of result ≡ meet part sort }
{
    match part {
        Part::WantKey(key) => must_begin(sort.is_key(key), &[]),
        Part::WantSign(sign) => must_begin(sort.is_sign(sign), &[]),
        Part::WantEnd => must_begin(sort.is_end(), &[]),
        Part::Atom => meet_atom(sort),
        Part::Index => may_begin(
            sort.is_sign(Sign::LeftSquare),
            &[Part::WantSign(Sign::RightSquare), Part::Expression],
        ),
        Part::Term => meet_term(sort),
        Part::Factors => may_begin(sort.is_operator(3), &[Part::Factors, Part::Atom]),
        Part::Sum => meet_sum(sort),
        Part::Addends => may_begin(sort.is_operator(2), &[Part::Addends, Part::Term]),
        Part::Expression => meet_expression(sort),
        Part::Comparison => may_begin(sort.is_operator(1), &[Part::Sum]),
        Part::Name => must_begin(sort.is_name(), &[]),
        Part::Number => must_begin(sort.is_number(), &[]),
        Part::Marks => may_begin(
            sort.is_sign(Sign::At),
            &[
                Part::WantSign(Sign::RightSquare),
                Part::Second,
                Part::Name,
                Part::WantSign(Sign::LeftSquare),
            ],
        ),
        Part::Second => may_begin(sort.is_sign(Sign::Comma), &[Part::Name]),
        Part::Command => meet_command(sort),
        Part::Block => must_begin(
            sort.is_sign(Sign::LeftBrace),
            &[Part::WantSign(Sign::RightBrace), Part::Commands],
        ),
        Part::Commands => meet_commands(sort),
        Part::More => may_begin(sort.is_sign(Sign::Semicolon), &[Part::More, Part::Command]),
        Part::Otherwise => may_begin(sort.is_key(Keyword::Else), &[Part::Block]),
        Part::Names => must_begin(sort.is_name(), &[Part::MoreNames]),
        Part::MoreNames => may_begin(sort.is_sign(Sign::Comma), &[Part::MoreNames, Part::Name]),
        Part::Pair => must_begin(sort.is_name(), &[Part::Name, Part::WantSign(Sign::Less)]),
        Part::Pairs => must_begin(
            sort.is_name(),
            &[Part::MorePairs, Part::Name, Part::WantSign(Sign::Less)],
        ),
        Part::MorePairs => may_begin(sort.is_sign(Sign::Comma), &[Part::MorePairs, Part::Pair]),
        Part::Ordering => may_begin(
            sort.is_key(Keyword::Order),
            &[Part::WantSign(Sign::Semicolon), Part::Pairs],
        ),
        Part::Header => may_begin(
            sort.is_key(Keyword::Labels),
            &[Part::Ordering, Part::WantSign(Sign::Semicolon), Part::Names],
        ),
        Part::Shape => meet_shape(sort),
        Part::Declarations => may_begin(
            sort.is_key(Keyword::Var),
            &[
                Part::Declarations,
                Part::WantSign(Sign::Semicolon),
                Part::Shape,
                Part::Name,
            ],
        ),
    }
}
