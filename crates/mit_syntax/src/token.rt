//! Tokens.

ghost use Rattle.std.specs.Prelude.{◌≡◌};
ghost use Rattle.mit_syntax.specs.Lexemes.{key_text, sign_text};

use text_base::pos::Pos;

/// A word of the language that is no name.
#[derive(Clone, Copy, Debug, PartialEq, Eq)]
pub enum Keyword {
    Labels,
    Order,
    Var,
    Skip,
    If,
    Then,
    Else,
    While,
    Do,
    Mitigate,
    Sleep,
}

impl Keyword {
    /// The text of a keyword.
    pub fn text(self) -> &'static [u8]
        ensures { result.now ≡ key_text self }
    {
        match self {
            Keyword::Labels => b"labels".as_slice(),
            Keyword::Order => b"order".as_slice(),
            Keyword::Var => b"var".as_slice(),
            Keyword::Skip => b"skip".as_slice(),
            Keyword::If => b"if".as_slice(),
            Keyword::Then => b"then".as_slice(),
            Keyword::Else => b"else".as_slice(),
            Keyword::While => b"while".as_slice(),
            Keyword::Do => b"do".as_slice(),
            Keyword::Mitigate => b"mitigate".as_slice(),
            Keyword::Sleep => b"sleep".as_slice(),
        }
    }
}

/// A sign of punctuation or an operator.
#[derive(Clone, Copy, Debug, PartialEq, Eq)]
pub enum Sign {
    Assign,
    Colon,
    Semicolon,
    Comma,
    LeftRound,
    RightRound,
    LeftBrace,
    RightBrace,
    LeftSquare,
    RightSquare,
    At,
    Plus,
    Minus,
    Star,
    Slash,
    Percent,
    Equal,
    NotEqual,
    LessEqual,
    Less,
    GreaterEqual,
    Greater,
}

impl Sign {
    /// The text of a sign.
    pub fn text(self) -> &'static [u8]
        ensures { result.now ≡ sign_text self }
    {
        match self {
            Sign::Assign => b":=".as_slice(),
            Sign::Colon => b":".as_slice(),
            Sign::Semicolon => b";".as_slice(),
            Sign::Comma => b",".as_slice(),
            Sign::LeftRound => b"(".as_slice(),
            Sign::RightRound => b")".as_slice(),
            Sign::LeftBrace => b"{".as_slice(),
            Sign::RightBrace => b"}".as_slice(),
            Sign::LeftSquare => b"[".as_slice(),
            Sign::RightSquare => b"]".as_slice(),
            Sign::At => b"@".as_slice(),
            Sign::Plus => b"+".as_slice(),
            Sign::Minus => b"-".as_slice(),
            Sign::Star => b"*".as_slice(),
            Sign::Slash => b"/".as_slice(),
            Sign::Percent => b"%".as_slice(),
            Sign::Equal => b"==".as_slice(),
            Sign::NotEqual => b"!=".as_slice(),
            Sign::LessEqual => b"<=".as_slice(),
            Sign::Less => b"<".as_slice(),
            Sign::GreaterEqual => b">=".as_slice(),
            Sign::Greater => b">".as_slice(),
        }
    }
}

/// What a token is. `End` is the last token of each list.
#[derive(Clone, Copy, Debug, PartialEq, Eq)]
pub enum TokenKind {
    Key(Keyword),
    Name,
    Number(i64),
    Sign(Sign),
    End,
}

/// A token: its kind, the bytes from `from` up to but not including `to` of the text, and the position
/// of the first of them.
#[derive(Clone, Copy, Debug, PartialEq, Eq)]
pub struct Token {
    pub kind: TokenKind,
    pub from: u32,
    pub to: u32,
    pub pos: Pos,
}
