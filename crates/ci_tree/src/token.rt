//! The tokens of a source.
ghost use Rattle.std.specs.Prelude.{◌≡◌, ◌≤◌, length};
ghost use Rattle.ci_base.specs.declared.bounds.TheConstants.{MOST_TOKENS};
ghost use Rattle.ci_tree.specs.Tokens.{AreKept};

use ci_base::Bytes;
use std::marker::Model;

/// The keywords, in any letter case. `TRUE` and `FALSE` aren't among them: they make numbers.
#[derive(Clone, Copy, Debug, PartialEq, Eq)]
pub enum Keyword {
    Function,
    End,
    If,
    Then,
    Else,
    While,
    Do,
    For,
    To,
    Select,
    Case,
    Is,
    Return,
    Private,
    Public,
    Global,
    Module,
    Int,
    String,
    Real,
    Object,
    Quality,
    Timestamp,
    And,
    Or,
    Not,
    Mod,
    BitAnd,
    BitOr,
    BitXor,
}

/// The signs.
#[derive(Clone, Copy, Debug, PartialEq, Eq)]
pub enum Sign {
    /// `(`
    LeftParen,
    /// `)`
    RightParen,
    /// `[`
    LeftBracket,
    /// `]`
    RightBracket,
    /// `,`
    Comma,
    /// `;`
    Semicolon,
    /// `:`
    Colon,
    /// `=`
    Equal,
    /// `<>`
    Unequal,
    /// `<`
    Less,
    /// `>`
    Greater,
    /// `<=`
    AtMost,
    /// `>=`
    AtLeast,
    /// `+`
    Plus,
    /// `-`
    Minus,
    /// `*`
    Star,
    /// `/`
    Slash,
}

/// What a token is.
#[derive(Debug, Drop)]
pub enum TokenKind {
    /// A name of at most 64 bytes, as it is spelled; letter case is kept and has no meaning.
    Name(Bytes),
    Keyword(Keyword),
    /// A number, taken modulo 2^32 as an INT; `TRUE` is 1 and `FALSE` is 0.
    Number(i32),
    /// The value of a text, its escapes resolved, at most 255 bytes.
    Text(Bytes),
    /// So many `#`, 1 to 255.
    Hashes(u32),
    Sign(Sign),
}

/// A token of a source.
#[derive(Debug, Drop)]
pub struct Token {
    pub what: TokenKind,
    /// The offset of its first byte in the source.
    pub place: u32,
}

/// The tokens of a source, at most 262,144, each as its kind is spelled; their places rise. Contracts see the list.
#[derive(Debug, Drop)]
pub struct TokenList {
    kept: Vec<Token>,
}

impl Model for TokenList {
    ghost use Rattle.std.specs.Prelude.{List, ◌≤◌, length};
    ghost use Rattle.ci_tree.specs.declared.token.Token.{Token};
    ghost use Rattle.ci_base.specs.declared.bounds.TheConstants.{MOST_TOKENS};
    ghost use Rattle.ci_tree.specs.Tokens.{AreKept};

    ghost Value = { List Token };

    ghost view = { λ list. list.kept.items };

    ghost invariant = { λ list. (length list.kept.items ≤ MOST_TOKENS) × AreKept 0 list.kept.items };
}

impl TokenList {
    /// The list of these tokens.
    pub fn of(tokens: Vec<Token>) -> TokenList
        requires within { length tokens.items ≤ MOST_TOKENS }
        requires kept { AreKept 0 tokens.items }
        ensures { result ≡ tokens.items }
    {
        TokenList { kept: tokens }
    }

    /// The tokens, in order.
    pub fn tokens(&self) -> &[Token]
        ensures value { result.now ≡ self.now }
        ensures within { length result.now ≤ MOST_TOKENS }
        ensures kept { AreKept 0 result.now }
    {
        self.kept.as_slice()
    }
}
