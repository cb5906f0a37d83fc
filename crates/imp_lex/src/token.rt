//! Tokens, their kinds and their spans: what `tokens` gives.
use base_values::{Number, Text};

/// A token: its kind, and where it stands.
#[derive(Debug, Drop)]
pub struct Token {
    pub kind: TokenKind,
    pub span: Span,
}

/// The bytes of a token: from `start` up to but not including `end`, counted from 0.
#[derive(Clone, Copy, Debug, PartialEq, Eq, Hash)]
pub struct Span {
    pub start: usize,
    pub end: usize,
}

/// What a token is.
#[derive(Debug, Drop)]
pub enum TokenKind {
    /// A reserved word.
    Word(Word),
    /// A mark of one byte or two.
    Mark(Mark),
    /// A name of 1 to 32 bytes.
    Name(Text),
    /// A number.
    Number(Number),
}

/// A reserved word.
#[derive(Clone, Copy, Debug, PartialEq, Eq, Hash)]
pub enum Word {
    Proc,
    Var,
    Int,
    Array,
    List,
    Skip,
    Input,
    Null,
    New,
    Next,
    Item,
    Assert,
    If,
    Else,
    While,
    Call,
    Len,
    Break,
}

/// A mark.
#[derive(Clone, Copy, Debug, PartialEq, Eq, Hash)]
pub enum Mark {
    /// `->`
    Arrow,
    /// `==`
    EqualTo,
    /// `!=`
    NotEqualTo,
    /// `<=`
    AtMost,
    /// `>=`
    AtLeast,
    /// `&&`
    And,
    /// `||`
    Or,
    /// `(`
    OpenParenthesis,
    /// `)`
    CloseParenthesis,
    /// `{`
    OpenBrace,
    /// `}`
    CloseBrace,
    /// `[`
    OpenBracket,
    /// `]`
    CloseBracket,
    /// `:`
    Colon,
    /// `;`
    Semicolon,
    /// `,`
    Comma,
    /// `.`
    Dot,
    /// `=`
    Equals,
    /// `<`
    Less,
    /// `>`
    Greater,
    /// `+`
    Plus,
    /// `-`
    Minus,
    /// `*`
    Star,
    /// `/`
    Slash,
    /// `%`
    Percent,
    /// `!`
    Not,
}
