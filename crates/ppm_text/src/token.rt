//! The tokens of a text.

use crate::literal::Literal;
use ppm_words::Name;

/// An identifier that the language keeps for itself.
#[derive(Clone, Copy, PartialEq, Eq, Debug)]
pub enum Keyword {
    Array,
    Proc,
    Input,
    Mut,
    Ref,
    Int,
    Let,
    If,
    Else,
    While,
    Call,
    Fork,
    And,
    Split,
    At,
    Into,
    Len,
    Each,
    In,
    Give,
}

/// A sign of one or two bytes.
#[derive(Clone, Copy, PartialEq, Eq, Debug)]
pub enum Sign {
    OpenBracket,
    CloseBracket,
    OpenParen,
    CloseParen,
    OpenBrace,
    CloseBrace,
    Semicolon,
    Comma,
    Assign,
    Plus,
    Minus,
    Times,
    Divide,
    Remainder,
    Equal,
    NotEqual,
    Less,
    LessEqual,
    Greater,
    GreaterEqual,
    Both,
    Either,
}

/// What a token is.
#[derive(Drop)]
pub enum Kind {
    /// A name that is no keyword.
    Name(Name),
    /// A number up to 2^63 - 1.
    Number(Literal),
    Keyword(Keyword),
    Sign(Sign),
}

/// A token, with the place of its first byte, from 0, and its line, from 1.
#[derive(Drop)]
pub struct Token {
    pub kind: Kind,
    pub place: u32,
    pub line: u32,
}
