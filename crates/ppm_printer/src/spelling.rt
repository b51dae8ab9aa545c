//! How keywords and signs are spelled, and the blanks after them.
ghost use Rattle.std.specs.Prelude.{◌≡◌};
ghost use Rattle.ppm_printer.specs.Spelled.{keyword_text, sign_text, blank_behind_sign};

use ppm_text::{Keyword, Sign};

/// The spelling of a keyword.
pub fn keyword_spelling(keyword: Keyword) -> &'static str
    ensures { result.now ≡ keyword_text keyword }
{
    match keyword {
        Keyword::Array => "array",
        Keyword::Proc => "proc",
        Keyword::Input => "input",
        Keyword::Mut => "mut",
        Keyword::Ref => "ref",
        Keyword::Int => "int",
        Keyword::Let => "let",
        Keyword::If => "if",
        Keyword::Else => "else",
        Keyword::While => "while",
        Keyword::Call => "call",
        Keyword::Fork => "fork",
        Keyword::And => "and",
        Keyword::Split => "split",
        Keyword::At => "at",
        Keyword::Into => "into",
        Keyword::Len => "len",
        Keyword::Each => "each",
        Keyword::In => "in",
        Keyword::Give => "give",
    }
}

/// The spelling of a sign.
pub fn sign_spelling(sign: Sign) -> &'static str
    ensures { result.now ≡ sign_text sign }
{
    match sign {
        Sign::OpenBracket => "[",
        Sign::CloseBracket => "]",
        Sign::OpenParen => "(",
        Sign::CloseParen => ")",
        Sign::OpenBrace => "{",
        Sign::CloseBrace => "}",
        Sign::Semicolon => ";",
        Sign::Comma => ",",
        Sign::Assign => "=",
        Sign::Plus => "+",
        Sign::Minus => "-",
        Sign::Times => "*",
        Sign::Divide => "/",
        Sign::Remainder => "%",
        Sign::Equal => "==",
        Sign::NotEqual => "!=",
        Sign::Less => "<",
        Sign::LessEqual => "<=",
        Sign::Greater => ">",
        Sign::GreaterEqual => ">=",
        Sign::Both => "&&",
        Sign::Either => "||",
    }
}

/// The blank after a sign: a line feed after those that end a line, else a space.
pub(crate) fn blank_behind(sign: Sign) -> u8
    ensures { result ≡ blank_behind_sign sign }
{
    match sign {
        Sign::Semicolon | Sign::OpenBrace | Sign::CloseBrace => b'\n',
        Sign::OpenBracket
        | Sign::CloseBracket
        | Sign::OpenParen
        | Sign::CloseParen
        | Sign::Comma
        | Sign::Assign
        | Sign::Plus
        | Sign::Minus
        | Sign::Times
        | Sign::Divide
        | Sign::Remainder
        | Sign::Equal
        | Sign::NotEqual
        | Sign::Less
        | Sign::LessEqual
        | Sign::Greater
        | Sign::GreaterEqual
        | Sign::Both
        | Sign::Either => b' ',
    }
}
