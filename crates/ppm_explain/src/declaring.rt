//! Which word declares a name.
ghost use Rattle.std.specs.Prelude.{◌≡◌, ◌++◌, OnOk};
ghost use Rattle.ppm_text.specs.declared.token.Kind.TheVariants as kinds;
ghost use Rattle.ppm_explain.specs.Names.{after_word as behind_word, after_name as behind_name};
ghost use Rattle.ppm_explain.specs.Names.{after_comma as behind_comma, after_kind as behind_kind};
ghost use Rattle.ppm_explain.specs.Names.{declares as declares_name, heads as heads_name};
ghost use Rattle.ppm_explain.specs.Names.{declaration_text, is_proc as is_proc_word};
ghost use Rattle.ppm_explain.specs.Names.{is_comma as is_comma_sign};

use crate::words::push_word;
use ppm_pieces::push_number;
use ppm_printer::keyword_spelling;
use ppm_text::{Keyword, Kind, Sign};
use ppm_words::NoMemory;

/// What stands in front of a token.
#[derive(Clone, Copy, Debug, PartialEq, Eq)]
pub enum Before {
    /// Nothing that declares a name.
    Other,
    /// This word, which declares the name after it.
    Word(Keyword),
    /// A name that this word declares.
    Named(Keyword),
}

/// Whether a word declares the name after it.
fn declares(keyword: Keyword) -> bool
    ensures { result ≡ declares_name keyword }
{
    match keyword {
        Keyword::Array
        | Keyword::Proc
        | Keyword::Mut
        | Keyword::Ref
        | Keyword::Int
        | Keyword::Let
        | Keyword::Into
        | Keyword::Each => true,
        Keyword::Input
        | Keyword::If
        | Keyword::Else
        | Keyword::While
        | Keyword::Call
        | Keyword::Fork
        | Keyword::And
        | Keyword::Split
        | Keyword::At
        | Keyword::Len
        | Keyword::In
        | Keyword::Give => false,
    }
}

/// What stands in front of the token after a word.
fn after_word(keyword: Keyword) -> Before
    ensures { result ≡ behind_word keyword }
{
    if declares(keyword) {
        Before::Word(keyword)
    } else {
        Before::Other
    }
}

/// What stands in front of the token after a name.
fn after_name(before: Before) -> Before
    ensures { result ≡ behind_name before }
{
    match before {
        Before::Word(keyword) => Before::Named(keyword),
        Before::Other => Before::Other,
        Before::Named(_) => Before::Other,
    }
}

/// What stands in front of the token after a comma.
fn after_comma(before: Before) -> Before
    ensures { result ≡ behind_comma before }
{
    match before {
        Before::Named(keyword) => Before::Word(keyword),
        Before::Other => Before::Other,
        Before::Word(_) => Before::Other,
    }
}

/// Whether a sign is a comma.
fn is_comma(sign: Sign) -> bool
    ensures { result ≡ is_comma_sign sign }
{
    match sign {
        Sign::Comma => true,
        Sign::OpenBracket
        | Sign::CloseBracket
        | Sign::OpenParen
        | Sign::CloseParen
        | Sign::OpenBrace
        | Sign::CloseBrace
        | Sign::Semicolon
        | Sign::Assign
        | Sign::Plus
        | Sign::Minus
        | Sign::Times
        | Sign::Divide
        | Sign::Remainder
        | Sign::Equal
        | Sign::NotEqual
        | Sign::Less
        | Sign::LessEqual
        | Sign::Greater
        | Sign::GreaterEqual
        | Sign::Both
        | Sign::Either => false,
    }
}

/// What stands in front of the token after a sign.
fn after_sign(before: Before, sign: Sign) -> Before
    ensures { result ≡ behind_kind before (kinds.Sign sign) }
{
    if is_comma(sign) {
        after_comma(before)
    } else {
        Before::Other
    }
}

/// What stands in front of the token after this one.
pub(crate) fn after(before: Before, kind: &Kind) -> Before
    ensures { result ≡ behind_kind before kind.now }
{
    match kind {
        Kind::Name(_) => after_name(before),
        Kind::Number(_) => Before::Other,
        Kind::Keyword(keyword) => after_word(*keyword),
        Kind::Sign(sign) => after_sign(before, *sign),
    }
}

/// Whether it is the word in front of the name of a procedure.
fn is_proc(keyword: Keyword) -> bool
    ensures { result ≡ is_proc_word keyword }
{
    match keyword {
        Keyword::Proc => true,
        Keyword::Array
        | Keyword::Input
        | Keyword::Mut
        | Keyword::Ref
        | Keyword::Int
        | Keyword::Let
        | Keyword::If
        | Keyword::Else
        | Keyword::While
        | Keyword::Call
        | Keyword::Fork
        | Keyword::And
        | Keyword::Split
        | Keyword::At
        | Keyword::Into
        | Keyword::Len
        | Keyword::Each
        | Keyword::In
        | Keyword::Give => false,
    }
}

/// Whether the token after it is the name of a procedure.
pub(crate) fn heads(before: Before) -> bool
    ensures { result ≡ heads_name before }
{
    match before {
        Before::Word(keyword) => is_proc(keyword),
        Before::Other => false,
        Before::Named(_) => false,
    }
}

/// Appends the word that declares a name in this line, if one does.
pub(crate) fn push_declaration(
    text: &mut Vec<u8>,
    before: Before,
    line: u32,
) -> Result<(), NoMemory>
    ensures { OnOk result (text.new.items ≡ text.old.items ++ declaration_text before line) }
{
    match before {
        Before::Word(keyword) => {
            push_word(text, ", ")?;
            push_word(text, keyword_spelling(keyword))?;
            push_word(text, " in line ")?;
            push_number(text, u64::from(line))?;
            Ok(())
        }
        Before::Other => Ok(()),
        Before::Named(_) => Ok(()),
    }
}
