//! How keywords and signs are spelled: by their length, then byte by byte, since a text is mostly
//! of them.
ghost use Rattle.std.specs.Prelude.{◌≡◌, [], ◌∷◌};
ghost use Rattle.ppm_text.specs.Spelling.{keyword_of, sign_of};

use crate::token::{Keyword, Sign};

/// The keyword of these two bytes.
#[tactic(auto, unfolding(crate::specs::Spelling::keyword_of))]
fn keyword_of_two(a: u8, b: u8) -> Option<Keyword>
    ensures { result ≡ keyword_of (a ∷ b ∷ []) }
{
    match (a, b) {
        (b'i', b'f') => Some(Keyword::If),
        (b'a', b't') => Some(Keyword::At),
        (b'i', b'n') => Some(Keyword::In),
        _ => None,
    }
}

/// The keyword of these three bytes.
#[tactic(auto, unfolding(crate::specs::Spelling::keyword_of))]
fn keyword_of_three(a: u8, b: u8, c: u8) -> Option<Keyword>
    ensures { result ≡ keyword_of (a ∷ b ∷ c ∷ []) }
{
    match (a, b, c) {
        (b'm', b'u', b't') => Some(Keyword::Mut),
        (b'r', b'e', b'f') => Some(Keyword::Ref),
        (b'i', b'n', b't') => Some(Keyword::Int),
        (b'l', b'e', b't') => Some(Keyword::Let),
        (b'a', b'n', b'd') => Some(Keyword::And),
        (b'l', b'e', b'n') => Some(Keyword::Len),
        _ => None,
    }
}

/// The keyword of these four bytes.
#[tactic(auto, unfolding(crate::specs::Spelling::keyword_of))]
fn keyword_of_four(a: u8, b: u8, c: u8, d: u8) -> Option<Keyword>
    ensures { result ≡ keyword_of (a ∷ b ∷ c ∷ d ∷ []) }
{
    match (a, b, c, d) {
        (b'p', b'r', b'o', b'c') => Some(Keyword::Proc),
        (b'e', b'l', b's', b'e') => Some(Keyword::Else),
        (b'c', b'a', b'l', b'l') => Some(Keyword::Call),
        (b'f', b'o', b'r', b'k') => Some(Keyword::Fork),
        (b'i', b'n', b't', b'o') => Some(Keyword::Into),
        (b'e', b'a', b'c', b'h') => Some(Keyword::Each),
        (b'g', b'i', b'v', b'e') => Some(Keyword::Give),
        _ => None,
    }
}

/// The keyword of these five bytes.
#[tactic(auto, unfolding(crate::specs::Spelling::keyword_of))]
fn keyword_of_five(a: u8, b: u8, c: u8, d: u8, e: u8) -> Option<Keyword>
    ensures { result ≡ keyword_of (a ∷ b ∷ c ∷ d ∷ e ∷ []) }
{
    match (a, b, c, d, e) {
        (b'a', b'r', b'r', b'a', b'y') => Some(Keyword::Array),
        (b'i', b'n', b'p', b'u', b't') => Some(Keyword::Input),
        (b'w', b'h', b'i', b'l', b'e') => Some(Keyword::While),
        (b's', b'p', b'l', b'i', b't') => Some(Keyword::Split),
        _ => None,
    }
}

/// The keyword of this spelling.
pub fn keyword(bytes: &[u8]) -> Option<Keyword>
    ensures { result ≡ keyword_of bytes.now }
{
    match *bytes {
        [a, b] => keyword_of_two(a, b),
        [a, b, c] => keyword_of_three(a, b, c),
        [a, b, c, d] => keyword_of_four(a, b, c, d),
        [a, b, c, d, e] => keyword_of_five(a, b, c, d, e),
        _ => None,
    }
}

/// The sign of this byte.
#[tactic(auto, unfolding(crate::specs::Spelling::sign_of))]
fn sign_of_one(a: u8) -> Option<Sign>
    ensures { result ≡ sign_of (a ∷ []) }
{
    match a {
        b'[' => Some(Sign::OpenBracket),
        b']' => Some(Sign::CloseBracket),
        b'(' => Some(Sign::OpenParen),
        b')' => Some(Sign::CloseParen),
        b'{' => Some(Sign::OpenBrace),
        b'}' => Some(Sign::CloseBrace),
        b';' => Some(Sign::Semicolon),
        b',' => Some(Sign::Comma),
        b'=' => Some(Sign::Assign),
        b'+' => Some(Sign::Plus),
        b'-' => Some(Sign::Minus),
        b'*' => Some(Sign::Times),
        b'/' => Some(Sign::Divide),
        b'%' => Some(Sign::Remainder),
        b'<' => Some(Sign::Less),
        b'>' => Some(Sign::Greater),
        _ => None,
    }
}

/// The sign of these two bytes.
#[tactic(auto, unfolding(crate::specs::Spelling::sign_of))]
fn sign_of_two(a: u8, b: u8) -> Option<Sign>
    ensures { result ≡ sign_of (a ∷ b ∷ []) }
{
    match (a, b) {
        (b'=', b'=') => Some(Sign::Equal),
        (b'!', b'=') => Some(Sign::NotEqual),
        (b'<', b'=') => Some(Sign::LessEqual),
        (b'>', b'=') => Some(Sign::GreaterEqual),
        (b'&', b'&') => Some(Sign::Both),
        (b'|', b'|') => Some(Sign::Either),
        _ => None,
    }
}

/// The sign of this spelling.
pub fn sign(bytes: &[u8]) -> Option<Sign>
    ensures { result ≡ sign_of bytes.now }
{
    match *bytes {
        [a] => sign_of_one(a),
        [a, b] => sign_of_two(a, b),
        _ => None,
    }
}
