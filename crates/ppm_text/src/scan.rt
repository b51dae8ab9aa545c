//! Lexes a text into tokens.
ghost use Rattle.std.specs.Prelude.{◌≡◌, ◌+◌, ◌-◌, ◌<◌, ◌≤◌, ◌^◌, length, take, drop};
ghost use Rattle.std.specs.Prelude.{◌↔◌, Err, IfOk, IfErr, OnOk, IfSome, IfNone, MatchResult};
ghost use Rattle.std.specs.List.{prefix_len};
ghost use Rattle.ppm_words.specs.Limits.{value_bound};
ghost use Rattle.ppm_words.specs.Names.{is_digit, is_name_byte, IsName};
ghost use Rattle.ppm_text.specs.declared.byte_class.ByteClass.TheVariants.{Letter, Digit, Mark};
ghost use Rattle.ppm_text.specs.Limits.{text_limit};
ghost use Rattle.ppm_text.specs.Bytes.{BeginsWith, is_comment_byte, value_from};
ghost use Rattle.ppm_text.specs.Lexing.{IsTextOf};
ghost use Rattle.ppm_text.specs.Refusals.{IsRefused};
ghost use Rattle.ppm_text.specs.Scanning.{IsSignOf, IsNoSign, IsInFront, Stops, Advances};

use crate::byte_class::{ByteClass, class, is_digit_byte, is_letter_byte};
use crate::literal::{Literal, NUMBER_LIMIT};
use crate::spelling::{keyword, sign};
use crate::text_error::TextError;
use crate::token::{Kind, Sign, Token};
use crate::token_list::Tokens;
use ppm_words::{NAME_LIMIT, Name};
use std::alloc::{AllocError, Global};

/// The bytes of a text, at most.
pub const TEXT_LIMIT: usize = 1_048_576;

/// What stands in front of some bytes.
#[derive(Drop)]
enum Piece {
    /// A blank or a comment of so many bytes, which ends so many lines.
    Skipped(usize, u32),
    /// A token of so many bytes.
    Token(Kind, usize),
}

/// The bytes after the first n.
#[tactic(auto, using(std::proofs::lemmas::List::take_rest))]
fn behind(bytes: &[u8], n: usize) -> &[u8]
    requires { n ≤ length bytes.now }
    ensures { result.now ≡ drop n bytes.now }
{
    &bytes[n..]
}

/// How many bytes of a name stand in front.
#[tactic(auto, using(crate::proofs::BytesLemmas::prefix_le))]
fn name_len(bytes: &[u8]) -> usize
    ensures len { result ≡ prefix_len is_name_byte bytes.now }
    ensures within { result ≤ length bytes.now }
{
    bytes
        .iter()
        .take_while(|b| is_letter_byte(**b) || is_digit_byte(**b))
        .count()
}

/// How many digits stand in front.
#[tactic(auto, using(crate::proofs::BytesLemmas::prefix_le))]
fn number_len(bytes: &[u8]) -> usize
    ensures len { result ≡ prefix_len is_digit bytes.now }
    ensures within { result ≤ length bytes.now }
{
    bytes.iter().take_while(|b| is_digit_byte(**b)).count()
}

/// How many bytes of a comment stand in front, after its `#`.
#[tactic(auto, using(crate::proofs::BytesLemmas::prefix_le))]
fn remark_len(bytes: &[u8]) -> usize
    ensures len { result ≡ prefix_len is_comment_byte bytes.now }
    ensures within { result ≤ length bytes.now }
{
    bytes
        .iter()
        .take_while(|b| !(**b == 10) && **b <= 127)
        .count()
}

/// How many bytes the comment in front has.
fn comment_len(bytes: &[u8]) -> usize
    requires { 0 < length bytes.now }
    ensures len { result ≡ 1 + prefix_len is_comment_byte (drop 1 bytes.now) }
    ensures within { result ≤ length bytes.now }
{
    1 + remark_len(behind(bytes, 1))
}

/// The number that the digits stand for, below 2^63.
fn value(digits: &[u8]) -> Option<u64>
    ensures some { IfSome result (λ n. (n ≡ value_from 0 digits.now) × (n < value_bound)) }
    ensures none { IfNone result (value_bound ≤ value_from 0 digits.now) }
{
    let mut n: u64 = 0;
    for d in digits {
        let digit = u64::from(d.saturating_sub(48));
        if n > (NUMBER_LIMIT - digit) / 10 {
            return None;
        }
        n = n * 10 + digit;
    }
    Some(n)
}

/// The name with these bytes.
fn name(alloc: Global, bytes: &[u8]) -> Result<Name, AllocError>
    requires { IsName bytes.now }
    ensures { IfOk result (λ n. n ≡ bytes.now) }
{
    Ok(Name::from_bytes(Vec::from_slice(alloc, bytes)?))
}

/// The class of the first byte.
fn front_class(bytes: &[u8]) -> ByteClass
    requires { 0 < length bytes.now }
    ensures { BeginsWith result bytes.now }
{
    class(bytes[0])
}

/// The name or keyword in front.
fn identifier_piece(alloc: Global, place: u32, bytes: &[u8]) -> Result<Piece, TextError>
    requires { BeginsWith Letter bytes.now }
    ensures { MatchResult result (IsInFront bytes.now) (Stops place bytes.now) }
{
    let len = name_len(bytes);
    let identifier = &bytes[..len];
    if let Some(found) = keyword(identifier) {
        return Ok(Piece::Token(Kind::Keyword(found), len));
    }
    if len > NAME_LIMIT {
        return Err(TextError::NameTooLong(place));
    }
    Ok(Piece::Token(Kind::Name(name(alloc, identifier)?), len))
}

/// The number in front.
fn number_piece(place: u32, bytes: &[u8]) -> Result<Piece, TextError>
    requires { BeginsWith Digit bytes.now }
    ensures { MatchResult result (IsInFront bytes.now) (Stops place bytes.now) }
{
    let len = number_len(bytes);
    match value(&bytes[..len]) {
        Some(n) => Ok(Piece::Token(Kind::Number(Literal::from_u64(n)), len)),
        None => Err(TextError::NumberTooBig(place)),
    }
}

/// The sign that the first n bytes are.
fn front_sign(bytes: &[u8], n: usize) -> Option<Sign>
    ensures some { IfSome result (IsSignOf bytes.now n) }
    ensures none { IfNone result (IsNoSign bytes.now n) }
{
    if n <= bytes.len() {
        sign(&bytes[..n])
    } else {
        None
    }
}

/// The sign in front, the longest first.
fn sign_piece(place: u32, bytes: &[u8]) -> Result<Piece, TextError>
    requires { BeginsWith Mark bytes.now }
    ensures { MatchResult result (IsInFront bytes.now) (Stops place bytes.now) }
{
    if let Some(mark) = front_sign(bytes, 2) {
        return Ok(Piece::Token(Kind::Sign(mark), 2));
    }
    match front_sign(bytes, 1) {
        Some(mark) => Ok(Piece::Token(Kind::Sign(mark), 1)),
        None => Err(TextError::BadChar(place)),
    }
}

/// The piece in front.
fn front_piece(alloc: Global, place: u32, bytes: &[u8]) -> Result<Piece, TextError>
    requires { 0 < length bytes.now }
    ensures { MatchResult result (IsInFront bytes.now) (Stops place bytes.now) }
{
    match front_class(bytes) {
        ByteClass::Letter => identifier_piece(alloc, place, bytes),
        ByteClass::Digit => number_piece(place, bytes),
        ByteClass::Mark => sign_piece(place, bytes),
        ByteClass::LineFeed => Ok(Piece::Skipped(1, 1)),
        ByteClass::Blank => Ok(Piece::Skipped(1, 0)),
        ByteClass::Hash => Ok(Piece::Skipped(comment_len(bytes), 0)),
        ByteClass::High => Err(TextError::NotAscii(place)),
    }
}

/// Takes the piece in front, and adds its token; the number of its bytes, and the line after it.
fn take_piece(
    alloc: Global,
    all: &mut Vec<Token>,
    place: u32,
    line: u32,
    bytes: &[u8],
) -> Result<(usize, u32), TextError>
    requires some { 0 < length bytes.now }
    requires line { line < 2 ^ 32 - 1 }
    ensures ok { IfOk result (Advances place line bytes.now all.old.items all.new.items) }
    ensures err { IfErr result (Stops place bytes.now) }
{
    match front_piece(alloc, place, bytes)? {
        Piece::Skipped(len, lines) => Ok((len, line + lines)),
        Piece::Token(kind, len) => {
            all.push(Token { kind, place, line })?;
            Ok((len, line))
        }
    }
}

/// The tokens of a text, in their order. A text of more than 1,048,576 bytes is `TooLong`, whatever
/// is in it; any other fault names the first place at which the longest-token rule comes to no
/// token, blank or comment that the limits allow.
pub fn tokens(alloc: Global, text: &[u8]) -> Result<Tokens, TextError>
    ensures read { IfOk result (λ all. IsTextOf text.now all.tokens) }
    ensures len { IfOk result (λ all. all.text_len ≡ length text.now) }
    ensures within { OnOk result (length text.now ≤ text_limit) }
    ensures too_long { (result ≡ Err (TextError.TooLong text_limit))
        ↔ (text_limit < length text.now) }
    ensures refused { IfErr result (IsRefused text.now) }
{
    if text.len() > TEXT_LIMIT {
        return Err(TextError::TooLong(TEXT_LIMIT as u32));
    }
    let mut all = Vec::new(alloc);
    let mut place: u32 = 0;
    let mut line: u32 = 1;
    let mut rest = text;
    while !rest.is_empty() {
        let (len, next) = take_piece(alloc, &mut all, place, line, rest)?;
        place += len as u32;
        line = next;
        rest = behind(rest, len);
    }
    Ok(Tokens::from_parts(all, text.len() as u32))
}
