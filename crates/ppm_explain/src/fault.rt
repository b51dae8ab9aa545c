//! The token at which a rule of names and regions is broken. A refusal names a line; of the text
//! with each token in a line of its own it names a token.
ghost use Rattle.std.specs.Prelude.{◌≡◌, ◌++◌, OnOk, IfOk, None, Some, MatchOption};
ghost use Rattle.ppm_explain.specs.Spread.{alone, spread, IsJudged, is_region as is_region_pass};
ghost use Rattle.ppm_explain.specs.Spread.{numbered as numbered_in, agrees as agrees_with};
ghost use Rattle.ppm_explain.specs.Spread.{agreed as agreed_on, faulty};

use crate::words::{push_spelling, push_word};
use ppm_answers::{Pass, Refusal};
use ppm_program::{JudgeError, program_of};
use ppm_text::Token;
use ppm_words::NoMemory;
use std::alloc::Global;

/// Appends a token in a line of its own.
fn push_alone(text: &mut Vec<u8>, token: &Token) -> Result<(), NoMemory>
    ensures { OnOk result (text.new.items ≡ text.old.items ++ alone token.now) }
{
    push_spelling(text, &token.kind)?;
    push_word(text, "\n")
}

/// Appends these tokens, each in a line of its own.
fn push_spread(text: &mut Vec<u8>, tokens: &[Token]) -> Result<(), NoMemory>
    ensures { OnOk result (text.new.items ≡ text.old.items ++ spread tokens.now) }
{
    let mut left = tokens;
    'tokens: while let Some((token, rest)) = left.split_first() {
        push_alone(text, token)?;
        left = rest;
    }
    Ok(())
}

/// Why a text is refused; `None` where it has a program.
fn judged(alloc: Global, text: &[u8]) -> Result<Option<Refusal>, NoMemory>
    ensures { IfOk result (IsJudged text.now) }
{
    match program_of(alloc, text) {
        Ok(_) => Ok(None),
        Err(JudgeError::Refused(refusal)) => Ok(Some(refusal)),
        Err(JudgeError::NoMemory) => Err(NoMemory),
    }
}

/// Why the text with each of these tokens in a line of its own is refused, if it is.
pub(crate) fn spread_judged(alloc: Global, tokens: &[Token]) -> Result<Option<Refusal>, NoMemory>
    ensures { IfOk result (IsJudged (spread tokens.now)) }
{
    let mut text = Vec::new(alloc);
    push_spread(&mut text, tokens)?;
    judged(alloc, &text)
}

/// The token with this number, from 1.
fn numbered(tokens: &[Token], number: u32) -> Option<&Token>
    ensures { MatchOption result (numbered_in number tokens.now ≡ None)
        (λ t. numbered_in number tokens.now ≡ Some t.now) }
{
    let mut ahead = number;
    let mut left = tokens;
    'tokens: while let Some((token, rest)) = left.split_first() {
        if ahead == 1 {
            return Some(token);
        }
        ahead = ahead.saturating_sub(1);
        left = rest;
    }
    None
}

/// Whether it is the pass of names and regions.
fn is_region(pass: Pass) -> bool
    ensures { result ≡ is_region_pass pass }
{
    match pass {
        Pass::Region => true,
        Pass::Text | Pass::Syntax | Pass::Cut | Pass::Ram => false,
    }
}

/// Whether a refusal of the spread text, which names this token, is for the rule and the line of
/// the text's own.
fn agrees(refusal: Refusal, spread: Refusal, token: &Token) -> bool
    ensures { result ≡ agrees_with refusal spread token.now }
{
    is_region(spread.pass) && spread.number == refusal.number && token.line == refusal.place
}

/// The token that a refusal of the spread text names, if it is for the rule and the line of the
/// text's own.
fn agreed(refusal: Refusal, spread: Refusal, tokens: &[Token]) -> Option<&Token>
    ensures { MatchOption result
        (agreed_on refusal spread (numbered_in spread.place tokens.now) ≡ None)
        (λ t. agreed_on refusal spread (numbered_in spread.place tokens.now) ≡ Some t.now) }
{
    match numbered(tokens, spread.place) {
        None => None,
        Some(token) => {
            if agrees(refusal, spread, token) {
                return Some(token);
            }
            None
        }
    }
}

/// The token at which the rule of a refusal is broken, by how the spread text is judged.
pub(crate) fn faulty_token(
    refusal: Refusal,
    tokens: &[Token],
    judged: Option<Refusal>,
) -> Option<&Token>
    ensures { MatchOption result
        (faulty refusal tokens.now judged ≡ None)
        (λ t. faulty refusal tokens.now judged ≡ Some t.now) }
{
    match judged {
        None => None,
        Some(spread) => agreed(refusal, spread, tokens),
    }
}
