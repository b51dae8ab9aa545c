//! Where a region is lent before, in the statement around a place.
ghost use Rattle.std.specs.Prelude.{◌≡◌, ◌++◌, OnOk, None};
ghost use Rattle.ppm_explain.specs.declared.lending.Lead.TheVariants as leads_of;
ghost use Rattle.ppm_explain.specs.Lendings.{role_of as role_of_sign};
ghost use Rattle.ppm_explain.specs.Lendings.{lead_by as lead_by_role};
ghost use Rattle.ppm_explain.specs.Lendings.{lead_after as lead_behind, leads as leads_argument};
ghost use Rattle.ppm_explain.specs.Lendings.{is_end as is_end_role, is_break as is_break_role};
ghost use Rattle.ppm_explain.specs.Lendings.{ends_kind as ends_with, breaks_kind as breaks_with};
ghost use Rattle.ppm_explain.specs.Lendings.{ends_argument as ends_in, is_argument as is_argument_of};
ghost use Rattle.ppm_explain.specs.Lendings.{or_place as or_this, lent_with as lent_behind};
ghost use Rattle.ppm_explain.specs.Lendings.{lent_from, lent_before_text, kind_lent, lent_text};

use crate::names::is_name;
use crate::place::push_place_of;
use crate::words::push_word;
use ppm_text::{Kind, Sign, Token};
use ppm_words::NoMemory;

/// What a sign is to the arguments of a call.
#[derive(Clone, Copy, Debug, PartialEq, Eq)]
pub enum Role {
    /// The bracket in front of them.
    Opens,
    /// A comma between two.
    Parts,
    /// The bracket after them.
    Closes,
    /// The end of a statement, or of the front of one with a block.
    Breaks,
    /// None of these.
    Other,
}

/// What stands in front of a token.
#[derive(Clone, Copy, Debug, PartialEq, Eq)]
pub enum Lead {
    /// What an argument begins after.
    Argument,
    /// None of these.
    Other,
}

/// What a sign is to the arguments of a call.
fn role_of(sign: Sign) -> Role
    ensures { result ≡ role_of_sign sign }
{
    match sign {
        Sign::OpenParen => Role::Opens,
        Sign::Comma => Role::Parts,
        Sign::CloseParen => Role::Closes,
        Sign::Semicolon | Sign::OpenBrace | Sign::CloseBrace => Role::Breaks,
        Sign::OpenBracket
        | Sign::CloseBracket
        | Sign::Assign
        | Sign::Plus
        | Sign::Minus
        | Sign::Times
        | Sign::Divide
        | Sign::Remainder
        | Sign::Equal
        | Sign::NotEqual
        | Sign::Less
        | Sign::LessEqual
        | Sign::Greater
        | Sign::GreaterEqual
        | Sign::Both
        | Sign::Either => Role::Other,
    }
}

/// What stands in front of the token after a sign.
fn lead_by(role: Role) -> Lead
    ensures { result ≡ lead_by_role role }
{
    match role {
        Role::Opens | Role::Parts => Lead::Argument,
        Role::Closes | Role::Breaks | Role::Other => Lead::Other,
    }
}

/// What stands in front of the token after this one.
fn lead_after(kind: &Kind) -> Lead
    ensures { result ≡ lead_behind kind.now }
{
    match kind {
        Kind::Sign(sign) => lead_by(role_of(*sign)),
        Kind::Keyword(_) => Lead::Other,
        Kind::Name(_) => Lead::Other,
        Kind::Number(_) => Lead::Other,
    }
}

/// Whether an argument begins there.
fn leads(lead: Lead) -> bool
    ensures { result ≡ leads_argument lead }
{
    match lead {
        Lead::Argument => true,
        Lead::Other => false,
    }
}

/// Whether an argument ends in front of the sign.
fn is_end(role: Role) -> bool
    ensures { result ≡ is_end_role role }
{
    match role {
        Role::Parts | Role::Closes => true,
        Role::Opens | Role::Breaks | Role::Other => false,
    }
}

/// Whether a statement, or the front of one with a block, ends with the sign.
fn is_break(role: Role) -> bool
    ensures { result ≡ is_break_role role }
{
    match role {
        Role::Breaks => true,
        Role::Opens | Role::Parts | Role::Closes | Role::Other => false,
    }
}

/// Whether an argument ends in front of the token.
fn ends_kind(kind: &Kind) -> bool
    ensures { result ≡ ends_with kind.now }
{
    match kind {
        Kind::Sign(sign) => is_end(role_of(*sign)),
        Kind::Keyword(_) => false,
        Kind::Name(_) => false,
        Kind::Number(_) => false,
    }
}

/// Whether a statement, or the front of one with a block, ends with the token.
fn breaks_kind(kind: &Kind) -> bool
    ensures { result ≡ breaks_with kind.now }
{
    match kind {
        Kind::Sign(sign) => is_break(role_of(*sign)),
        Kind::Keyword(_) => false,
        Kind::Name(_) => false,
        Kind::Number(_) => false,
    }
}

/// Whether an argument ends in front of these tokens.
fn ends_argument(behind: &[Token]) -> bool
    ensures { result ≡ ends_in behind.now }
{
    match behind.split_first() {
        None => false,
        Some((token, _)) => ends_kind(&token.kind),
    }
}

/// Whether a token is the name, and a whole argument.
fn is_argument(lead: Lead, name: &[u8], token: &Token, behind: &[Token]) -> bool
    ensures { result ≡ is_argument_of lead name.now token.now behind.now }
{
    leads(lead) && is_name(&token.kind, name) && ends_argument(behind)
}

/// The first place, or else this one.
fn or_place(found: Option<u32>, place: u32) -> Option<u32>
    ensures { result ≡ or_this found place }
{
    match found {
        Some(first) => Some(first),
        None => Some(place),
    }
}

/// After a token the first place in the statement where the name is an argument.
fn lent_with(
    found: Option<u32>,
    lead: Lead,
    name: &[u8],
    token: &Token,
    behind: &[Token],
) -> Option<u32>
    ensures { result ≡ lent_behind found lead name.now token.now behind.now }
{
    if breaks_kind(&token.kind) {
        return None;
    }
    if is_argument(lead, name, token, behind) {
        return or_place(found, token.place);
    }
    found
}

/// The first place in front of the given one, and in the statement around it, where the name is an
/// argument.
fn lent(tokens: &[Token], name: &[u8], place: u32) -> Option<u32>
    ensures { result ≡ lent_from None leads_of.Other name.now place tokens.now }
{
    let mut found: Option<u32> = None;
    let mut lead = Lead::Other;
    let mut left = tokens;
    'tokens: while let Some((token, rest)) = left.split_first() {
        if token.place >= place {
            return found;
        }
        found = lent_with(found, lead, name, token, rest);
        lead = lead_after(&token.kind);
        left = rest;
    }
    found
}

/// Appends a place where a region is lent before, if there is one.
fn push_before(text: &mut Vec<u8>, source: &[u8], found: Option<u32>) -> Result<(), NoMemory>
    ensures { OnOk result (text.new.items ≡ text.old.items ++ lent_before_text source.now found) }
{
    match found {
        None => Ok(()),
        Some(place) => {
            push_word(text, "lent before: ")?;
            push_place_of(text, source, place)
        }
    }
}

/// Appends where the name at this place is lent before.
fn push_kind_lent(
    text: &mut Vec<u8>,
    source: &[u8],
    tokens: &[Token],
    place: u32,
    kind: &Kind,
) -> Result<(), NoMemory>
    ensures { OnOk result (text.new.items
        ≡ text.old.items ++ kind_lent source.now tokens.now place kind.now) }
{
    match kind {
        Kind::Name(name) => push_before(text, source, lent(tokens, name.as_bytes(), place)),
        Kind::Keyword(_) => Ok(()),
        Kind::Sign(_) => Ok(()),
        Kind::Number(_) => Ok(()),
    }
}

/// Appends where a region is lent before, by the number of its fault: where it is lent twice.
pub(crate) fn push_lent(
    text: &mut Vec<u8>,
    source: &[u8],
    tokens: &[Token],
    token: &Token,
    number: u32,
) -> Result<(), NoMemory>
    ensures { OnOk result (text.new.items
        ≡ text.old.items ++ lent_text source.now tokens.now token.now number) }
{
    if number != 6 {
        return Ok(());
    }
    push_kind_lent(text, source, tokens, token.place, &token.kind)
}
