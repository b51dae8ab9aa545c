//! What a text says of the names in a line, and of its procedures.
ghost use Rattle.std.specs.Prelude.{◌≡◌, ◌++◌, OnOk, IfOk, None, Some, MatchOption};
ghost use Rattle.ppm_explain.specs.declared.declaring.Before.TheVariants as before;
ghost use Rattle.ppm_explain.specs.Names.{is_name as is_name_of, declared_from, or_nowhere, declared_by};
ghost use Rattle.ppm_explain.specs.Names.{stood_from, stood_text, before_text, name_text, stands_in, stands_there};
ghost use Rattle.ppm_explain.specs.Names.{mentioned, mention_text, names_text, last_text};
ghost use Rattle.ppm_explain.specs.Names.{stood_with, is_above as is_above_line};
ghost use Rattle.ppm_explain.specs.Names.{is_here as is_there, left_ahead as ahead_behind};
ghost use Rattle.ppm_explain.specs.Names.{heading_above as heading_above_line};
ghost use Rattle.ppm_explain.specs.Names.{heading_at as heading_with, procedure_text};
ghost use Rattle.ppm_explain.specs.Names.{is_before as is_before_place, named_text};
ghost use Rattle.ppm_explain.specs.Names.{heading_before as heading_before_place};

use crate::declaring::{Before, after, heads, push_declaration};
use crate::words::{push_counted, push_located, push_word};
use ppm_text::{Kind, Token};
use ppm_words::{Name, NoMemory};
use std::alloc::Global;

/// Whether a token is this name.
pub(crate) fn is_name(kind: &Kind, name: &[u8]) -> bool
    ensures { result ≡ is_name_of name.now kind.now }
{
    match kind {
        Kind::Name(other) => other.as_bytes() == name,
        Kind::Number(_) => false,
        Kind::Keyword(_) => false,
        Kind::Sign(_) => false,
    }
}

/// Appends what declares a token, if it is the name.
fn push_declared_by(
    text: &mut Vec<u8>,
    before: Before,
    token: &Token,
    name: &[u8],
) -> Result<(), NoMemory>
    ensures { OnOk result (text.new.items
        ≡ text.old.items ++ declared_by before name.now token.now) }
{
    if !is_name(&token.kind, name) {
        return Ok(());
    }
    push_declaration(text, before, token.line)
}

/// Appends the declarations of a name.
fn push_declared(text: &mut Vec<u8>, tokens: &[Token], name: &[u8]) -> Result<(), NoMemory>
    ensures { OnOk result (text.new.items
        ≡ text.old.items ++ declared_from before.Other name.now tokens.now) }
{
    let mut before = Before::Other;
    let mut left = tokens;
    'tokens: while let Some((token, rest)) = left.split_first() {
        push_declared_by(text, before, token, name)?;
        before = after(before, &token.kind);
        left = rest;
    }
    Ok(())
}

/// The declarations of a name, or that it has none.
fn push_declared_or_nowhere(
    alloc: Global,
    text: &mut Vec<u8>,
    tokens: &[Token],
    name: &[u8],
) -> Result<(), NoMemory>
    ensures { OnOk result (text.new.items ≡ text.old.items
        ++ or_nowhere (declared_from before.Other name.now tokens.now)) }
{
    let mut declared = Vec::new(alloc);
    push_declared(&mut declared, tokens, name)?;
    if declared.is_empty() {
        return push_word(text, ", declared nowhere");
    }
    text.extend_from_slice(&declared)?;
    Ok(())
}

/// The line above the given one in which a name stands last; 0 where it stands in none.
fn stood(tokens: &[Token], name: &[u8], line: u32) -> u32
    ensures { result ≡ stood_from 0 name.now line tokens.now }
{
    let mut last = 0;
    let mut left = tokens;
    'tokens: while let Some((token, rest)) = left.split_first() {
        last = later(token, name, line, last);
        left = rest;
    }
    last
}

/// The line of a token, if it is the name and stands above the given line; else that of before.
fn later(token: &Token, name: &[u8], line: u32, last: u32) -> u32
    ensures { result ≡ stood_with last name.now line token.now }
{
    if is_name(&token.kind, name) && token.line < line {
        token.line
    } else {
        last
    }
}

/// Appends that a name stood in this line.
fn push_before(text: &mut Vec<u8>, line: u32) -> Result<(), NoMemory>
    ensures { OnOk result (text.new.items ≡ text.old.items ++ before_text line) }
{
    push_counted(text, "; before in line ", line)
}

/// Appends that a name stood in this line, if it did in one.
fn push_stood(text: &mut Vec<u8>, line: u32) -> Result<(), NoMemory>
    ensures { OnOk result (text.new.items ≡ text.old.items ++ stood_text line) }
{
    if line == 0 {
        return Ok(());
    }
    push_before(text, line)
}

/// Appends how a name of a line is declared, and where it stood before.
fn push_name(
    alloc: Global,
    text: &mut Vec<u8>,
    tokens: &[Token],
    line: u32,
    name: &[u8],
) -> Result<(), NoMemory>
    ensures { OnOk result (text.new.items
        ≡ text.old.items ++ name_text tokens.now line name.now) }
{
    push_word(text, "name: `")?;
    text.extend_from_slice(name)?;
    push_word(text, "`")?;
    push_declared_or_nowhere(alloc, text, tokens, name)?;
    push_stood(text, stood(tokens, name, line))?;
    push_word(text, "\n")
}

/// Whether a token is this name, in this line.
fn stands_at(token: &Token, name: &[u8], line: u32) -> bool
    ensures { result ≡ stands_there name.now line token.now }
{
    is_name(&token.kind, name) && token.line == line
}

/// Whether a name stands in a line.
fn stands(tokens: &[Token], name: &[u8], line: u32) -> bool
    ensures { result ≡ stands_in name.now line tokens.now }
{
    let mut left = tokens;
    'tokens: while let Some((token, rest)) = left.split_first() {
        if stands_at(token, name, line) {
            return true;
        }
        left = rest;
    }
    false
}

/// Appends what is said of a token of the line, if it is a name that does not stand in the line
/// after it.
fn push_mentioned(
    alloc: Global,
    text: &mut Vec<u8>,
    tokens: &[Token],
    line: u32,
    kind: &Kind,
    behind: &[Token],
) -> Result<(), NoMemory>
    ensures { OnOk result (text.new.items
        ≡ text.old.items ++ mentioned tokens.now line kind.now behind.now) }
{
    match kind {
        Kind::Name(name) => push_last(alloc, text, tokens, line, name.as_bytes(), behind),
        Kind::Number(_) => Ok(()),
        Kind::Keyword(_) => Ok(()),
        Kind::Sign(_) => Ok(()),
    }
}

/// Appends what is said of a name that does not stand in the line after its token.
fn push_last(
    alloc: Global,
    text: &mut Vec<u8>,
    tokens: &[Token],
    line: u32,
    name: &[u8],
    behind: &[Token],
) -> Result<(), NoMemory>
    ensures { OnOk result (text.new.items
        ≡ text.old.items ++ last_text tokens.now line name.now behind.now) }
{
    if stands(behind, name, line) {
        return Ok(());
    }
    push_name(alloc, text, tokens, line, name)
}

/// Appends what is said of a token alone, if it is a name: how it is declared, and in which line
/// above the given one it stood last.
pub(crate) fn push_named(
    alloc: Global,
    text: &mut Vec<u8>,
    tokens: &[Token],
    line: u32,
    kind: &Kind,
) -> Result<(), NoMemory>
    ensures { OnOk result (text.new.items
        ≡ text.old.items ++ named_text tokens.now line kind.now) }
{
    match kind {
        Kind::Name(name) => push_name(alloc, text, tokens, line, name.as_bytes()),
        Kind::Number(_) => Ok(()),
        Kind::Keyword(_) => Ok(()),
        Kind::Sign(_) => Ok(()),
    }
}

/// Appends what is said of a token, where it stands in the line.
fn push_mention(
    alloc: Global,
    text: &mut Vec<u8>,
    tokens: &[Token],
    line: u32,
    token: &Token,
    behind: &[Token],
) -> Result<(), NoMemory>
    ensures { OnOk result (text.new.items
        ≡ text.old.items ++ mention_text tokens.now line token.now behind.now) }
{
    if token.line != line {
        return Ok(());
    }
    push_mentioned(alloc, text, tokens, line, &token.kind, behind)
}

/// Appends what is said of the names of a line, each once.
pub(crate) fn push_names(
    alloc: Global,
    text: &mut Vec<u8>,
    tokens: &[Token],
    line: u32,
) -> Result<(), NoMemory>
    ensures { OnOk result (text.new.items ≡ text.old.items ++ names_text tokens.now line) }
{
    let mut left = tokens;
    'tokens: while let Some((token, rest)) = left.split_first() {
        push_mention(alloc, text, tokens, line, token, rest)?;
        left = rest;
    }
    Ok(())
}

/// Whether a token is the name of a procedure, down to a line.
fn is_above(before: Before, token: &Token, line: u32) -> bool
    ensures { result ≡ is_above_line before line token.now }
{
    heads(before) && token.line <= line
}

/// The last name of a procedure down to a line.
pub(crate) fn heading_above(tokens: &[Token], line: u32) -> Option<&Token>
    ensures { MatchOption result
        (heading_above_line None before.Other line tokens.now ≡ None)
        (λ t. heading_above_line None before.Other line tokens.now ≡ Some t.now) }
{
    let mut found = None;
    let mut before = Before::Other;
    let mut left = tokens;
    'tokens: while let Some((token, rest)) = left.split_first() {
        let above = is_above(before, token, line);
        before = after(before, &token.kind);
        left = rest;
        if above {
            found = Some(token);
        }
    }
    found
}

/// Whether a token is the name of a procedure, down to a place.
fn is_before(before: Before, token: &Token, place: u32) -> bool
    ensures { result ≡ is_before_place before place token.now }
{
    heads(before) && token.place <= place
}

/// The last name of a procedure down to a place.
fn heading_before(tokens: &[Token], place: u32) -> Option<&Token>
    ensures { MatchOption result
        (heading_before_place None before.Other place tokens.now ≡ None)
        (λ t. heading_before_place None before.Other place tokens.now ≡ Some t.now) }
{
    let mut found = None;
    let mut before = Before::Other;
    let mut left = tokens;
    'tokens: while let Some((token, rest)) = left.split_first() {
        let above = is_before(before, token, place);
        before = after(before, &token.kind);
        left = rest;
        if above {
            found = Some(token);
        }
    }
    found
}

/// Whether it is the name of the procedure with no other in front.
fn is_here(before: Before, ahead: u32) -> bool
    ensures { result ≡ is_there before ahead }
{
    heads(before) && ahead == 0
}

/// How many stand in front of the wanted one after this token.
fn left_ahead(before: Before, ahead: u32) -> u32
    ensures { result ≡ ahead_behind before ahead }
{
    if heads(before) {
        ahead.saturating_sub(1)
    } else {
        ahead
    }
}

/// The name of the procedure with this number, from 0.
pub(crate) fn heading_at(tokens: &[Token], number: u32) -> Option<&Token>
    ensures { MatchOption result
        (heading_with before.Other number tokens.now ≡ None)
        (λ t. heading_with before.Other number tokens.now ≡ Some t.now) }
{
    let mut ahead = number;
    let mut before = Before::Other;
    let mut left = tokens;
    'tokens: while let Some((token, rest)) = left.split_first() {
        if is_here(before, ahead) {
            return Some(token);
        }
        ahead = left_ahead(before, ahead);
        before = after(before, &token.kind);
        left = rest;
    }
    None
}

/// Appends a procedure, by the token of its name.
fn push_procedure(text: &mut Vec<u8>, token: &Token) -> Result<(), NoMemory>
    ensures { OnOk result (text.new.items ≡ text.old.items ++ procedure_text (Some token.now)) }
{
    push_located(text, "procedure: `", token, "` in line ")
}

/// Appends the procedure around a line, if there is one.
pub(crate) fn push_around(text: &mut Vec<u8>, tokens: &[Token], line: u32) -> Result<(), NoMemory>
    ensures { OnOk result (text.new.items ≡ text.old.items
        ++ procedure_text (heading_above_line None before.Other line tokens.now)) }
{
    match heading_above(tokens, line) {
        None => Ok(()),
        Some(token) => push_procedure(text, token),
    }
}

/// Appends the procedure around a place, if there is one.
pub(crate) fn push_around_place(
    text: &mut Vec<u8>,
    tokens: &[Token],
    place: u32,
) -> Result<(), NoMemory>
    ensures { OnOk result (text.new.items ≡ text.old.items
        ++ procedure_text (heading_before_place None before.Other place tokens.now)) }
{
    match heading_before(tokens, place) {
        None => Ok(()),
        Some(token) => push_procedure(text, token),
    }
}

/// Appends the procedure with this number, from 0, if there is one.
pub(crate) fn push_numbered(
    text: &mut Vec<u8>,
    tokens: &[Token],
    number: u32,
) -> Result<(), NoMemory>
    ensures { OnOk result (text.new.items ≡ text.old.items
        ++ procedure_text (heading_with before.Other number tokens.now)) }
{
    match heading_at(tokens, number) {
        None => Ok(()),
        Some(token) => push_procedure(text, token),
    }
}
