//! What is said of a source that is refused.
ghost use Rattle.std.specs.Prelude.{◌≡◌, ◌++◌, OnOk, IfOk, map};
ghost use Rattle.ppm_expected.specs.Language.{terminal_of};
ghost use Rattle.ppm_program.specs.Programs.{HasTokens};
ghost use Rattle.ppm_explain.specs.Sources.{bytes_notes as notes_of_bytes, stop_notes as notes_of_stop};
ghost use Rattle.ppm_explain.specs.Sources.{limit_notes as notes_of_limit, line_notes as notes_of_line};
ghost use Rattle.ppm_explain.specs.Meanings.{meaning_text};
ghost use Rattle.ppm_explain.specs.Sources.{bound_notes as notes_of_bound, AreNotes, ByStop, BySyntax};
ghost use Rattle.ppm_explain.specs.Sources.{bytes_spot, bound_procedure, ByFault, ByTree};
ghost use Rattle.ppm_explain.specs.Sources.{token_notes as notes_of_token};
ghost use Rattle.ppm_explain.specs.Sources.{fault_notes as notes_of_fault};
ghost use Rattle.ppm_explain.specs.Spread.{faulty};
ghost use Rattle.ppm_tree.specs.Tree.{tree_of};
ghost use Rattle.ppm_rows.specs.Correct.{HasTree};

use crate::bounds::push_count;
use crate::fault::{faulty_token, spread_judged};
use crate::hints::push_hint;
use crate::lending::push_lent;
use crate::meaning::push_meaning;
use crate::names::{push_around, push_around_place, push_named, push_names, push_numbered};
use crate::place::{push_line, push_spot};
use crate::words::{push_expected, push_found, push_found_token};
use ppm_answers::{Pass, Refusal};
use ppm_expected::{Expected, expected_at_fault};
use ppm_parser::parse;
use ppm_text::{Token, Tokens, tokens};
use ppm_tree::{Program, Tree};
use ppm_words::NoMemory;
use std::alloc::Global;

/// Appends the place of a fault of bytes; where the text is too long nothing.
fn push_bytes_spot(text: &mut Vec<u8>, source: &[u8], refusal: Refusal) -> Result<(), NoMemory>
    ensures { OnOk result (text.new.items ≡ text.old.items ++ bytes_spot source.now refusal) }
{
    if refusal.number == 5 {
        return Ok(());
    }
    push_spot(text, source, refusal.place)
}

/// What is said of a fault of bytes.
fn bytes_notes(alloc: Global, source: &[u8], refusal: Refusal) -> Result<Vec<u8>, NoMemory>
    ensures { IfOk result (λ text. text.items ≡ notes_of_bytes source.now refusal) }
{
    let mut text = Vec::new(alloc);
    push_bytes_spot(&mut text, source, refusal)?;
    push_meaning(&mut text, refusal)?;
    Ok(text)
}

/// What is said of a token that cannot come, or of the end, by what could stand there.
fn stop_notes(
    alloc: Global,
    source: &[u8],
    tokens: &[Token],
    expected: &Expected,
    refusal: Refusal,
) -> Result<Vec<u8>, NoMemory>
    ensures { IfOk result (λ text. text.items
        ≡ notes_of_stop source.now tokens.now (map terminal_of expected.now.terminals.items) expected.now.end refusal) }
{
    let mut text = Vec::new(alloc);
    push_spot(&mut text, source, refusal.place)?;
    push_found(&mut text, tokens, refusal.place)?;
    push_expected(&mut text, expected)?;
    push_hint(&mut text, &expected.terminals, tokens, refusal.place)?;
    push_meaning(&mut text, refusal)?;
    Ok(text)
}

/// What is said of a token that passes a limit.
fn limit_notes(
    alloc: Global,
    source: &[u8],
    tokens: &[Token],
    refusal: Refusal,
) -> Result<Vec<u8>, NoMemory>
    ensures { IfOk result (λ text. text.items ≡ notes_of_limit source.now tokens.now refusal) }
{
    let mut text = Vec::new(alloc);
    push_spot(&mut text, source, refusal.place)?;
    push_found(&mut text, tokens, refusal.place)?;
    push_meaning(&mut text, refusal)?;
    Ok(text)
}

/// What is said of a fault of names and regions.
fn line_notes(
    alloc: Global,
    source: &[u8],
    tokens: &[Token],
    refusal: Refusal,
) -> Result<Vec<u8>, NoMemory>
    ensures { IfOk result (λ text. text.items ≡ notes_of_line source.now tokens.now refusal) }
{
    let mut text = Vec::new(alloc);
    if refusal.place == 0 {
        push_meaning(&mut text, refusal)?;
        return Ok(text);
    }
    push_line(&mut text, source, refusal.place)?;
    push_names(alloc, &mut text, tokens, refusal.place)?;
    push_around(&mut text, tokens, refusal.place)?;
    push_meaning(&mut text, refusal)?;
    Ok(text)
}

/// What is said of a fault of names and regions whose token is known.
fn token_notes(
    alloc: Global,
    source: &[u8],
    tokens: &[Token],
    token: &Token,
    refusal: Refusal,
) -> Result<Vec<u8>, NoMemory>
    ensures { IfOk result (λ text. text.items
        ≡ notes_of_token source.now tokens.now token.now refusal) }
{
    let mut text = Vec::new(alloc);
    push_spot(&mut text, source, token.place)?;
    push_found_token(&mut text, token)?;
    push_named(alloc, &mut text, tokens, token.line, &token.kind)?;
    push_lent(&mut text, source, tokens, token, refusal.number)?;
    push_around_place(&mut text, tokens, token.place)?;
    push_meaning(&mut text, refusal)?;
    Ok(text)
}

/// What is said of a fault of names and regions, by how the text is judged in which each token has
/// a line of its own.
fn fault_notes(
    alloc: Global,
    source: &[u8],
    tokens: &[Token],
    judged: Option<Refusal>,
    refusal: Refusal,
) -> Result<Vec<u8>, NoMemory>
    ensures { IfOk result (λ text. text.items
        ≡ notes_of_fault source.now tokens.now (faulty refusal tokens.now judged) refusal) }
{
    match faulty_token(refusal, tokens, judged) {
        None => line_notes(alloc, source, tokens, refusal),
        Some(token) => token_notes(alloc, source, tokens, token, refusal),
    }
}

/// Appends the procedure that passes a bound; of the bound on capsules nothing.
fn push_bound_procedure(
    text: &mut Vec<u8>,
    tokens: &[Token],
    refusal: Refusal,
) -> Result<(), NoMemory>
    ensures { OnOk result (text.new.items ≡ text.old.items ++ bound_procedure tokens.now refusal) }
{
    if refusal.number == 2 {
        return Ok(());
    }
    push_numbered(text, tokens, refusal.place)
}

/// What is said of a bound that is passed.
fn bound_notes(
    alloc: Global,
    tokens: &[Token],
    tree: &Tree,
    refusal: Refusal,
) -> Result<Vec<u8>, NoMemory>
    ensures { IfOk result (λ text. text.items
        ≡ notes_of_bound refusal tokens.now (tree_of tree.now)) }
{
    let mut text = Vec::new(alloc);
    push_bound_procedure(&mut text, tokens, refusal)?;
    push_count(alloc, &mut text, tree, refusal)?;
    push_meaning(&mut text, refusal)?;
    Ok(text)
}

/// What is said of a refusal without a place.
fn plain_notes(alloc: Global, refusal: Refusal) -> Result<Vec<u8>, NoMemory>
    ensures { IfOk result (λ text. text.items ≡ meaning_text refusal) }
{
    let mut text = Vec::new(alloc);
    push_meaning(&mut text, refusal)?;
    Ok(text)
}

/// The tokens of a text that has some: it is refused for what comes after them, so only want of
/// memory stops this.
fn tokens_of(alloc: Global, source: &[u8]) -> Result<Tokens, NoMemory>
    ensures { IfOk result (λ all. HasTokens source.now all.tokens) }
{
    match tokens(alloc, source) {
        Ok(all) => Ok(all),
        Err(_) => Err(NoMemory),
    }
}

/// What is said of a token that cannot come, or of the end.
fn stopped_notes(
    alloc: Global,
    source: &[u8],
    all: &Tokens,
    refusal: Refusal,
) -> Result<Vec<u8>, NoMemory>
    requires lexed { HasTokens source.now all.now.tokens }
    ensures { IfOk result (λ text. ByStop source.now refusal text.items) }
{
    let expected = expected_at_fault(alloc, all)?;
    stop_notes(alloc, source, all.as_slice(), &expected, refusal)
}

/// What is said of a fault of tokens.
fn syntax_notes(
    alloc: Global,
    source: &[u8],
    all: &Tokens,
    refusal: Refusal,
) -> Result<Vec<u8>, NoMemory>
    requires lexed { HasTokens source.now all.now.tokens }
    ensures { IfOk result (λ text. BySyntax source.now refusal text.items) }
{
    if refusal.number < 3 {
        stopped_notes(alloc, source, all, refusal)
    } else {
        limit_notes(alloc, source, all.as_slice(), refusal)
    }
}

/// What is said of a fault of names and regions.
fn region_notes(
    alloc: Global,
    source: &[u8],
    all: &Tokens,
    refusal: Refusal,
) -> Result<Vec<u8>, NoMemory>
    requires lexed { HasTokens source.now all.now.tokens }
    ensures { IfOk result (λ text. ByFault source.now refusal text.items) }
{
    let tokens = all.as_slice();
    let judged = spread_judged(alloc, tokens)?;
    fault_notes(alloc, source, tokens, judged, refusal)
}

/// The tree of tokens that have one: the text is refused for a bound that the tree passes, so only
/// want of memory stops this.
fn tree_of_tokens(alloc: Global, all: &Tokens) -> Result<Program, NoMemory>
    ensures { IfOk result (λ program. HasTree all.now.tokens (tree_of program)) }
{
    match parse(alloc, all) {
        Ok(program) => Ok(program),
        Err(_) => Err(NoMemory),
    }
}

/// What is said of a bound of the compiler that is passed.
fn cut_notes(
    alloc: Global,
    source: &[u8],
    all: &Tokens,
    refusal: Refusal,
) -> Result<Vec<u8>, NoMemory>
    requires lexed { HasTokens source.now all.now.tokens }
    ensures { IfOk result (λ text. ByTree source.now (notes_of_bound refusal) text.items) }
{
    let program = tree_of_tokens(alloc, all)?;
    bound_notes(alloc, all.as_slice(), program.tree(), refusal)
}

/// What is said, after the line of its refusal, of a source that is refused for this reason: the
/// place, the line with a mark, what stands there and what could, how a name is declared, the
/// procedure, the count that passes a bound, and what the refusal means. The refusal is to be that of this source. `Err` only
/// where memory is refused.
pub fn source_notes(alloc: Global, source: &[u8], refusal: Refusal) -> Result<Vec<u8>, NoMemory>
    ensures { IfOk result (λ text. AreNotes source.now refusal text.items) }
{
    match refusal.pass {
        Pass::Text => bytes_notes(alloc, source, refusal),
        Pass::Syntax => {
            let all = tokens_of(alloc, source)?;
            syntax_notes(alloc, source, &all, refusal)
        }
        Pass::Region => {
            let all = tokens_of(alloc, source)?;
            region_notes(alloc, source, &all, refusal)
        }
        Pass::Cut => {
            let all = tokens_of(alloc, source)?;
            cut_notes(alloc, source, &all, refusal)
        }
        Pass::Ram => plain_notes(alloc, refusal),
    }
}
