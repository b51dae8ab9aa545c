//! What stands at a place, and what could stand there, in words.
ghost use Rattle.std.specs.Prelude.{◌≡◌, ◌++◌, OnOk, map, MatchOption, None, Some};
ghost use Rattle.ppm_printer.specs.Spelled.{token_text};
ghost use Rattle.ppm_expected.specs.Language.{terminal_of};
ghost use Rattle.ppm_explain.specs.Words.{quoted, kind_text, found_text, terminal_text, more_text};
ghost use Rattle.ppm_explain.specs.Words.{kinds_text, end_text, expected_text, further_text};
ghost use Rattle.ppm_explain.specs.Words.{counted_text, located_text, four_text, listed_text};
ghost use Rattle.ppm_explain.specs.Words.{kind_name as name_of_kind, thing_text, token_in};

use ppm_expected::{Expected, Terminal};
use ppm_pieces::push_number;
use ppm_printer::{keyword_spelling, sign_spelling};
use ppm_text::{Kind, Token};
use ppm_words::NoMemory;

/// Appends a word.
pub fn push_word(text: &mut Vec<u8>, word: &str) -> Result<(), NoMemory>
    ensures { OnOk result (text.new.items ≡ text.old.items ++ word.now) }
{
    text.extend_from_slice(word.as_bytes())?;
    Ok(())
}

/// Appends a number after words.
pub(crate) fn push_counted(text: &mut Vec<u8>, words: &str, number: u32) -> Result<(), NoMemory>
    ensures { OnOk result (text.new.items ≡ text.old.items ++ counted_text words.now number) }
{
    push_word(text, words)?;
    push_number(text, u64::from(number))?;
    Ok(())
}

/// Appends a token after words, and its line after others.
pub(crate) fn push_located(
    text: &mut Vec<u8>,
    words: &str,
    token: &Token,
    others: &str,
) -> Result<(), NoMemory>
    ensures { OnOk result (text.new.items ≡ text.old.items
        ++ located_text words.now token.now.kind others.now token.now.line) }
{
    push_word(text, words)?;
    push_spelling(text, &token.kind)?;
    push_word(text, others)?;
    push_number(text, u64::from(token.line))?;
    push_word(text, "\n")
}

/// Appends four words, one after another.
pub(crate) fn push_four(
    text: &mut Vec<u8>,
    first: &str,
    second: &str,
    third: &str,
    last: &str,
) -> Result<(), NoMemory>
    ensures { OnOk result (text.new.items
        ≡ text.old.items ++ four_text first.now second.now third.now last.now) }
{
    push_word(text, first)?;
    push_word(text, second)?;
    push_word(text, third)?;
    push_word(text, last)
}

/// Appends the spelling of a token.
pub(crate) fn push_spelling(text: &mut Vec<u8>, kind: &Kind) -> Result<(), NoMemory>
    ensures { OnOk result (text.new.items ≡ text.old.items ++ token_text kind.now) }
{
    match kind {
        Kind::Name(name) => {
            text.extend_from_slice(name.as_bytes())?;
            Ok(())
        }
        Kind::Number(literal) => {
            push_number(text, literal.to_u64())?;
            Ok(())
        }
        Kind::Keyword(keyword) => push_word(text, keyword_spelling(*keyword)),
        Kind::Sign(sign) => push_word(text, sign_spelling(*sign)),
    }
}

/// What a token is called.
fn kind_name(kind: &Kind) -> &'static str
    ensures { result.now ≡ name_of_kind kind.now }
{
    match kind {
        Kind::Name(_) => "the name ",
        Kind::Number(_) => "the number ",
        Kind::Keyword(_) => "the word ",
        Kind::Sign(_) => "the sign ",
    }
}

/// Appends a token: what it is called, and its spelling.
fn push_kind(text: &mut Vec<u8>, kind: &Kind) -> Result<(), NoMemory>
    ensures { OnOk result (text.new.items ≡ text.old.items ++ kind_text kind.now) }
{
    push_word(text, kind_name(kind))?;
    push_word(text, "`")?;
    push_spelling(text, kind)?;
    push_word(text, "`")
}

/// Appends a word in backticks.
pub fn push_quoted(text: &mut Vec<u8>, word: &str) -> Result<(), NoMemory>
    ensures { OnOk result (text.new.items ≡ text.old.items ++ quoted word.now) }
{
    push_word(text, "`")?;
    push_word(text, word)?;
    push_word(text, "`")
}

/// Appends a kind of tokens.
fn push_terminal(text: &mut Vec<u8>, terminal: Terminal) -> Result<(), NoMemory>
    ensures { OnOk result (text.new.items
        ≡ text.old.items ++ terminal_text (terminal_of terminal)) }
{
    match terminal {
        Terminal::Name => push_word(text, "a name"),
        Terminal::Number => push_word(text, "a number"),
        Terminal::Word(keyword) => push_quoted(text, keyword_spelling(keyword)),
        Terminal::Mark(sign) => push_quoted(text, sign_spelling(sign)),
    }
}

/// Appends a kind of tokens after others.
fn push_further(text: &mut Vec<u8>, terminal: Terminal) -> Result<(), NoMemory>
    ensures { OnOk result (text.new.items
        ≡ text.old.items ++ further_text (terminal_of terminal)) }
{
    push_word(text, ", ")?;
    push_terminal(text, terminal)
}

/// Appends kinds of tokens after others.
fn push_more(text: &mut Vec<u8>, terminals: &[Terminal]) -> Result<(), NoMemory>
    ensures { OnOk result (text.new.items
        ≡ text.old.items ++ more_text (map terminal_of terminals.now)) }
{
    let mut left = terminals;
    'terminals: while let Some((terminal, rest)) = left.split_first() {
        push_further(text, *terminal)?;
        left = rest;
    }
    Ok(())
}

/// Appends kinds of tokens, with a comma between each two.
fn push_kinds(text: &mut Vec<u8>, terminals: &[Terminal]) -> Result<(), NoMemory>
    ensures { OnOk result (text.new.items
        ≡ text.old.items ++ kinds_text (map terminal_of terminals.now)) }
{
    match terminals.split_first() {
        None => Ok(()),
        Some((first, rest)) => {
            push_terminal(text, *first)?;
            push_more(text, rest)
        }
    }
}

/// What is said of the end of the text after what could stand there.
fn end_word(end: bool) -> &'static str
    ensures { result.now ≡ end_text end }
{
    if end { ", or the end of the text" } else { "" }
}

/// Appends the line of what could stand at a place.
pub(crate) fn push_expected(text: &mut Vec<u8>, expected: &Expected) -> Result<(), NoMemory>
    ensures { OnOk result (text.new.items ≡ text.old.items
        ++ expected_text (map terminal_of expected.now.terminals.items) expected.now.end) }
{
    push_listed(text, "expected: ", expected)
}

/// Appends a line of what could stand at a place, after other words.
fn push_listed(text: &mut Vec<u8>, words: &str, expected: &Expected) -> Result<(), NoMemory>
    ensures { OnOk result (text.new.items ≡ text.old.items
        ++ listed_text words.now (map terminal_of expected.now.terminals.items) expected.now.end) }
{
    push_word(text, words)?;
    push_kinds(text, &expected.terminals)?;
    push_word(text, end_word(expected.end))?;
    push_word(text, "\n")
}

/// The token that begins at the place, if one does.
pub(crate) fn token_at(tokens: &[Token], place: u32) -> Option<&Token>
    ensures { MatchOption result (token_in place tokens.now ≡ None)
        (λ t. token_in place tokens.now ≡ Some t.now) }
{
    let mut left = tokens;
    'tokens: while let Some((token, rest)) = left.split_first() {
        if token.place == place {
            return Some(token);
        }
        left = rest;
    }
    None
}

/// Appends what stands at a place: a token, or the end of the text.
fn push_thing(text: &mut Vec<u8>, tokens: &[Token], place: u32) -> Result<(), NoMemory>
    ensures { OnOk result (text.new.items
        ≡ text.old.items ++ thing_text (token_in place tokens.now)) }
{
    match token_at(tokens, place) {
        None => push_word(text, "the end of the text"),
        Some(token) => push_kind(text, &token.kind),
    }
}

/// Appends the line of what stands at a place.
pub(crate) fn push_found(text: &mut Vec<u8>, tokens: &[Token], place: u32) -> Result<(), NoMemory>
    ensures { OnOk result (text.new.items
        ≡ text.old.items ++ found_text (token_in place tokens.now)) }
{
    push_word(text, "found: ")?;
    push_thing(text, tokens, place)?;
    push_word(text, "\n")
}

/// Appends the line of a token that is found.
pub(crate) fn push_found_token(text: &mut Vec<u8>, token: &Token) -> Result<(), NoMemory>
    ensures { OnOk result (text.new.items ≡ text.old.items ++ found_text (Some token.now)) }
{
    push_word(text, "found: ")?;
    push_kind(text, &token.kind)?;
    push_word(text, "\n")
}
