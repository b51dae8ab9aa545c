//! The words of a line.
ghost use Rattle.std.specs.Prelude.{◌≡◌, ◌++◌, IfOk, OnOk, codes, map, option_map};
ghost use Rattle.ppm_explain.specs.Words.{quoted};
ghost use Rattle.ppm_pieces.specs.Pieces.{halves_of, split};
ghost use Rattle.ppm_listing_reader.specs.Tokens.{token_of};
ghost use Rattle.ppm_notes.specs.Words.{after_pieces as behind_pieces, after_words as behind_words};
ghost use Rattle.ppm_notes.specs.Words.{begins_capsule as is_capsule, first_piece as piece_in_front};
ghost use Rattle.ppm_notes.specs.Words.{behind_text, capsules_in, column_in};
ghost use Rattle.ppm_notes.specs.Words.{empty_name as name_of_empty, end_name as name_of_end, one_if as one_where};
ghost use Rattle.ppm_notes.specs.Words.{first_word as word_in_front, parted_text, return_text, text_after as text_behind, thing_text, tokens_in, word_at as word_there, word_text};

use ppm_explain::push_word;
use ppm_listing_reader::{Token, token_in};
use ppm_pieces::{same_bytes, split_once};
use ppm_words::NoMemory;
use std::alloc::Global;

/// The first piece of some bytes: what stands in front of the first separator, or all.
pub(crate) fn first_piece(bytes: &[u8], separator: u8) -> &[u8]
    ensures { result.now ≡ piece_in_front separator bytes.now }
{
    match split_once(bytes, separator) {
        Some((piece, _)) => piece,
        None => bytes,
    }
}

/// The first word of a line.
pub(crate) fn first_word(bytes: &[u8]) -> &[u8]
    ensures { result.now ≡ word_in_front bytes.now }
{
    first_piece(bytes, b' ')
}

/// What some bytes have after so many pieces, if they have more.
#[tactic(auto, using(crate::proofs::WordLemmas::next_piece, crate::proofs::WordLemmas::no_piece, crate::proofs::WordLemmas::all_pieces))]
pub(crate) fn after_pieces(bytes: &[u8], separator: u8, count: usize) -> Option<&[u8]>
    ensures { option_map (λ r. r.now) result ≡ behind_pieces separator count bytes.now }
{
    let mut left = bytes;
    let mut ahead = count;
    'pieces: while let Some((_, rest)) = split_once(left, separator) {
        if ahead == 0 {
            return Some(left);
        }
        left = rest;
        ahead -= 1;
    }
    if ahead == 0 { Some(left) } else { None }
}

/// What a text has after so many lines.
pub(crate) fn text_after(text: &[u8], lines: usize) -> &[u8]
    ensures { result.now ≡ text_behind lines text.now }
{
    match after_pieces(text, b'\n', lines) {
        Some(rest) => rest,
        None => b"",
    }
}

/// What a line has after so many words, if it has more.
pub(crate) fn after_words(line: &[u8], count: usize) -> Option<&[u8]>
    ensures { option_map (λ r. r.now) result ≡ behind_words count line.now }
{
    after_pieces(line, b' ', count)
}

/// The word after so many others of a line; nothing where there is none.
pub(crate) fn word_at(line: &[u8], count: usize) -> &[u8]
    ensures { result.now ≡ word_there count line.now }
{
    match after_words(line, count) {
        Some(rest) => first_word(rest),
        None => b"",
    }
}

/// The tokens of the words that some bytes have.
fn tokens_of(alloc: Global, bytes: &[u8]) -> Result<Vec<Token>, NoMemory>
    ensures { IfOk result (λ tokens. tokens.items ≡ map token_of (split 32 bytes.now)) }
{
    let mut tokens = Vec::new(alloc);
    let mut left = bytes;
    'words: while let Some((word, rest)) = split_once(left, b' ') {
        tokens.push(token_in(word))?;
        left = rest;
    }
    tokens.push(token_in(left))?;
    Ok(tokens)
}

/// The tokens of the words after the first one of a line.
pub(crate) fn operand_tokens(alloc: Global, line: &[u8]) -> Result<Vec<Token>, NoMemory>
    ensures { IfOk result (λ tokens. tokens.items ≡ tokens_in (behind_words 1 line.now)) }
{
    match after_words(line, 1) {
        Some(rest) => tokens_of(alloc, rest),
        None => Ok(Vec::new(alloc)),
    }
}

/// The column of what a line has after some words, from 1; that of its end where it has nothing.
pub(crate) fn column(line: &[u8], rest: Option<&[u8]>) -> usize
    ensures { result ≡ column_in line.now (option_map (λ r. r.now) rest.entry) }
{
    match rest {
        Some(rest) => line.len().saturating_sub(rest.len()) + 1,
        None => line.len() + 1,
    }
}

/// Whether a line is the first of a capsule.
pub(crate) fn begins_capsule(line: &[u8]) -> bool
    ensures { result ≡ is_capsule line.now }
{
    same_bytes(first_word(line), b"capsule")
}

/// One, if it is so.
fn one_if(yes: bool) -> u32
    ensures { result ≡ one_where yes }
{
    if yes { 1 } else { 0 }
}

/// How many of the first so many lines of a text are.
#[tactic(auto, using(crate::proofs::WordLemmas::next_line, crate::proofs::WordLemmas::last_line, crate::proofs::WordLemmas::no_line, crate::proofs::WordLemmas::capsules_few))]
pub(crate) fn capsules_above(text: &[u8], lines: u32) -> u32
    ensures { result ≡ capsules_in lines (split 10 text.now) }
{
    let mut left = text;
    let mut ahead = lines;
    let mut count = 0;
    'lines: while let Some((line, rest)) = split_once(left, b'\n') {
        if ahead == 0 {
            return count;
        }
        count += one_if(begins_capsule(line));
        left = rest;
        ahead -= 1;
    }
    if ahead == 0 {
        return count;
    }
    count + one_if(begins_capsule(left))
}

/// What the end of a line is called; after the last line it is that of the text.
fn end_name(is_last: bool) -> &'static str
    ensures { result.now ≡ name_of_end is_last }
{
    if is_last {
        "the end of the text"
    } else {
        "the end of the line"
    }
}

/// What an empty line is called; after the last line it is the end of the text.
fn empty_name(is_last: bool) -> &'static str
    ensures { result.now ≡ name_of_empty is_last }
{
    if is_last {
        "the end of the text"
    } else {
        "an empty line"
    }
}

/// Appends a word.
fn push_plain_word(text: &mut Vec<u8>, word: &[u8]) -> Result<(), NoMemory>
    ensures { OnOk result (text.new.items ≡ text.old.items ++ (codes "the word " ++ quoted word.now)) }
{
    push_word(text, "the word `")?;
    text.extend_from_slice(word)?;
    push_word(text, "`")
}

/// Appends what stands before a carriage return, and that.
fn push_return(text: &mut Vec<u8>, front: &[u8]) -> Result<(), NoMemory>
    ensures { OnOk result (text.new.items ≡ text.old.items ++ return_text front.now) }
{
    if front.is_empty() {
        return push_word(text, "a carriage return");
    }
    push_plain_word(text, front)?;
    push_word(text, ", then a carriage return")
}

/// Appends some bytes, which a carriage return may part.
fn push_parted(text: &mut Vec<u8>, bytes: &[u8]) -> Result<(), NoMemory>
    ensures { OnOk result (text.new.items
        ≡ text.old.items ++ parted_text (halves_of 13 bytes.now) bytes.now) }
{
    match split_once(bytes, b'\r') {
        Some((front, _)) => push_return(text, front),
        None => push_plain_word(text, bytes),
    }
}

/// Appends a word, or that there is none.
fn push_some_word(text: &mut Vec<u8>, word: &[u8]) -> Result<(), NoMemory>
    ensures { OnOk result (text.new.items ≡ text.old.items ++ word_text word.now) }
{
    if word.is_empty() {
        return push_word(text, "a blank");
    }
    push_parted(text, word)
}

/// Appends what a line has after some words: an empty line is told as such.
pub(crate) fn push_thing(
    text: &mut Vec<u8>,
    is_last: bool,
    line: &[u8],
    rest: Option<&[u8]>,
) -> Result<(), NoMemory>
    ensures { OnOk result (text.new.items
        ≡ text.old.items ++ thing_text is_last line.now (option_map (λ r. r.now) rest.entry)) }
{
    if line.is_empty() {
        return push_word(text, empty_name(is_last));
    }
    push_behind(text, is_last, rest)
}

/// Appends what a line has after some words: another one, or its end.
fn push_behind(text: &mut Vec<u8>, is_last: bool, rest: Option<&[u8]>) -> Result<(), NoMemory>
    ensures { OnOk result (text.new.items
        ≡ text.old.items ++ behind_text is_last (option_map (λ r. r.now) rest.entry)) }
{
    match rest {
        Some(rest) => push_some_word(text, first_word(rest)),
        None => push_word(text, end_name(is_last)),
    }
}
