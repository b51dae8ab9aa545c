//! What is said of the text of a listing that is refused.
ghost use Rattle.std.specs.Prelude.{◌≡◌, ◌++◌, ◌+◌, IfOk, OnOk, None, [], option_map};
ghost use Rattle.ppm_notes.specs.Listings.{above_of as above_in, array_word as array_word_at, conflict_notes as notes_of_conflict};
ghost use Rattle.ppm_notes.specs.Listings.{count_in, end_word as end_word_after, fault_line};
ghost use Rattle.ppm_notes.specs.Listings.{fault_notes as notes_of_fault, stop_count};
ghost use Rattle.ppm_notes.specs.Listings.{listing_notes as notes_of_listing, row_text, rule_notes};
ghost use Rattle.ppm_notes.specs.Listings.{spot_of, stop_notes, stop_text, stop_words, wanted_in};

use crate::above::{Above, below_lines};
use crate::form::push_form;
use crate::meaning::{conflict_words, listing_meaning, long_words, push_note};
use crate::operands::{fitting, lead, leads, operands, push_operand};
use crate::wanted::push_keywords;
use crate::words::{
    after_words, capsules_above, column, operand_tokens, push_thing, text_after, word_at,
};
use ppm_answers::ListingRefusal;
use ppm_explain::{is_last_line, line_bytes, push_line, push_marked, push_shown, push_word};
use ppm_listing::Keyword;
use ppm_listing_reader::LISTING_LIMIT;
use ppm_pieces::{push_number, value};
use ppm_words::{ARRAY_LIMIT, NoMemory};
use std::alloc::Global;

/// Appends what stands in a line after some words, with a mark under it.
fn push_spot(
    text: &mut Vec<u8>,
    listing: &[u8],
    line: u32,
    rest: Option<&[u8]>,
) -> Result<(), NoMemory>
    ensures { OnOk result (text.new.items
        ≡ text.old.items ++ spot_of listing.now line (option_map (λ r. r.now) rest.entry)) }
{
    let bytes = line_bytes(listing, line as usize);
    push_marked(text, line as usize, bytes, column(bytes, rest))?;
    push_word(text, "found: ")?;
    push_thing(text, is_last_line(listing, line as usize), bytes, rest)?;
    push_word(text, "\n")
}

/// What could stand in a line after its keyword and the words that may stand there, by the line's
/// number in the listing and by how many capsules begin above it; and how many words these are,
/// with the keyword.
fn expected_in(
    alloc: Global,
    at: usize,
    capsules: u32,
    keyword: Keyword,
    bytes: &[u8],
) -> Result<(usize, Vec<u8>), NoMemory>
    ensures count { IfOk result (λ e. e.0 ≡ count_in at capsules keyword bytes.now + 1) }
    ensures words { IfOk result (λ e. e.1.items ≡ wanted_in at capsules keyword bytes.now) }
{
    let tokens = operand_tokens(alloc, bytes)?;
    let wanted = operands(alloc, at, capsules, keyword, &tokens)?;
    let count = fitting(&wanted, &tokens);
    let mut words = Vec::new(alloc);
    push_operand(&mut words, keyword, &wanted, count)?;
    Ok((count + 1, words))
}

/// What could stand beside the version in the first line of a listing, by how many lines stand above
/// it and by the line's number in it: in a case one more array, if it is not one too many.
fn array_word(in_case: bool, above: usize, at: usize) -> &'static str
    ensures { result.now ≡ array_word_at in_case above at }
{
    if in_case && (at == 1 && above < ARRAY_LIMIT) {
        "`array`, "
    } else {
        ""
    }
}

/// What is said of the end of the text: it may come after an end.
fn end_word(is_ended: bool) -> &'static str
    ensures { result.now ≡ end_word_after is_ended }
{
    if is_ended {
        ", the end of the text"
    } else {
        ""
    }
}

/// What could stand at the front of a line, by what the lines above say.
fn front_words(
    alloc: Global,
    in_case: bool,
    above: usize,
    at: usize,
    capsules: u32,
    known: Above,
) -> Result<Vec<u8>, NoMemory>
    ensures { IfOk result (λ words. words.items ≡ stop_words in_case above at capsules known None []) }
{
    let keywords = leads(alloc, at, capsules, known)?;
    let mut words = Vec::new(alloc);
    push_word(&mut words, array_word(in_case, above, at))?;
    push_keywords(&mut words, &keywords)?;
    push_word(&mut words, end_word(known.is_ended))?;
    Ok(words)
}

/// What could stand at the place of a line at which it departs from every form, and after how many
/// words this place is.
fn stop_in(
    alloc: Global,
    in_case: bool,
    above: usize,
    at: usize,
    capsules: u32,
    known: Above,
    keyword: Option<Keyword>,
    bytes: &[u8],
) -> Result<(usize, Vec<u8>), NoMemory>
    ensures count { IfOk result (λ e. e.0 ≡ stop_count at capsules keyword bytes.now) }
    ensures words { IfOk result (λ e. e.1.items ≡ stop_words in_case above at capsules known keyword bytes.now) }
{
    match keyword {
        None => {
            let words = front_words(alloc, in_case, above, at, capsules, known)?;
            Ok((0, words))
        }
        Some(keyword) => expected_in(alloc, at, capsules, keyword, bytes),
    }
}

/// What the lines above a line of a text say of it, where so many stand above the listing.
fn above_of(text: &[u8], above: usize, line: u32) -> Above
    ensures { result ≡ above_in above text.now line }
{
    let root = value(word_at(line_bytes(text_after(text, above), 2), 1));
    let known = Above {
        root,
        is_first: false,
        is_ended: false,
        has_room: false,
    };
    below_lines(known, text, line.saturating_sub(1))
}

/// Appends what stands in a line after some words, with a mark under it, and what could stand there.
pub(crate) fn push_stop_text(
    text: &mut Vec<u8>,
    listing: &[u8],
    line: u32,
    rest: Option<&[u8]>,
    expected: &[u8],
) -> Result<(), NoMemory>
    ensures { OnOk result (text.new.items
        ≡ text.old.items ++ stop_text listing.now line (option_map (λ r. r.now) rest.entry) expected.now) }
{
    push_spot(text, listing, line, rest)?;
    push_word(text, "expected: ")?;
    text.extend_from_slice(expected)?;
    push_word(text, "\n")
}

/// Appends the first word of a line that may not stand there, and what could in its place.
fn push_stop(
    alloc: Global,
    text: &mut Vec<u8>,
    listing: &[u8],
    in_case: bool,
    above: usize,
    line: u32,
) -> Result<(), NoMemory>
    ensures { OnOk result (text.new.items ≡ text.old.items ++ stop_notes in_case above listing.now line) }
{
    let bytes = line_bytes(listing, line as usize);
    let at = (line as usize).saturating_sub(above);
    let capsules = capsules_above(listing, line.saturating_sub(1));
    let known = above_of(listing, above, line);
    let (count, words) = stop_in(
        alloc,
        in_case,
        above,
        at,
        capsules,
        known,
        lead(at, capsules, bytes),
        bytes,
    )?;
    push_stop_text(text, listing, line, after_words(bytes, count), &words)
}

/// Appends a line that breaks another rule, and its form.
fn push_rule(text: &mut Vec<u8>, listing: &[u8], above: usize, line: u32) -> Result<(), NoMemory>
    ensures { OnOk result (text.new.items ≡ text.old.items ++ rule_notes above listing.now line) }
{
    push_line(text, listing, line)?;
    let capsules = capsules_above(listing, line.saturating_sub(1));
    let bytes = line_bytes(listing, line as usize);
    push_form(
        text,
        lead((line as usize).saturating_sub(above), capsules, bytes),
    )
}

/// Appends the line of a fault.
fn push_fault(
    alloc: Global,
    text: &mut Vec<u8>,
    listing: &[u8],
    in_case: bool,
    above: usize,
    refusal: ListingRefusal,
) -> Result<(), NoMemory>
    ensures { OnOk result (text.new.items ≡ text.old.items ++ fault_line in_case above listing.now refusal) }
{
    if refusal.number == 1 {
        return push_stop(alloc, text, listing, in_case, above, refusal.line);
    }
    push_rule(text, listing, above, refusal.line)
}

/// What is said of a fault of a listing that stands below so many lines of a text, those of arrays
/// where it is in a case: its line, and what the refusal means.
pub(crate) fn fault_notes(
    alloc: Global,
    text: &[u8],
    in_case: bool,
    above: usize,
    refusal: ListingRefusal,
) -> Result<Vec<u8>, NoMemory>
    ensures { IfOk result (λ notes. notes.items ≡ notes_of_fault in_case above text.now refusal) }
{
    let mut notes = Vec::new(alloc);
    push_fault(alloc, &mut notes, text, in_case, above, refusal)?;
    push_note(&mut notes, listing_meaning(refusal.number))?;
    Ok(notes)
}

/// What is said, after the line of its refusal, of a text that is no listing, for this fault: where
/// the fault is, what stands there, what could, and what the refusal means. `Err` only where memory
/// is refused.
pub fn listing_notes(
    alloc: Global,
    text: &[u8],
    refusal: ListingRefusal,
) -> Result<Vec<u8>, NoMemory>
    ensures { IfOk result (λ notes. notes.items ≡ notes_of_listing text.now refusal) }
{
    if text.len() > LISTING_LIMIT {
        let mut notes = Vec::new(alloc);
        push_note(&mut notes, long_words())?;
        return Ok(notes);
    }
    fault_notes(alloc, text, false, 0, refusal)
}

/// Appends a line of a listing, with its number, from 1, after words.
pub(crate) fn push_row(
    text: &mut Vec<u8>,
    words: &str,
    listing: &[u8],
    line: u64,
) -> Result<(), NoMemory>
    ensures { OnOk result (text.new.items ≡ text.old.items ++ row_text words.now listing.now line) }
{
    push_word(text, words)?;
    push_number(text, line)?;
    push_word(text, "\n")?;
    push_shown(text, line_bytes(listing, line as usize))
}

/// What is said, after the line of its refusal, of a listing with a conflict, by the lines in which
/// it reads and writes, which count from 1: both lines, and what the conflict means. `Err` only
/// where memory is refused.
pub fn conflict_notes(
    alloc: Global,
    text: &[u8],
    read: u64,
    write: u64,
) -> Result<Vec<u8>, NoMemory>
    ensures { IfOk result (λ notes. notes.items ≡ notes_of_conflict text.now read write) }
{
    let mut notes = Vec::new(alloc);
    push_row(&mut notes, "read in line ", text, read)?;
    push_row(&mut notes, "written in line ", text, write)?;
    push_note(&mut notes, conflict_words())?;
    Ok(notes)
}
