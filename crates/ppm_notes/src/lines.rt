//! What is said of a case or a saved text that is refused.
ghost use Rattle.std.specs.Prelude.{◌≡◌, ◌++◌, IfOk, OnOk};
ghost use Rattle.ppm_notes.specs.Lines.{case_notes as notes_of_case};
ghost use Rattle.ppm_notes.specs.Lines.{input_meaning as input_words, input_notes as notes_of_input};
ghost use Rattle.ppm_notes.specs.Lines.{is_of_word as is_of_some_word, long_case, long_saved};
ghost use Rattle.ppm_notes.specs.Lines.{saved_line, saved_meaning as saved_words};
ghost use Rattle.ppm_notes.specs.Lines.{saved_notes as notes_of_saved, untidy_meaning};
ghost use Rattle.ppm_notes.specs.Lines.{untidy_notes as notes_of_untidy};

use crate::due::push_dues;
use crate::listing::{fault_notes, push_row};
use crate::meaning::{note_of, push_note};
use crate::rows::{arrays_above, case_row};
use crate::saved_rows::{count_of, saved_row, words_due};
use ppm_answers::{InputRefusal, ListingRefusal, SavedRefusal, UntidyStore};
use ppm_case::CASE_LIMIT;
use ppm_explain::{line_bytes, push_line};
use ppm_saved_reader::SAVED_LIMIT;
use ppm_words::NoMemory;
use std::alloc::Global;

/// What a fault of the arrays or of the root of a case means, by its number.
#[tactic(auto, unfolding(crate::specs::Lines::input_meaning))]
fn input_meaning(number: u32) -> &'static str
    ensures { result.now ≡ input_words number }
{
    match number {
        1 =>
            "the line of an array is `array NAME LENGTH`, and its first values behind it, as `7` or `7*3`, with one blank between two words and numbers without zeros in front; the name has 32 bytes at most and is none of the language's words",
        2 =>
            "a length is 4194304 at most, a count 1 to 4194304, a value fits 64 bits, and there are no more values than the length says",
        3 => "an array above has this name",
        4 => "there are 64 arrays at most, with 4194304 words together",
        5 => "the root names an array that is not there; arrays count from 0",
        _ => "",
    }
}

/// What is said of a case that is too long.
fn long_case_words() -> &'static str
    ensures { result.now ≡ long_case }
{
    "a case has 536870912 bytes at most"
}

/// What a store that is not tidy means.
fn untidy_words() -> &'static str
    ensures { result.now ≡ untidy_meaning }
{
    "a `storenew` fills a slot of a frame that the end of its path builds, and no instruction after it on that path can trap"
}

/// What is said of a saved text that is too long.
fn long_saved_words() -> &'static str
    ensures { result.now ≡ long_saved }
{
    "a saved text has 671088640 bytes at most"
}

/// What a fault of a saved text means, by its number.
#[tactic(auto, unfolding(crate::specs::Lines::saved_meaning))]
fn saved_meaning(number: u32) -> &'static str
    ensures { result.now ≡ saved_words number }
{
    match number {
        1 =>
            "a line has the form of its place, as `stop` writes it, with a line feed at its end; the name of an array comes once, a word that comes again is counted, and as many bytes as it says follow `code`",
        2 =>
            "a number of this line is out of its range: there are 1 to 64 processors, 64 words of room at least in each place and 4194304 at most in all together, 2 to 4096 slots, 64 arrays at most with 4194304 words together; a word has 64 bits",
        3 =>
            "the bytes after this line are no listing, or its root names an array that is not there; `explain --input case` says more, of the lines of arrays and these bytes",
        4 =>
            "the code after this line has a conflict, or is not tidy; `explain --input case` says more, of the lines of arrays and these bytes",
        5 => "the words are not as many as the sizes of the text say",
        _ => "",
    }
}

/// What is said, after the line of its refusal, of a case whose arrays or whose root have this
/// fault: the line, its first word that may not stand there and what could, and what the refusal
/// means. `Err` only where memory is refused.
pub fn input_notes(alloc: Global, text: &[u8], refusal: InputRefusal) -> Result<Vec<u8>, NoMemory>
    ensures { IfOk result (λ notes. notes.items ≡ notes_of_input text.now refusal) }
{
    if text.len() > CASE_LIMIT {
        return note_of(alloc, long_case_words());
    }
    let dues = case_row(alloc, refusal.number, text, refusal.line)?;
    let mut notes = Vec::new(alloc);
    push_dues(alloc, &mut notes, text, refusal.line, &dues)?;
    push_note(&mut notes, input_meaning(refusal.number))?;
    Ok(notes)
}

/// What is said, after the line of its refusal, of a case whose listing has this fault. `Err` only
/// where memory is refused.
pub fn case_notes(alloc: Global, text: &[u8], refusal: ListingRefusal) -> Result<Vec<u8>, NoMemory>
    ensures { IfOk result (λ notes. notes.items ≡ notes_of_case text.now refusal) }
{
    if text.len() > CASE_LIMIT {
        return note_of(alloc, long_case_words());
    }
    fault_notes(alloc, text, true, arrays_above(text), refusal)
}

/// What is said, after its line, of a case with a store that is not tidy: the store, and what it
/// means. `Err` only where memory is refused.
pub fn untidy_notes(alloc: Global, text: &[u8], store: UntidyStore) -> Result<Vec<u8>, NoMemory>
    ensures { IfOk result (λ notes. notes.items ≡ notes_of_untidy text.now store) }
{
    let mut notes = Vec::new(alloc);
    push_row(&mut notes, "line ", text, store.line)?;
    push_note(&mut notes, untidy_words())?;
    Ok(notes)
}

/// Whether a word of the line of a saved text is at fault: it has no form, or is past its range, or
/// is another count than the sizes say.
fn is_of_word(text: &[u8], refusal: SavedRefusal) -> bool
    ensures { result ≡ is_of_some_word text.now refusal }
{
    if refusal.number == 1 || refusal.number == 2 {
        return true;
    }
    refusal.number == 5 && count_of(line_bytes(text, refusal.line as usize)) != words_due(text)
}

/// Appends the line of a fault of a saved text, with the word at fault where it is one.
fn push_saved_line(
    alloc: Global,
    notes: &mut Vec<u8>,
    text: &[u8],
    refusal: SavedRefusal,
) -> Result<(), NoMemory>
    ensures { OnOk result (notes.new.items ≡ notes.old.items ++ saved_line text.now refusal) }
{
    if !is_of_word(text, refusal) {
        return push_line(notes, text, refusal.line);
    }
    let dues = saved_row(alloc, refusal.number, text, refusal.line)?;
    push_dues(alloc, notes, text, refusal.line, &dues)
}

/// What is said, after the line of its refusal, of a text that is that of no saved state: the line,
/// its first word that may not stand there and what could, and what the refusal means. `Err` only
/// where memory is refused.
pub fn saved_notes(alloc: Global, text: &[u8], refusal: SavedRefusal) -> Result<Vec<u8>, NoMemory>
    ensures { IfOk result (λ notes. notes.items ≡ notes_of_saved text.now refusal) }
{
    if text.len() > SAVED_LIMIT {
        return note_of(alloc, long_saved_words());
    }
    let mut notes = Vec::new(alloc);
    push_saved_line(alloc, &mut notes, text, refusal)?;
    push_note(&mut notes, saved_meaning(refusal.number))?;
    Ok(notes)
}
