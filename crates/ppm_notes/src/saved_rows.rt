//! The lines of a saved text.
ghost use Rattle.std.specs.Prelude.{◌≡◌, ◌≤◌, ◌<◌, ◌^◌, IfOk, take, drop, length};
ghost use Rattle.ppm_pieces.specs.Pieces.{split};
ghost use Rattle.ppm_saved_reader.specs.Lines.{run_in as run_of};
ghost use Rattle.ppm_saved_reader.specs.Rules.{line_feeds as feeds};
ghost use Rattle.ppm_notes.specs.Rows.{left_by};
ghost use Rattle.ppm_notes.specs.SavedRows.{arrays_of as arrays_in_text, below_code as text_below_code};
ghost use Rattle.ppm_notes.specs.SavedRows.{code_bytes as bytes_of_code, code_line as line_of_code, code_lines as lines_of_code};
ghost use Rattle.ppm_notes.specs.SavedRows.{code_row as row_of_code, count_of as count_in, count_row as row_of_count};
ghost use Rattle.ppm_notes.specs.SavedRows.{digits_in as digits_of, head_row as row_of_head, most_room as most_room_for};
ghost use Rattle.ppm_notes.specs.SavedRows.{named_row as row_of_named, other_row as row_of_other};
ghost use Rattle.ppm_notes.specs.SavedRows.{run_due as due_of_run, run_row as row_of_run, runs_left as left_in_text};
ghost use Rattle.ppm_notes.specs.SavedRows.{saved_row as row_of_saved, sizes_row as row_of_sizes};
ghost use Rattle.ppm_notes.specs.SavedRows.{times_in as times_of_line};
ghost use Rattle.ppm_notes.specs.Words.{text_after as text_behind};
ghost use Rattle.ppm_notes.specs.SavedRows.{version_row as row_of_version, words_due as words_of_text, words_for as words_of};

use crate::due::{Due, Literal};
use crate::rows::{arrays_above, is_array, is_named, name_due, room_after};
use crate::words::{first_piece, first_word, text_after, word_at};
use ppm_explain::line_bytes;
use ppm_pieces::{same_bytes, split_once, value};
use ppm_saved_reader::run_in;
use ppm_words::{ARRAY_LIMIT, NoMemory, PROCESSOR_LIMIT, WORD_LIMIT};
use std::alloc::Global;

/// The words of all pools together of a machine that may be stopped.
const MOST_SAVED_POOL_WORDS: u64 = 4_194_304;

/// The most slots of a deque of such a machine.
const MOST_SAVED_SLOTS: u64 = 4_096;

/// The number after the first word of a line.
pub(crate) fn count_of(line: &[u8]) -> u64
    ensures { result ≡ count_in line.now }
{
    value(word_at(line, 1))
}

/// How many lines of arrays stand below the first two.
fn arrays_of(text: &[u8]) -> usize
    ensures { result ≡ arrays_in_text text.now }
{
    arrays_above(text_after(text, 2))
}

/// How many lines bytes have: one for each line feed.
fn line_feeds(bytes: &[u8]) -> usize
    ensures value { result ≡ feeds bytes.now }
    ensures few { result ≤ length bytes.now }
{
    let mut count: usize = 0;
    let mut left = bytes;
    'bytes: while let Some((byte, rest)) = left.split_first() {
        if *byte == b'\n' {
            count += 1;
        }
        left = rest;
    }
    count
}

/// The first so many bytes, or all.
#[tactic(auto, using(crate::proofs::SavedLemmas::all_taken))]
fn first_bytes(bytes: &[u8], count: u64) -> &[u8]
    ensures { result.now ≡ take count bytes.now }
{
    if (bytes.len() as u64) <= count {
        return bytes;
    }
    &bytes[..count as usize]
}

/// What stands after the first so many bytes.
#[tactic(auto, using(crate::proofs::SavedLemmas::all_dropped))]
fn last_bytes(bytes: &[u8], count: u64) -> &[u8]
    ensures { result.now ≡ drop count bytes.now }
{
    if (bytes.len() as u64) <= count {
        return b"";
    }
    &bytes[count as usize..]
}

/// The line of the code, by its number.
#[tactic(auto, using(crate::proofs::LineLemmas::few))]
fn code_line(text: &[u8]) -> usize
    ensures { result ≡ line_of_code text.now }
{
    arrays_above(text_after(text, 2)) + 3
}

/// How many bytes the code has.
fn code_bytes(text: &[u8]) -> u64
    ensures { result ≡ bytes_of_code text.now }
{
    count_of(line_bytes(text, code_line(text)))
}

/// How many lines it has.
fn code_lines(text: &[u8]) -> usize
    ensures value { result ≡ lines_of_code text.now }
    ensures few { result < 2 ^ 63 }
{
    line_feeds(first_bytes(text_after(text, code_line(text)), code_bytes(text)))
}

/// The text below it: the count of words, and the words.
fn below_code(text: &[u8]) -> &[u8]
    ensures { result.now ≡ text_below_code text.now }
{
    last_bytes(text_after(text, code_line(text)), code_bytes(text))
}

/// The most words of room for each of so many processors.
fn most_room(processors: u64) -> u64
    ensures { result ≡ most_room_for processors }
{
    if 1 <= processors && processors <= u64::from(PROCESSOR_LIMIT) {
        MOST_SAVED_POOL_WORDS / processors
    } else {
        MOST_SAVED_POOL_WORDS
    }
}

/// What is due in the line of the sizes.
fn sizes_row(alloc: Global, ranged: bool, processors: u64) -> Result<Vec<Due>, NoMemory>
    ensures { IfOk result (λ dues. dues.items ≡ row_of_sizes ranged processors) }
{
    let mut dues = Vec::new(alloc);
    dues.push(Due::This(Literal::Shape))?;
    dues.push(Due::Number {
        least: 1,
        most: u64::from(PROCESSOR_LIMIT),
        ranged,
    })?;
    dues.push(Due::Number {
        least: 64,
        most: most_room(processors),
        ranged,
    })?;
    dues.push(Due::Number {
        least: 2,
        most: MOST_SAVED_SLOTS,
        ranged,
    })?;
    Ok(dues)
}

/// What is due in the line of an array after so many others, where there is room for so many words.
fn named_row(
    alloc: Global,
    number: u32,
    above: usize,
    room: u64,
    is_twice: bool,
) -> Result<Vec<Due>, NoMemory>
    ensures { IfOk result (λ dues. dues.items ≡ row_of_named number above room is_twice) }
{
    let mut dues = Vec::new(alloc);
    if number == 2 && ARRAY_LIMIT <= above {
        dues.push(Due::This(Literal::Code))?;
        return Ok(dues);
    }
    dues.push(Due::This(Literal::Array))?;
    dues.push(name_due(is_twice))?;
    dues.push(Due::Length {
        most: room,
        bound: if number == 2 { room } else { u64::MAX },
    })?;
    Ok(dues)
}

/// What is due in the line of the code, after which so many bytes follow.
fn code_row(alloc: Global, follow: usize) -> Result<Vec<Due>, NoMemory>
    ensures { IfOk result (λ dues. dues.items ≡ row_of_code follow) }
{
    let mut dues = Vec::new(alloc);
    dues.push(Due::This(Literal::Code))?;
    dues.push(Due::Length {
        most: follow as u64,
        bound: follow as u64,
    })?;
    Ok(dues)
}

/// What is due in a line that is neither.
fn other_row(alloc: Global, above: usize) -> Result<Vec<Due>, NoMemory>
    ensures { IfOk result (λ dues. dues.items ≡ row_of_other above) }
{
    let mut dues = Vec::new(alloc);
    dues.push(if ARRAY_LIMIT <= above {
        Due::This(Literal::Code)
    } else {
        Due::ArrayOrCode
    })?;
    Ok(dues)
}

/// What is due in a line that may be that of an array, or of the code, by its first word.
fn head_row(alloc: Global, number: u32, text: &[u8], line: u32) -> Result<Vec<Due>, NoMemory>
    ensures { IfOk result (λ dues. dues.items ≡ row_of_head number text.now line) }
{
    let bytes = line_bytes(text, line as usize);
    let above = line.saturating_sub(3) as usize;
    if is_array(bytes) {
        let arrays = text_after(text, 2);
        return named_row(
            alloc,
            number,
            above,
            room_after(arrays, above),
            is_named(arrays, above, word_at(bytes, 1)),
        );
    }
    if same_bytes(first_word(bytes), b"code") {
        return code_row(alloc, text_after(text, line as usize).len());
    }
    other_row(alloc, above)
}

/// How many words a machine has, of so many processors, words of room, slots and words of arrays.
#[tactic(auto, using(crate::proofs::SavedLemmas::pools_few))]
fn words_for(processors: u64, room: u64, slots: u64, words: u64) -> u64
    requires processors { processors ≤ 64 }
    requires room { room ≤ 4194304 }
    requires slots { slots ≤ 4096 }
    requires words { words ≤ 4194304 }
    ensures { result ≡ words_of processors room slots words }
{
    1 + 2 * processors + processors * (5 + slots + room) + words
}

/// How many words the sizes and the arrays of a text say; a size past its range counts as the end
/// of that.
pub(crate) fn words_due(text: &[u8]) -> u64
    ensures { result ≡ words_of_text text.now }
{
    let sizes = line_bytes(text, 2);
    let room = room_after(text_after(text, 2), arrays_of(text));
    words_for(
        value(word_at(sizes, 1)).min(u64::from(PROCESSOR_LIMIT)),
        value(word_at(sizes, 2)).min(MOST_SAVED_POOL_WORDS),
        value(word_at(sizes, 3)).min(MOST_SAVED_SLOTS),
        u64::from(WORD_LIMIT).saturating_sub(room),
    )
}

/// What is due in the line of the count of words.
fn count_row(alloc: Global, number: u32, count: u64) -> Result<Vec<Due>, NoMemory>
    ensures { IfOk result (λ dues. dues.items ≡ row_of_count number count) }
{
    let mut dues = Vec::new(alloc);
    dues.push(Due::This(Literal::Words))?;
    dues.push(Due::Number {
        least: count,
        most: count,
        ranged: number == 5,
    })?;
    Ok(dues)
}

/// How many words a line stands for.
fn times_in(line: &[u8]) -> u64
    ensures { result ≡ times_of_line line.now }
{
    match run_in(line) {
        None => 0,
        Some((_, times)) => times,
    }
}

/// What is left of a number of words once each of the first so many lines took its own.
#[tactic(auto, using(crate::proofs::RowLemmas::next_left, crate::proofs::RowLemmas::last_left, crate::proofs::RowLemmas::none_left))]
fn left_after(text: &[u8], count: u64, lines: usize) -> u64
    ensures { result ≡ left_by times_of_line count lines (split 10 text.now) }
{
    let mut left = text;
    let mut ahead = lines;
    let mut words = count;
    'lines: while let Some((line, rest)) = split_once(left, b'\n') {
        if ahead == 0 {
            return words;
        }
        words = words.saturating_sub(times_in(line));
        left = rest;
        ahead -= 1;
    }
    if ahead == 0 {
        return words;
    }
    words.saturating_sub(times_in(left))
}

/// How many words are left before a line.
fn runs_left(text: &[u8], line: u32) -> u64
    ensures { result ≡ left_in_text text.now line }
{
    let below = below_code(text);
    left_after(
        text_after(below, 1),
        count_of(line_bytes(below, 1)),
        (line as usize)
            .saturating_sub(code_line(text))
            .saturating_sub(code_lines(text))
            .saturating_sub(2),
    )
}

/// The word of a line, as it is spelled.
fn digits_in(line: &[u8]) -> &[u8]
    ensures { result.now ≡ digits_of line.now }
{
    first_piece(line, b'*')
}

/// A word before which so many are left; the line above may have the same.
fn run_due(number: u32, left: u64, is_same: bool) -> Due
    ensures { result ≡ due_of_run number left is_same }
{
    if left == 0 {
        return Due::EndOfText;
    }
    if is_same {
        Due::OtherRun { left }
    } else {
        Due::Run {
            left,
            ranged: number == 2,
        }
    }
}

/// What is due in the line of a word.
fn run_row(alloc: Global, number: u32, text: &[u8], line: u32) -> Result<Vec<Due>, NoMemory>
    ensures { IfOk result (λ dues. dues.items ≡ row_of_run number text.now line) }
{
    let word = digits_in(line_bytes(text, line as usize));
    let above = digits_in(line_bytes(text, line.saturating_sub(1) as usize));
    let mut dues = Vec::new(alloc);
    dues.push(run_due(number, runs_left(text, line), same_bytes(word, above)))?;
    Ok(dues)
}

/// What is due in the first line of a saved text.
fn version_row(alloc: Global) -> Result<Vec<Due>, NoMemory>
    ensures { IfOk result (λ dues. dues.items ≡ row_of_version) }
{
    let mut dues = Vec::new(alloc);
    dues.push(Due::This(Literal::Saved))?;
    dues.push(Due::This(Literal::One))?;
    Ok(dues)
}

/// What is due in a line of a saved text that is refused by this number.
pub(crate) fn saved_row(
    alloc: Global,
    number: u32,
    text: &[u8],
    line: u32,
) -> Result<Vec<Due>, NoMemory>
    ensures { IfOk result (λ dues. dues.items ≡ row_of_saved number text.now line) }
{
    if line == 1 {
        return version_row(alloc);
    }
    if line == 2 {
        return sizes_row(alloc, number == 2, count_of(line_bytes(text, 2)));
    }
    if line as usize <= code_line(text) {
        return head_row(alloc, number, text, line);
    }
    if (line as usize).saturating_sub(code_line(text)) == code_lines(text) + 1 {
        return count_row(alloc, number, words_due(text));
    }
    run_row(alloc, number, text, line)
}
