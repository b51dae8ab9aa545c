//! The lines of a case above its listing.
ghost use Rattle.std.specs.Prelude.{◌≡◌, ◌++◌, IfOk, OnOk, option_map};
ghost use Rattle.ppm_pieces.specs.Pieces.{split};
ghost use Rattle.ppm_case.specs.Rules.{times_of};
ghost use Rattle.ppm_case.specs.Spelling.{run_in as value_in};
ghost use Rattle.ppm_notes.specs.Rows.{arrays_in, is_array as is_array_line};
ghost use Rattle.ppm_notes.specs.Rows.{array_row as row_of_array, case_row as row_of_case};
ghost use Rattle.ppm_notes.specs.Rows.{full_row as row_of_full, indices, indices_behind};
ghost use Rattle.ppm_notes.specs.Rows.{is_named_in, length_in as length_of, name_due as due_of_name};
ghost use Rattle.ppm_notes.specs.Rows.{room_in, root_row as row_of_root, values, values_behind};

use crate::due::{Due, Literal};
use crate::words::{after_words, first_word, word_at};
use ppm_case::run_in;
use ppm_explain::line_bytes;
use ppm_pieces::{same_bytes, split_once, value};
use ppm_words::{ARRAY_LIMIT, NoMemory, WORD_LIMIT};
use std::alloc::Global;

/// Whether a line is that of an array.
pub(crate) fn is_array(line: &[u8]) -> bool
    ensures { result ≡ is_array_line line.now }
{
    same_bytes(first_word(line), b"array")
}

/// How many lines of arrays stand in front of a text.
#[tactic(auto, using(crate::proofs::LineLemmas::one_more, crate::proofs::LineLemmas::no_more, crate::proofs::LineLemmas::last_one, crate::proofs::LineLemmas::few))]
pub(crate) fn arrays_above(text: &[u8]) -> usize
    ensures { result ≡ arrays_in (split 10 text.now) }
{
    let mut left = text;
    let mut count = 0;
    'lines: while let Some((line, rest)) = split_once(left, b'\n') {
        if !is_array(line) {
            return count;
        }
        count += 1;
        left = rest;
    }
    if is_array(left) { count + 1 } else { count }
}

/// Whether one of the first so many lines, each that of an array, has this name.
#[tactic(auto, using(crate::proofs::RowLemmas::named_here, crate::proofs::RowLemmas::named_later, crate::proofs::RowLemmas::named_last, crate::proofs::RowLemmas::none_named))]
pub(crate) fn is_named(text: &[u8], lines: usize, name: &[u8]) -> bool
    ensures { result ≡ is_named_in lines (split 10 text.now) name.now }
{
    let mut left = text;
    let mut ahead = lines;
    'lines: while let Some((line, rest)) = split_once(left, b'\n') {
        if ahead == 0 {
            return false;
        }
        if same_bytes(word_at(line, 1), name) {
            return true;
        }
        left = rest;
        ahead -= 1;
    }
    if ahead == 0 {
        return false;
    }
    same_bytes(word_at(left, 1), name)
}

/// The length in the line of an array.
fn length_in(line: &[u8]) -> u64
    ensures { result ≡ length_of line.now }
{
    value(word_at(line, 2))
}

/// How many words of arrays are left after so many lines of arrays.
#[tactic(auto, using(crate::proofs::RowLemmas::next_left, crate::proofs::RowLemmas::last_left, crate::proofs::RowLemmas::none_left))]
pub(crate) fn room_after(text: &[u8], lines: usize) -> u64
    ensures { result ≡ room_in lines (split 10 text.now) }
{
    let mut left = text;
    let mut ahead = lines;
    let mut room = u64::from(WORD_LIMIT);
    'lines: while let Some((line, rest)) = split_once(left, b'\n') {
        if ahead == 0 {
            return room;
        }
        room = room.saturating_sub(length_in(line));
        left = rest;
        ahead -= 1;
    }
    if ahead == 0 {
        return room;
    }
    room.saturating_sub(length_in(left))
}

/// The name of an array, where another array may have it.
pub(crate) fn name_due(is_twice: bool) -> Due
    ensures { result ≡ due_of_name is_twice }
{
    if is_twice { Due::OtherName } else { Due::Name }
}

/// How many values a word stands for.
fn times_in(word: &[u8]) -> u64
    ensures { result ≡ times_of (value_in word.now) }
{
    match run_in(word) {
        None => 0,
        Some(run) => run.times,
    }
}

/// Appends a value for each word, and one more, where there is room for so many.
fn push_values(dues: &mut Vec<Due>, ranged: bool, room: u64, words: &[u8]) -> Result<(), NoMemory>
    ensures { OnOk result (dues.new.items ≡ dues.old.items ++ values ranged room (split 32 words.now)) }
{
    let mut left = words;
    let mut room_left = room;
    'words: while let Some((word, rest)) = split_once(left, b' ') {
        dues.push(Due::Value {
            room: room_left,
            ranged,
        })?;
        room_left = room_left.saturating_sub(times_in(word));
        left = rest;
    }
    dues.push(Due::Value {
        room: room_left,
        ranged,
    })?;
    dues.push(Due::Value {
        room: room_left.saturating_sub(times_in(left)),
        ranged,
    })?;
    Ok(())
}

/// Appends what is due after the length of an array.
fn push_values_behind(
    dues: &mut Vec<Due>,
    ranged: bool,
    room: u64,
    rest: Option<&[u8]>,
) -> Result<(), NoMemory>
    ensures { OnOk result (dues.new.items
        ≡ dues.old.items ++ values_behind ranged room (option_map (λ r. r.now) rest.entry)) }
{
    match rest {
        Some(words) => push_values(dues, ranged, room, words),
        None => {
            dues.push(Due::Value { room, ranged })?;
            Ok(())
        }
    }
}

/// What is due in the line of an array: whether its numbers are to be in their ranges, and its name
/// one of its own; and how long it may be.
fn array_row(
    alloc: Global,
    ranged: bool,
    is_twice: bool,
    most: u64,
    bound: u64,
    line: &[u8],
) -> Result<Vec<Due>, NoMemory>
    ensures { IfOk result (λ dues. dues.items ≡ row_of_array ranged is_twice most bound line.now) }
{
    let mut dues = Vec::new(alloc);
    dues.push(Due::This(Literal::Array))?;
    dues.push(name_due(is_twice))?;
    dues.push(Due::Length { most, bound })?;
    push_values_behind(&mut dues, ranged, length_in(line), after_words(line, 3))?;
    Ok(dues)
}

/// Appends the number of an array for each word, and one more, where there are so many arrays.
fn push_indices(dues: &mut Vec<Due>, count: u64, words: &[u8]) -> Result<(), NoMemory>
    ensures { OnOk result (dues.new.items ≡ dues.old.items ++ indices count (split 32 words.now)) }
{
    let mut left = words;
    'words: while let Some((_, rest)) = split_once(left, b' ') {
        dues.push(Due::Index { count })?;
        left = rest;
    }
    dues.push(Due::Index { count })?;
    dues.push(Due::Index { count })?;
    Ok(())
}

/// Appends what is due after the procedure of the root.
fn push_indices_behind(dues: &mut Vec<Due>, count: u64, rest: Option<&[u8]>) -> Result<(), NoMemory>
    ensures { OnOk result (dues.new.items
        ≡ dues.old.items ++ indices_behind count (option_map (λ r. r.now) rest.entry)) }
{
    match rest {
        Some(words) => push_indices(dues, count, words),
        None => {
            dues.push(Due::Index { count })?;
            Ok(())
        }
    }
}

/// What is due in the line of the root below so many arrays.
fn root_row(alloc: Global, count: u64, line: &[u8]) -> Result<Vec<Due>, NoMemory>
    ensures { IfOk result (λ dues. dues.items ≡ row_of_root count line.now) }
{
    let mut dues = Vec::new(alloc);
    dues.push(Due::This(Literal::Root))?;
    dues.push(Due::Number {
        least: 0,
        most: u64::MAX,
        ranged: false,
    })?;
    push_indices_behind(&mut dues, count, after_words(line, 2))?;
    Ok(dues)
}

/// What is due in the line of an array that is one too many, or has too many words.
fn full_row(alloc: Global, above: usize, room: u64, line: &[u8]) -> Result<Vec<Due>, NoMemory>
    ensures { IfOk result (λ dues. dues.items ≡ row_of_full above room line.now) }
{
    if above < ARRAY_LIMIT {
        return array_row(alloc, false, false, room, room, line);
    }
    let mut dues = Vec::new(alloc);
    dues.push(Due::This(Literal::Ppm))?;
    Ok(dues)
}

/// What is due in a line of a case that is refused by this number.
pub(crate) fn case_row(
    alloc: Global,
    number: u32,
    text: &[u8],
    line: u32,
) -> Result<Vec<Due>, NoMemory>
    ensures { IfOk result (λ dues. dues.items ≡ row_of_case number text.now line) }
{
    let bytes = line_bytes(text, line as usize);
    let above = line.saturating_sub(1) as usize;
    let room = room_after(text, above);
    if number == 1 {
        return array_row(alloc, false, false, room, u64::MAX, bytes);
    }
    if number == 2 {
        return array_row(alloc, true, false, room, u64::from(WORD_LIMIT), bytes);
    }
    if number == 3 {
        return array_row(alloc, false, true, room, u64::MAX, bytes);
    }
    if number == 4 {
        return full_row(alloc, above, room, bytes);
    }
    root_row(alloc, u64::from(line.saturating_sub(2)), bytes)
}
