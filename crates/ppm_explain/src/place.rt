//! Places of a text: lines and columns.
ghost use Rattle.std.specs.Prelude.{◌≡◌, ◌≤◌, ◌==◌, ◌++◌, OnOk, take, length};
ghost use Rattle.std.specs.List.{filter};
ghost use Rattle.ppm_pieces.specs.Pieces.{split};
ghost use Rattle.ppm_explain.specs.Places.{line_of, column_of, line_bytes as bytes_of_line};
ghost use Rattle.ppm_explain.specs.Places.{is_last_line as is_last, line_text, mark_text};
ghost use Rattle.ppm_explain.specs.Places.{marked_text, place_text, shown_text, spot_text};
ghost use Rattle.ppm_explain.specs.Places.{under as byte_under, last_of};

use crate::words::push_word;
use ppm_pieces::{push_number, split_once};
use ppm_words::NoMemory;

/// The first so many items, or all where there are no more.
#[tactic(auto, using(std::proofs::lemmas::List::take_all))]
fn front(items: &[u8], count: usize) -> &[u8]
    ensures { result.now ≡ take count items.now }
{
    if count < items.len() {
        &items[..count]
    } else {
        items
    }
}

/// How many line feeds there are.
#[tactic(auto, using(crate::proofs::PlaceLemmas::feeds_few))]
fn line_feeds(bytes: &[u8]) -> usize
    ensures count { result ≡ length (filter (λ b. b == 10) bytes.now) }
    ensures few { result ≤ length bytes.now }
{
    bytes.iter().filter(|byte| **byte == b'\n').count()
}

/// The bytes after the last line feed, or all.
#[tactic(auto, using(crate::proofs::PlaceLemmas::last_kept, crate::proofs::PlaceLemmas::last_one))]
fn last_line(bytes: &[u8]) -> &[u8]
    ensures { result.now ≡ last_of (split 10 bytes.now) }
{
    let mut left = bytes;
    'lines: while let Some((_, rest)) = split_once(left, b'\n') {
        left = rest;
    }
    left
}

/// The line of a place, from 1.
fn line_at(text: &[u8], place: u32) -> usize
    ensures { result ≡ line_of text.now place }
{
    line_feeds(front(text, place as usize)) + 1
}

/// The column of a place, from 1, in bytes.
fn column_at(text: &[u8], place: u32) -> usize
    ensures { result ≡ column_of text.now place }
{
    last_line(front(text, place as usize)).len() + 1
}

/// The bytes of a line, which counts from 1; none where the text has no such line.
#[tactic(auto, using(crate::proofs::PlaceLemmas::line_next, crate::proofs::PlaceLemmas::line_here, crate::proofs::PlaceLemmas::line_none))]
pub fn line_bytes(text: &[u8], line: usize) -> &[u8]
    ensures { result.now ≡ bytes_of_line text.now line }
{
    let mut left = text;
    let mut ahead = line.saturating_sub(1);
    'lines: while let Some((bytes, rest)) = split_once(left, b'\n') {
        if ahead == 0 {
            return bytes;
        }
        left = rest;
        ahead -= 1;
    }
    if ahead == 0 { left } else { front(left, 0) }
}

/// Whether a line of a text is the last one, after which no line feed stands.
pub fn is_last_line(text: &[u8], line: usize) -> bool
    ensures { result ≡ is_last text.now line }
{
    line_feeds(text) + 1 == line
}

/// What stands under a byte in front of a mark.
fn under(byte: u8) -> u8
    ensures { result ≡ byte_under byte }
{
    if byte == b'\t' { b'\t' } else { b' ' }
}

/// Appends a mark under a column of a line, from 1.
pub fn push_mark(text: &mut Vec<u8>, line: &[u8], column: usize) -> Result<(), NoMemory>
    ensures { OnOk result (text.new.items ≡ text.old.items ++ mark_text line.now column) }
{
    push_word(text, "  ")?;
    let before = front(line, column.saturating_sub(1));
    for byte in before {
        text.push(under(*byte))?;
    }
    push_word(text, "^\n")
}

/// Appends the bytes of a line.
pub fn push_shown(text: &mut Vec<u8>, line: &[u8]) -> Result<(), NoMemory>
    ensures { OnOk result (text.new.items ≡ text.old.items ++ shown_text line.now) }
{
    push_word(text, "  ")?;
    text.extend_from_slice(line)?;
    push_word(text, "\n")
}

/// Appends the line and the column of a place.
fn push_place(text: &mut Vec<u8>, line: usize, column: usize) -> Result<(), NoMemory>
    ensures { OnOk result (text.new.items ≡ text.old.items ++ place_text line column) }
{
    push_word(text, "line ")?;
    push_number(text, line as u64)?;
    push_word(text, " column ")?;
    push_number(text, column as u64)?;
    push_word(text, "\n")
}

/// Appends the line and the column of a place of a text.
pub(crate) fn push_place_of(text: &mut Vec<u8>, source: &[u8], place: u32) -> Result<(), NoMemory>
    ensures { OnOk result (text.new.items ≡ text.old.items
        ++ place_text (line_of source.now place) (column_of source.now place)) }
{
    push_place(text, line_at(source, place), column_at(source, place))
}

/// Appends a column of a line, which both count from 1, that line, and a mark under the column.
pub fn push_marked(
    text: &mut Vec<u8>,
    line: usize,
    bytes: &[u8],
    column: usize,
) -> Result<(), NoMemory>
    ensures { OnOk result (text.new.items ≡ text.old.items ++ marked_text line bytes.now column) }
{
    push_place(text, line, column)?;
    push_shown(text, bytes)?;
    push_mark(text, bytes, column)
}

/// Appends a place of a text: its line and column, that line, and a mark under the place.
pub fn push_spot(text: &mut Vec<u8>, source: &[u8], place: u32) -> Result<(), NoMemory>
    ensures { OnOk result (text.new.items ≡ text.old.items ++ spot_text source.now place) }
{
    let line = line_at(source, place);
    let bytes = line_bytes(source, line);
    push_marked(text, line, bytes, column_at(source, place))
}

/// Appends a line of a text, with its number from 1.
pub fn push_line(text: &mut Vec<u8>, source: &[u8], line: u32) -> Result<(), NoMemory>
    ensures { OnOk result (text.new.items
        ≡ text.old.items ++ line_text line ++ shown_text (bytes_of_line source.now line)) }
{
    push_word(text, "line ")?;
    push_number(text, u64::from(line))?;
    push_word(text, "\n")?;
    push_shown(text, line_bytes(source, line as usize))
}
