//! The words of an array's line.
ghost use Rattle.std.specs.Prelude.{◌≡◌, ℕ, List, MatchOption};
ghost use Rattle.std.specs.Prelude.{if◌then◌else◌, Some, None};
ghost use Rattle.std.specs.List.{list_all};
ghost use Rattle.ppm_words.specs.Names.{is_name_byte as name_byte};
ghost use Rattle.ppm_pieces.specs.Numbers.{is_numeral as numeral, value as value_of};
ghost use Rattle.ppm_pieces.specs.Pieces.{split};
ghost use Rattle.ppm_case.specs.Spelling.{is_name as name, is_array_name as plain, run_in as run};
ghost use Rattle.ppm_case.specs.Spelling.{ends_word as word_ends, begins_array as array_begins};
ghost use Rattle.ppm_case.specs.Rules.{run_fits as fit};
ghost use Rattle.ppm_case.specs.Judged.{taken, judged, numbers_of, room_of, HasHead};

use crate::run::{Run, run_in};
use ppm_pieces::{behind, is_digit, is_numeral, same_bytes, split_once, value};
use ppm_text::{is_letter_byte, keyword};
use ppm_words::{NAME_LIMIT, WORD_LIMIT};

/// The word with which the line of an array begins.
const ARRAY: &[u8] = b"array";

/// Whether the bytes after a word end it.
fn ends_word(bytes: &[u8]) -> bool
    ensures { result ≡ word_ends bytes.now }
{
    match bytes {
        [] => true,
        [first, ..] => *first == b' ' || *first == b'\n',
    }
}

/// Whether a text begins with the word `array`.
pub(crate) fn begins_array(text: &[u8]) -> bool
    ensures { result ≡ array_begins text.now }
{
    if text.len() < ARRAY.len() {
        return false;
    }
    same_bytes(&text[..5], ARRAY) && ends_word(behind(text, 5))
}

/// Whether all bytes may stand in a name.
fn are_name_bytes(bytes: &[u8]) -> bool
    ensures { result ≡ list_all name_byte bytes.now }
{
    let mut left = bytes;
    while let [byte, rest @ ..] = left {
        if !(is_letter_byte(*byte) || is_digit(*byte)) {
            return false;
        }
        left = rest;
    }
    true
}

/// Whether bytes are a name.
fn is_name(bytes: &[u8]) -> bool
    ensures { result ≡ name bytes.now }
{
    match bytes {
        [] => false,
        [first, rest @ ..] => {
            is_letter_byte(*first) && (are_name_bytes(rest) && rest.len() < NAME_LIMIT)
        }
    }
}

/// Whether bytes are a name that an array may have.
pub fn is_array_name(bytes: &[u8]) -> bool
    ensures { result ≡ plain bytes.now }
{
    is_name(bytes) && keyword(bytes).is_none()
}

/// The name of an array's line, and what stands after it.
#[derive(Clone, Copy, Drop)]
pub(crate) struct Head<'a> {
    pub name: &'a [u8],
    pub numbers: &'a [u8],
}

/// The name and the numbers of a line that begins with the word `array`.
pub(crate) fn head_in(line: &[u8]) -> Option<Head<'_>>
    ensures { MatchOption result
        ((name numbers : List ℕ) → HasHead line.now name numbers → ⊥)
        (λ h. HasHead line.now h.name.now h.numbers.now) }
{
    let Some((word, rest)) = split_once(line, b' ') else {
        return None;
    };
    if !same_bytes(word, ARRAY) {
        return None;
    }
    let Some((name, numbers)) = split_once(rest, b' ') else {
        return None;
    };
    if !is_array_name(name) {
        return None;
    }
    Some(Head { name, numbers })
}

/// For how many values there is room, and whether all so far are in their ranges.
#[derive(Clone, Copy, Debug)]
pub struct Room {
    pub left: u64,
    pub fits: bool,
}

/// Whether a run is in its range, and there is room for it.
fn run_fits(room: u64, run: Run) -> bool
    ensures { result ≡ fit room run }
{
    run.number.is_some() && (1 <= run.times && run.times <= room)
}

/// The room that a word's values leave, if it says any.
fn take_word(room: Room, word: &[u8]) -> Option<Room>
    ensures { result ≡ taken room (run word.now) }
{
    match run_in(word) {
        Some(run) => Some(Room {
            left: room.left.saturating_sub(run.times),
            fits: room.fits && run_fits(room.left, run),
        }),
        None => None,
    }
}

/// Whether the values of words fit, if each word says one.
fn judge_values(room: Room, words: &[u8]) -> Option<bool>
    ensures { result ≡ judged room (split 32 words.now) }
{
    let mut room_left = room;
    let mut left = words;
    while let Some((word, rest)) = split_once(left, b' ') {
        let Some(next) = take_word(room_left, word) else {
            return None;
        };
        room_left = next;
        left = rest;
    }
    match take_word(room_left, left) {
        Some(last) => Some(last.fits),
        None => None,
    }
}

/// The length of an array, and whether all numbers of its line are in their ranges.
#[derive(Clone, Copy, Debug)]
pub struct Numbers {
    pub len: u64,
    pub fits: bool,
}

/// The length that a word says, and the room of such an array.
fn length_in(word: &[u8]) -> Option<Room>
    ensures { result ≡ (if numeral word.now then Some (room_of (value_of word.now)) else None) }
{
    if is_numeral(word) {
        let len = value(word);
        Some(Room {
            left: len,
            fits: len <= u64::from(WORD_LIMIT),
        })
    } else {
        None
    }
}

/// What the words after the name say, if they have their form.
pub(crate) fn numbers_in(words: &[u8]) -> Option<Numbers>
    ensures { result ≡ numbers_of (split 32 words.now) }
{
    match split_once(words, b' ') {
        Some((word, values)) => {
            let room = length_in(word)?;
            let fits = judge_values(room, values)?;
            Some(Numbers {
                len: room.left,
                fits,
            })
        }
        None => {
            let room = length_in(words)?;
            Some(Numbers {
                len: room.left,
                fits: room.fits,
            })
        }
    }
}
