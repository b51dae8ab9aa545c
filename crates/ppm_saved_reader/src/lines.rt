//! The forms of the lines of a saved text.
ghost use Rattle.std.specs.Prelude.{◌≡◌, ◌^◌, ◌<◌, nat_lt, true, Some, None, MatchOption, length};
ghost use Rattle.std.specs.List.{list_all};
ghost use Rattle.ppm_words.specs.Names.{is_name_byte as name_byte};
ghost use Rattle.ppm_pieces.specs.Numbers.{is_numeral as numeral};
ghost use Rattle.ppm_pieces.specs.Pieces.{halves_of};
ghost use Rattle.ppm_saved_reader.specs.Lines.{behind_word as word_behind, number_in as number};
ghost use Rattle.ppm_saved_reader.specs.Lines.{count_in as count, three as three_sizes};
ghost use Rattle.ppm_saved_reader.specs.Lines.{sizes_in as sizes, last_two as two_behind};
ghost use Rattle.ppm_saved_reader.specs.Lines.{three_between, is_name as name, is_array_name as plain};
ghost use Rattle.ppm_saved_reader.specs.Lines.{named as named_len, name_and_len as name_len};
ghost use Rattle.ppm_saved_reader.specs.Lines.{array_in as array, word_in as word, times_in as times};
ghost use Rattle.ppm_saved_reader.specs.Lines.{run_in as run};

use ppm_pieces::{is_numeral, same_bytes, split_once, value};
use ppm_text::{is_letter_byte, keyword};
use ppm_words::NAME_LIMIT;

/// The sizes that a line says, of any size.
#[derive(Clone, Copy, Debug, PartialEq, Eq)]
pub struct Sizes {
    pub processors: u64,
    pub room: u64,
    pub slots: u64,
}

/// The largest word, in decimal.
const LAST_WORD: &[u8] = b"18446744073709551615";

/// What stands after a word and a space.
fn behind_word<'a>(word: &[u8], line: &'a [u8]) -> Option<&'a [u8]>
    ensures { MatchOption result
        (word_behind word.now line.now ≡ None)
        (λ rest. word_behind word.now line.now ≡ Some rest.now) }
{
    match split_once(line, b' ') {
        Some((front, rest)) => if same_bytes(front, word) {
            Some(rest)
        } else {
            None
        },
        None => None,
    }
}

/// The number that bytes spell; one past 2^64 - 1 stands as that.
fn number_in(bytes: &[u8]) -> Option<u64>
    ensures { result ≡ number bytes.now }
{
    if is_numeral(bytes) {
        Some(value(bytes))
    } else {
        None
    }
}

/// The number after a word.
pub(crate) fn count_in(word: &[u8], line: &[u8]) -> Option<u64>
    ensures { result ≡ count word.now line.now }
{
    match behind_word(word, line) {
        Some(bytes) => number_in(bytes),
        None => None,
    }
}

fn three(processors: Option<u64>, room: Option<u64>, slots: Option<u64>) -> Option<Sizes>
    ensures { result ≡ three_sizes processors room slots }
{
    let processors = processors?;
    let room = room?;
    let slots = slots?;
    Some(Sizes {
        processors,
        room,
        slots,
    })
}

/// The sizes of a first number, and of two numbers after it.
fn last_two(first: &[u8], rest: &[u8]) -> Option<Sizes>
    ensures { result ≡ two_behind first.now (halves_of 32 rest.now) }
{
    match split_once(rest, b' ') {
        Some((second, third)) => three(number_in(first), number_in(second), number_in(third)),
        None => None,
    }
}

/// The sizes of three numbers.
fn three_in(bytes: &[u8]) -> Option<Sizes>
    ensures { result ≡ three_between (halves_of 32 bytes.now) }
{
    match split_once(bytes, b' ') {
        Some((first, rest)) => last_two(first, rest),
        None => None,
    }
}

/// The sizes that a line says.
pub(crate) fn sizes_in(line: &[u8]) -> Option<Sizes>
    ensures { result ≡ sizes line.now }
{
    match behind_word(b"shape", line) {
        Some(bytes) => three_in(bytes),
        None => None,
    }
}

/// Whether all bytes may stand in a name.
fn are_name_bytes(bytes: &[u8]) -> bool
    ensures { result ≡ list_all name_byte bytes.now }
{
    let mut left = bytes;
    while let [byte, rest @ ..] = left {
        if !(is_letter_byte(*byte) || ppm_pieces::is_digit(*byte)) {
            return false;
        }
        left = rest;
    }
    true
}

/// Whether bytes are a name.
fn is_name(bytes: &[u8]) -> bool
    ensures { result ≡ name bytes.now }
{
    match bytes {
        [] => false,
        [first, rest @ ..] => {
            is_letter_byte(*first) && (are_name_bytes(rest) && rest.len() < NAME_LIMIT)
        }
    }
}

/// Whether bytes are a name that an array may have.
fn is_array_name(bytes: &[u8]) -> bool
    ensures { result ≡ plain bytes.now }
{
    is_name(bytes) && keyword(bytes).is_none()
}

/// A name with its length, if it may be one of an array.
fn named(name: &[u8], len: Option<u64>) -> Option<(&[u8], u64)>
    ensures { MatchOption result
        (named_len name.now len ≡ None)
        (λ p. named_len name.now len ≡ Some (p.0.now, p.1)) }
{
    match len {
        Some(len) => if is_array_name(name) {
            Some((name, len))
        } else {
            None
        },
        None => None,
    }
}

fn name_and_len(bytes: &[u8]) -> Option<(&[u8], u64)>
    ensures { MatchOption result
        (name_len (halves_of 32 bytes.now) ≡ None)
        (λ p. name_len (halves_of 32 bytes.now) ≡ Some (p.0.now, p.1)) }
{
    match split_once(bytes, b' ') {
        Some((name, len)) => named(name, number_in(len)),
        None => None,
    }
}

/// The array that a line says, by its name and its length.
pub(crate) fn array_in(line: &[u8]) -> Option<(&[u8], u64)>
    ensures { MatchOption result (array line.now ≡ None) (λ p. array line.now ≡ Some (p.0.now, p.1)) }
{
    match behind_word(b"array", line) {
        Some(bytes) => name_and_len(bytes),
        None => None,
    }
}

/// The word that digits spell; `None` where it has more than 64 bits.
fn word_in(digits: &[u8]) -> Option<u64>
    requires { numeral digits.now ≡ true }
    ensures { result ≡ word digits.now }
{
    let word = value(digits);
    if word < u64::MAX {
        return Some(word);
    }
    if same_bytes(digits, LAST_WORD) {
        Some(word)
    } else {
        None
    }
}

/// A word so many times, if that is twice or more.
fn times_in(digits: &[u8], number: Option<u64>) -> Option<(Option<u64>, u64)>
    requires { numeral digits.now ≡ true }
    ensures { result ≡ times digits.now number }
{
    match number {
        Some(times) => if 2 <= times {
            Some((word_in(digits), times))
        } else {
            None
        },
        None => None,
    }
}

/// The run that a line says: its word, if that has 64 bits, and how often it stands there.
pub fn run_in(line: &[u8]) -> Option<(Option<u64>, u64)>
    ensures { result ≡ run line.now }
{
    match split_once(line, b'*') {
        Some((digits, number)) => if is_numeral(digits) {
            times_in(digits, number_in(number))
        } else {
            None
        },
        None => if is_numeral(line) {
            Some((word_in(line), 1))
        } else {
            None
        },
    }
}
