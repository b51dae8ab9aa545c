//! Reads the lines of arrays.
ghost use Rattle.std.specs.Prelude.{◌≡◌, ◌≤◌, ℕ, List, Some, true, false, IfOk};
ghost use Rattle.std.specs.Prelude.{IfErr, length};
ghost use Rattle.ppm_words.specs.Limits.{word_limit};
ghost use Rattle.ppm_words.specs.Inputs.{IsInput, value_count};
ghost use Rattle.ppm_pieces.specs.Pieces.{halves_of};
ghost use Rattle.ppm_case.specs.Spelling.{Written, array_of, begins_array as array_begins};
ghost use Rattle.ppm_case.specs.Rules.{is_named as named, is_past as past, case_limit};
ghost use Rattle.ppm_case.specs.Judged.{IsWordsOf, CanStand, IsNext, AreRead};
ghost use Rattle.ppm_case.specs.Faults.{IsBadLine, IsArrayRefusal};

use crate::case_error::{CaseError, InputFault};
use crate::line::{begins_array, head_in, numbers_in};
use crate::values::values_of;
use ppm_pieces::{same_bytes, split_once};
use ppm_words::{ARRAY_LIMIT, Items, Name, NamedArray, NoMemory, WORD_LIMIT};
use std::alloc::Global;

/// Whether an array has this name.
fn is_named(arrays: &[NamedArray], name: &[u8]) -> bool
    ensures { result ≡ named arrays.now name.now }
{
    let mut left = arrays;
    while let [array, rest @ ..] = left {
        if same_bytes(array.name.as_bytes(), name) {
            return true;
        }
        left = rest;
    }
    false
}

/// Whether an array of so many words is one too many after others of so many words in all, or one
/// with too many words.
fn is_past(arrays: &[NamedArray], words: u64, len: u64) -> bool
    requires words { words ≡ value_count arrays.now }
    requires few { words ≤ word_limit }
    ensures { result ≡ past arrays.now len }
{
    if arrays.len() >= ARRAY_LIMIT {
        return true;
    }
    if len > u64::from(WORD_LIMIT) {
        return true;
    }
    words + len > u64::from(WORD_LIMIT)
}

/// An array that may stand after others, by its line.
#[derive(Clone, Copy, Drop)]
struct Next<'a> {
    name: &'a [u8],
    numbers: &'a [u8],
    len: u64,
}

/// The array of a line after others of so many words in all, or what is wrong with the line.
fn judge<'a>(arrays: &[NamedArray], words: u64, line: &'a [u8]) -> Result<Next<'a>, InputFault>
    requires words { words ≡ value_count arrays.now }
    requires few { words ≤ word_limit }
    ensures ok { IfOk result (λ n. IsNext arrays.now line.now n.name.now n.numbers.now n.len) }
    ensures err { (text rest : List ℕ) → halves_of 10 text ≡ Some (line.now, rest)
        → array_begins text ≡ true → IfErr result (IsBadLine arrays.now text) }
{
    let Some(head) = head_in(line) else {
        return Err(InputFault::NoSuchForm);
    };
    let Some(numbers) = numbers_in(head.numbers) else {
        return Err(InputFault::NoSuchForm);
    };
    if !numbers.fits {
        return Err(InputFault::OutOfRange);
    }
    if is_named(arrays, head.name) {
        return Err(InputFault::NamedTwice);
    }
    if is_past(arrays, words, numbers.len) {
        return Err(InputFault::TooMuch);
    }
    Ok(Next {
        name: head.name,
        numbers: head.numbers,
        len: numbers.len,
    })
}

/// The array of a name, and the words after it.
fn make_array(alloc: Global, name: &[u8], numbers: &[u8], len: u64) -> Result<NamedArray, NoMemory>
    requires { CanStand name.now numbers.now len }
    ensures { (a : Written) → IsWordsOf a name.now numbers.now len
        → IfOk result (λ array. array ≡ array_of a) }
{
    let values = values_of(alloc, numbers, len)?;
    Ok(NamedArray {
        name: Name::from_bytes(Vec::from_slice(alloc, name)?),
        values: Items::from_vec(values),
    })
}

/// Arrays that were read, in how many lines, and the text after them.
#[derive(Drop)]
pub struct Arrays<'a> {
    pub arrays: Vec<NamedArray>,
    pub lines: u32,
    pub rest: &'a [u8],
}

/// Reads the lines of arrays with which a text begins, of at most 536,870,912 bytes. `Err` with the
/// first line that is bad, from 1, or where memory is refused.
pub fn read_arrays<'a>(alloc: Global, text: &'a [u8]) -> Result<Arrays<'a>, CaseError>
    requires { length text.now ≤ case_limit }
    ensures read { IfOk result (λ r. AreRead text.now r.arrays.items r.lines r.rest.now) }
    ensures input { IfOk result (λ r. IsInput r.arrays.items) }
    ensures none { IfOk result (λ r. array_begins r.rest.now ≡ false) }
    ensures err { IfErr result (IsArrayRefusal text.now) }
{
    let mut arrays = Vec::new(alloc);
    let mut words: u64 = 0;
    let mut lines: u32 = 0;
    let mut left = text;
    while begins_array(left) {
        let Some((line, rest)) = split_once(left, b'\n') else {
            return Err(CaseError::of_input(InputFault::NoSuchForm, lines + 1));
        };
        let next = match judge(&arrays, words, line) {
            Ok(next) => next,
            Err(fault) => return Err(CaseError::of_input(fault, lines + 1)),
        };
        let array = make_array(alloc, next.name, next.numbers, next.len)?;
        arrays.push(array)?;
        words += next.len;
        lines += 1;
        left = rest;
    }
    Ok(Arrays {
        arrays,
        lines,
        rest: left,
    })
}
