//! Reads what stands in front of the words: the version, the sizes, the arrays and the code.
ghost use Rattle.std.specs.Prelude.{◌≡◌, ◌≤◌, ◌<◌, ◌+◌, ◌^◌, ℕ, nat_lt, List, [], None, length, take};
ghost use Rattle.std.specs.Prelude.{◌↔◌, IsTrue, IfOk, IfErr};
ghost use Rattle.std.specs.List.{list_all, sum};
ghost use Rattle.ppm_code.specs.Code.{IsCode};
ghost use Rattle.ppm_code.specs.Free.{IsFree};
ghost use Rattle.ppm_saved.specs.Names.{lengths_of};
ghost use Rattle.ppm_saved_reader.specs.Lines.{first_line, array_in as array};
ghost use Rattle.ppm_saved_reader.specs.Rules.{line_feeds as feeds};
ghost use Rattle.ppm_saved_reader.specs.Places.{Place, AtVersion, AtSizes, AtArrays, AtWords};
ghost use Rattle.ppm_saved_reader.specs.Places.{Goes, IsWrong, NamesArrays};
ghost use Rattle.ppm_saved_reader.specs.Correct.{IsRead, IsRefusal};

use crate::lines::{Sizes, array_in, count_in, sizes_in};
use crate::rules::{is_past, is_twice, sizes_fit};
use crate::saved_error::{Fault, SavedError};
use ppm_code::Code;
use ppm_listing_reader::{faults_tell_listings, read_listing};
use ppm_pieces::{behind, same_bytes, split_once};
use ppm_saved::NamedLength;
use ppm_war::{check, tidy};
use ppm_words::Name;
use std::alloc::Global;

/// The first line of a saved text, without its line feed.
const VERSION: &[u8] = b"saved 1";

/// The text after the version.
pub(crate) fn read_version(text: &[u8]) -> Result<&[u8], Fault>
    ensures ok { IfOk result (λ rest. Goes AtVersion text.now 1 AtSizes rest.now) }
    ensures err { IfErr result (IsWrong AtVersion text.now) }
{
    match split_once(text, b'\n') {
        Some((line, rest)) => if same_bytes(line, VERSION) {
            Ok(rest)
        } else {
            Err(Fault::NoSuchForm)
        },
        None => Err(Fault::NoSuchForm),
    }
}

/// The sizes, and the text after them.
pub(crate) fn read_sizes(text: &[u8]) -> Result<(Sizes, &[u8]), Fault>
    ensures ok { IfOk result (λ p. Goes AtSizes text.now 1 (AtArrays p.0 []) p.1.now) }
    ensures err { IfErr result (IsWrong AtSizes text.now) }
{
    match split_once(text, b'\n') {
        Some((line, rest)) => match sizes_in(line) {
            Some(sizes) => if sizes_fit(sizes) {
                Ok((sizes, rest))
            } else {
                Err(Fault::OutOfRange)
            },
            None => Err(Fault::NoSuchForm),
        },
        None => Err(Fault::NoSuchForm),
    }
}

/// Arrays that were read, how many words they have in all, and the text after them with its line.
#[derive(Drop)]
pub(crate) struct Arrays<'a> {
    pub arrays: Vec<NamedLength>,
    pub words: u64,
    pub rest: &'a [u8],
    pub line: u32,
}

/// Reads the lines of arrays, the first of which stands at a line.
pub(crate) fn read_arrays<'a>(
    alloc: Global,
    text: &'a [u8],
    line: u32,
) -> Result<Arrays<'a>, SavedError>
    requires { line + length text.now < 2 ^ 32 }
    ensures ok { (whole : List ℕ) (z : Sizes) → IsRead whole (AtArrays z []) line text.now
        → IfOk result (λ r. IsRead whole (AtArrays z r.arrays.items) r.line r.rest.now) }
    ensures none { IfOk result (λ r. first_line array r.rest.now ≡ None) }
    ensures words { IfOk result (λ r. r.words ≡ sum (lengths_of r.arrays.items)) }
    ensures bound { IfOk result (λ r. r.line + length r.rest.now < 2 ^ 32) }
    ensures err { (whole : List ℕ) (z : Sizes) → IsRead whole (AtArrays z []) line text.now
        → IfErr result (IsRefusal whole) }
{
    let mut arrays = Vec::new(alloc);
    let mut words: u64 = 0;
    let mut number = line;
    let mut left = text;
    while let Some((bytes, rest)) = split_once(left, b'\n') {
        let Some((name, len)) = array_in(bytes) else {
            return Ok(Arrays {
                arrays,
                words,
                rest: left,
                line: number,
            });
        };
        if is_twice(&arrays, name) {
            return Err(SavedError::NoSuchForm(number));
        }
        if is_past(&arrays, words, len) {
            return Err(SavedError::OutOfRange(number));
        }
        arrays.push(NamedLength {
            name: Name::from_bytes(Vec::from_slice(alloc, name)?),
            len: len as u32,
        })?;
        words += len;
        number += 1;
        left = rest;
    }
    Ok(Arrays {
        arrays,
        words,
        rest: left,
        line: number,
    })
}

/// How many lines bytes have: one for each line feed.
fn line_feeds(bytes: &[u8]) -> u32
    requires { length bytes.now < 2 ^ 32 }
    ensures value { result ≡ feeds bytes.now }
    ensures bound { result ≤ length bytes.now }
{
    let mut count: u32 = 0;
    let mut left = bytes;
    while let [byte, rest @ ..] = left {
        if *byte == b'\n' {
            count += 1;
        }
        left = rest;
    }
    count
}

/// Whether all numbers are below a limit.
fn are_below(numbers: &[u32], limit: usize) -> bool
    ensures { result ≡ list_all (λ number. nat_lt number limit) numbers.now }
{
    let mut left = numbers;
    while let [number, rest @ ..] = left {
        if !((*number as usize) < limit) {
            return false;
        }
        left = rest;
    }
    true
}

/// Whether the root of a code names none but so many arrays.
fn names_arrays(code: &Code, arrays: usize) -> bool
    ensures exactly { IsTrue result ↔ NamesArrays arrays code.now }
    ensures code { IsCode code.now }
{
    are_below(code.parts().arrays.as_slice(), arrays)
}

/// Whether a code has no conflict.
fn is_free(code: &Code) -> bool
    ensures { IsTrue result ↔ IsFree code.now }
{
    match check(code) {
        Ok(_) => true,
        Err(_) => false,
    }
}

/// The first n bytes.
fn front(bytes: &[u8], n: usize) -> &[u8]
    requires { n ≤ length bytes.now }
    ensures { result.now ≡ take n bytes.now }
{
    &bytes[..n]
}

/// A code that was read, and the text after it with its line.
#[derive(Drop)]
pub(crate) struct Coded<'a> {
    pub code: Code,
    pub rest: &'a [u8],
    pub line: u32,
}

/// Reads the code after so many arrays, the line of which stands at a line.
pub(crate) fn read_code<'a>(
    alloc: Global,
    text: &'a [u8],
    arrays: &[NamedLength],
    line: u32,
) -> Result<Coded<'a>, SavedError>
    requires none { first_line array text.now ≡ None }
    requires bound { line + length text.now < 2 ^ 32 }
    ensures ok { (whole : List ℕ) (z : Sizes) → IsRead whole (AtArrays z arrays.now) line text.now
        → IfOk result (λ r. IsRead whole (AtWords z arrays.now r.code) r.line r.rest.now) }
    ensures bound { IfOk result (λ r. r.line + length r.rest.now < 2 ^ 32) }
    ensures err { (whole : List ℕ) (z : Sizes) → IsRead whole (AtArrays z arrays.now) line text.now
        → IfErr result (IsRefusal whole) }
{
    let Some((bytes, rest)) = split_once(text, b'\n') else {
        return Err(SavedError::NoSuchForm(line));
    };
    let Some(count) = count_in(b"code", bytes) else {
        return Err(SavedError::NoSuchForm(line));
    };
    if (rest.len() as u64) < count {
        return Err(SavedError::NoSuchForm(line));
    }
    let listing = front(rest, count as usize);
    let code = match read_listing(alloc, listing) {
        Ok(code) => code,
        Err(error) => {
            // a listing with such a fault is the listing of no code
            faults_tell_listings();
            return Err(SavedError::for_listing(line, error));
        }
    };
    if !names_arrays(&code, arrays.len()) {
        return Err(SavedError::BadListing(line));
    }
    if !is_free(&code) {
        return Err(SavedError::BadCode(line));
    }
    if !tidy(&code) {
        return Err(SavedError::BadCode(line));
    }
    Ok(Coded {
        code,
        rest: behind(rest, count as usize),
        line: line + 1 + line_feeds(listing),
    })
}
