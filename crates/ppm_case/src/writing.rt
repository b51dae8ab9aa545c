//! Writes cases.
ghost use Rattle.std.specs.Prelude.{◌≡◌, ◌∷◌, ◌++◌, map, IfOk, OnOk};
ghost use Rattle.std.specs.List.{flat_map};
ghost use Rattle.ppm_case.specs.Spelling.{spaced, array_line as line_of_array};
ghost use Rattle.ppm_listing.specs.Correct.{NumbersFit};
ghost use Rattle.ppm_case.specs.Text.{rows_of, row_text, written, case_text};

use crate::row::{Row, first_row};
use ppm_code::Code;
use ppm_listing::write_listing;
use ppm_pieces::push_number;
use ppm_words::{NamedArray, NoMemory};
use std::alloc::Global;

/// Appends the word of a row.
fn push_row(alloc: Global, text: &mut Vec<u8>, row: Row) -> Result<(), NoMemory>
    ensures { OnOk result (text.new.items ≡ text.old.items ++ row_text row) }
{
    let digits = row.number.to_string(alloc)?;
    text.extend_from_slice(digits.as_bytes())?;
    if row.times == 1 {
        return Ok(());
    }
    text.push(b'*')?;
    push_number(text, row.times)?;
    Ok(())
}

/// Appends a space and the word, for each of the rows of values.
fn push_rows(alloc: Global, text: &mut Vec<u8>, values: &[i64]) -> Result<(), NoMemory>
    ensures { OnOk result (text.new.items
        ≡ text.old.items ++ flat_map spaced (map row_text (rows_of values.now))) }
{
    let mut left = values;
    while let Some((row, rest)) = first_row(left) {
        text.push(b' ')?;
        push_row(alloc, text, row)?;
        left = rest;
    }
    Ok(())
}

/// Appends the line of an array.
fn push_array(alloc: Global, text: &mut Vec<u8>, array: &NamedArray) -> Result<(), NoMemory>
    ensures { OnOk result (text.new.items
        ≡ text.old.items ++ line_of_array (written array.now)) }
{
    let values = array.values.as_slice();
    text.extend_from_slice("array ".as_bytes())?;
    text.extend_from_slice(array.name.as_bytes())?;
    text.push(b' ')?;
    push_number(text, values.len() as u64)?;
    push_rows(alloc, text, values)?;
    text.push(b'\n')?;
    Ok(())
}

/// Appends the lines of arrays.
fn push_arrays(alloc: Global, text: &mut Vec<u8>, arrays: &[NamedArray]) -> Result<(), NoMemory>
    ensures { OnOk result (text.new.items
        ≡ text.old.items ++ flat_map (λ a. line_of_array (written a)) arrays.now) }
{
    let mut left = arrays;
    while let [array, rest @ ..] = left {
        push_array(alloc, text, array)?;
        left = rest;
    }
    Ok(())
}

/// The text of a code with its arrays. `Err` only where memory is refused, which is taken in
/// proportion to the text; all numbers of a code in memory fit 64 bits.
pub fn write_case(alloc: Global, code: &Code, input: &[NamedArray]) -> Result<Vec<u8>, NoMemory>
    ensures value { IfOk result (λ text. text.items ≡ case_text code.now input.now) }
    ensures fits { OnOk result (NumbersFit code.now) }
{
    let listing = write_listing(alloc, code)?;
    let mut text = Vec::new(alloc);
    push_arrays(alloc, &mut text, input)?;
    text.extend_from_slice(&listing)?;
    Ok(text)
}
