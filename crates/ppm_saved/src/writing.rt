//! Writes saved texts.
ghost use Rattle.std.specs.Prelude.{◌≡◌, ◌++◌, length, IfOk, OnOk};
ghost use Rattle.std.specs.List.{flat_map, AllByRecursion};
ghost use Rattle.ppm_cells.specs.declared.shape.Takeover.TheVariants.{ByPlaces};
ghost use Rattle.ppm_saved.specs.Correct.{IsWord, LengthFits, RunFits, StateFits};
ghost use Rattle.ppm_saved.specs.Runs.{runs_of};
ghost use Rattle.ppm_saved.specs.Text.{shape_line, array_line as line_of_array, run_line};
ghost use Rattle.ppm_saved.specs.Text.{times_text, head_text, code_text, words_text, saved_text};

use crate::names::{NamedLength, Names};
use crate::numbers::push_numbers;
use crate::run::{Run, first_run};
use ppm_cells::Shape;
use ppm_code::Code;
use ppm_listing::write_listing;
use ppm_pieces::push_number;
use ppm_words::NoMemory;
use std::alloc::Global;

/// A number as one of 64 bits.
fn wide(number: u32) -> u64
    ensures value { result ≡ number }
    ensures fits { IsWord number }
{
    u64::from(number)
}

/// Appends the line of the sizes.
fn push_shape(text: &mut Vec<u8>, shape: Shape) -> Result<(), NoMemory>
    ensures { OnOk result (text.new.items
        ≡ text.old.items ++ shape_line shape.processors shape.room shape.slots) }
{
    text.extend_from_slice("shape".as_bytes())?;
    push_numbers(
        text,
        &[wide(shape.processors), wide(shape.room), wide(shape.slots)],
    )?;
    Ok(())
}

/// Appends the line of an array.
fn push_array(text: &mut Vec<u8>, array: &NamedLength) -> Result<(), NoMemory>
    ensures text { OnOk result (text.new.items ≡ text.old.items ++ line_of_array array.now) }
    ensures fits { OnOk result (LengthFits array.now) }
{
    text.extend_from_slice("array ".as_bytes())?;
    text.extend_from_slice(array.name.as_bytes())?;
    push_numbers(text, &[wide(array.len)])?;
    Ok(())
}

/// Appends the lines of arrays.
fn push_arrays(text: &mut Vec<u8>, arrays: &[NamedLength]) -> Result<(), NoMemory>
    ensures text { OnOk result (text.new.items
        ≡ text.old.items ++ flat_map line_of_array arrays.now) }
    ensures fits { OnOk result (AllByRecursion LengthFits arrays.now) }
{
    let mut left = arrays;
    while let [array, rest @ ..] = left {
        push_array(text, array)?;
        left = rest;
    }
    Ok(())
}

/// The lines in front of the code.
pub(crate) fn head(alloc: Global, shape: Shape, arrays: &[NamedLength]) -> Result<Vec<u8>, NoMemory>
    ensures text { IfOk result (λ text. text.items ≡ head_text shape arrays.now) }
    ensures fits { OnOk result (AllByRecursion LengthFits arrays.now) }
{
    let mut text = Vec::new(alloc);
    text.extend_from_slice("saved 1\n".as_bytes())?;
    push_shape(&mut text, shape)?;
    push_arrays(&mut text, arrays)?;
    Ok(text)
}

/// Appends a listing after its line.
pub(crate) fn push_code(text: &mut Vec<u8>, listing: &[u8]) -> Result<(), NoMemory>
    ensures text { OnOk result (text.new.items ≡ text.old.items ++ code_text listing.now) }
    ensures fits { IsWord (length listing.now) }
{
    text.extend_from_slice("code".as_bytes())?;
    push_numbers(text, &[listing.len() as u64])?;
    text.extend_from_slice(listing)?;
    Ok(())
}

/// Appends how often a word stands in a row, if it is not once.
fn push_times(text: &mut Vec<u8>, times: u64) -> Result<(), NoMemory>
    ensures { OnOk result (text.new.items ≡ text.old.items ++ times_text times) }
{
    if times == 1 {
        return Ok(());
    }
    text.push(b'*')?;
    push_number(text, times)?;
    Ok(())
}

/// Appends the line of a run.
fn push_run(text: &mut Vec<u8>, run: Run) -> Result<(), NoMemory>
    ensures text { OnOk result (text.new.items ≡ text.old.items ++ run_line run) }
    ensures fits { RunFits run }
{
    push_number(text, run.word)?;
    push_times(text, run.times)?;
    text.push(b'\n')?;
    Ok(())
}

/// Appends the lines of words, one for each of their longest runs.
fn push_runs(text: &mut Vec<u8>, words: &[u64]) -> Result<(), NoMemory>
    ensures text { OnOk result (text.new.items
        ≡ text.old.items ++ flat_map run_line (runs_of words.now)) }
    ensures fits { OnOk result (AllByRecursion RunFits (runs_of words.now)) }
{
    let mut left = words;
    while let Some((run, rest)) = first_run(left) {
        push_run(text, run)?;
        left = rest;
    }
    Ok(())
}

/// Appends words after their line.
pub(crate) fn push_words(text: &mut Vec<u8>, words: &[u64]) -> Result<(), NoMemory>
    ensures text { OnOk result (text.new.items ≡ text.old.items ++ words_text words.now) }
    ensures fits { OnOk result (AllByRecursion RunFits (runs_of words.now)) }
    ensures count { IsWord (length words.now) }
{
    text.extend_from_slice("words".as_bytes())?;
    push_numbers(text, &[words.len() as u64])?;
    push_runs(text, words)?;
    Ok(())
}

/// The saved text of a state: its code, the sizes of its machine, its arrays and its words by their
/// addresses. Only a machine that takes over by places has one: `renew` lets fresh processors go on
/// by places, and from words of a run by entries they may run one strand twice. `Err` only where
/// memory is refused, which is taken in proportion to the text. All numbers of the state fit 64
/// bits, so no other state has this text (`saved_texts_tell_states`).
pub fn write_saved(
    alloc: Global,
    code: &Code,
    shape: Shape,
    names: &Names,
    words: &[u64],
) -> Result<Vec<u8>, NoMemory>
    requires by_places { shape.takeover ≡ ByPlaces }
    ensures text { IfOk result (λ text. text.items
        ≡ saved_text shape names.now code.now words.now) }
    ensures fits { OnOk result (StateFits names.now code.now words.now) }
{
    let listing = write_listing(alloc, code)?;
    let arrays = names.as_slice();
    let mut text = head(alloc, shape, arrays)?;
    push_code(&mut text, &listing)?;
    push_words(&mut text, words)?;
    Ok(text)
}
