//! Reads saved texts.
ghost use Rattle.std.specs.Prelude.{◌≡◌, ◌≤◌, true, [], IsSome, IfSome, IfOk, IfErr};
ghost use Rattle.ppm_words.specs.Limits.{word_limit};
ghost use Rattle.ppm_cells.specs.Shape.{HasSizes};
ghost use Rattle.ppm_saved.specs.Names.{lengths_of as lengths_in};
ghost use Rattle.ppm_saved_reader.specs.Rules.{sizes_fit as fit};
ghost use Rattle.ppm_saved_reader.specs.Places.{AtArrays};
ghost use Rattle.ppm_saved_reader.specs.Correct.{IsRead, IsRefusal, IsSavedText};

use crate::heading::{read_arrays, read_code, read_sizes, read_version};
use crate::lines::Sizes;
use crate::repeated::{read_count, read_runs};
use crate::saved_error::SavedError;
use ppm_cells::Shape;
use ppm_saved::{NamedLength, Names, Saved};
use ppm_words::{Items, NoMemory};
use std::alloc::Global;

/// The bytes of a saved text, at most.
pub const SAVED_LIMIT: usize = 671_088_640;

/// The lengths of arrays.
fn lengths_of(alloc: Global, arrays: &[NamedLength]) -> Result<Vec<u32>, NoMemory>
    ensures { IfOk result (λ lengths. lengths.items ≡ lengths_in arrays.now) }
{
    let mut lengths = Vec::new(alloc);
    let mut left = arrays;
    while let [array, rest @ ..] = left {
        lengths.push(array.len)?;
        left = rest;
    }
    Ok(lengths)
}

/// The shape of sizes that fit, with so many array words.
fn shape_of(sizes: Sizes, words: u64) -> Option<Shape>
    requires fit { fit sizes ≡ true }
    requires few { words ≤ word_limit }
    ensures some { IsSome result }
    ensures value { IfSome result (HasSizes sizes.processors sizes.room sizes.slots words) }
{
    Shape::new(
        sizes.processors as u32,
        sizes.room as u32,
        sizes.slots as u32,
        words as u32,
    )
}

/// The sizes of a text that is not too long, and the text after them.
fn read_front(text: &[u8]) -> Result<(Sizes, &[u8]), SavedError>
    ensures ok { IfOk result (λ p. IsRead text.now (AtArrays p.0 []) 3 p.1.now) }
    ensures err { IfErr result (IsRefusal text.now) }
{
    if text.len() > SAVED_LIMIT {
        return Err(SavedError::NoSuchForm(1));
    }
    let rest = match read_version(text) {
        Ok(rest) => rest,
        Err(fault) => return Err(fault.at(1)),
    };
    match read_sizes(rest) {
        Ok((sizes, rest)) => Ok((sizes, rest)),
        Err(fault) => Err(fault.at(2)),
    }
}

/// The state of a saved text. `Err` with the fault of its first wrong line, of the rules that it
/// breaks the one with the least number; or where memory is refused: none is taken but for the
/// code, the arrays and the words.
pub fn read_saved(alloc: Global, text: &[u8]) -> Result<Saved, SavedError>
    ensures ok { IfOk result (λ s. IsSavedText text.now s.shape s.names s.code s.words) }
    ensures err { IfErr result (IsRefusal text.now) }
{
    let (sizes, rest) = read_front(text)?;
    let arrays = read_arrays(alloc, rest, 3)?;
    let coded = read_code(alloc, arrays.rest, &arrays.arrays, arrays.line)?;
    let Some(shape) = shape_of(sizes, arrays.words) else {
        return Err(SavedError::OutOfRange(2));
    };
    let count = u64::from(shape.word_count());
    let behind = read_count(coded.rest, count, coded.line)?;
    let words = read_runs(alloc, behind, count, coded.line + 1)?;
    let lengths = lengths_of(alloc, &arrays.arrays)?;
    Ok(Saved {
        shape,
        names: Names::from_vec(arrays.arrays),
        lengths: Items::from_vec(lengths),
        code: coded.code,
        words: Items::from_vec(words),
    })
}
