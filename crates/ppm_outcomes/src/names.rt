//! The names of arrays, and the arrays that the words of a table have for them.
ghost use Rattle.std.specs.Prelude.{◌≡◌, IfOk};
ghost use Rattle.ppm_words.specs.Inputs.{IsInput};
ghost use Rattle.ppm_loading.specs.Says.{arrays_from};
ghost use Rattle.ppm_saved.specs.Names.{AreNames, lengths_of};
ghost use Rattle.ppm_outcomes.specs.Resumes.{named};
ghost use Rattle.ppm_outcomes.specs.Stops.{names_of as names_in};

use ppm_loading::to_values;
use ppm_saved::{NamedLength, Names};
use ppm_table::Closed;
use ppm_words::{Items, NamedArray, NoMemory};
use std::alloc::Global;

/// Arrays of these names, with the values that the words of a table have for them.
pub fn arrays_of_names(
    alloc: Global,
    closed: &Closed,
    names: &[NamedLength],
) -> Result<Items<NamedArray>, NoMemory>
    requires lengths { closed.now.array_lengths ≡ lengths_of names.now }
    ensures { IfOk result (λ arrays. arrays
        ≡ arrays_from closed.now.shape closed.now.array_lengths closed.now.words 0 (named names.now)) }
{
    let mut arrays = Vec::new(alloc);
    let mut number = 0;
    let mut left = names;
    while let [array, rest @ ..] = left {
        let name = array.name.try_clone(alloc)?;
        let words = closed.array(alloc, number)?;
        let values = to_values(alloc, words.as_slice())?;
        arrays.push(NamedArray {
            name,
            values: Items::from_vec(values),
        })?;
        number += 1;
        left = rest;
    }
    Ok(Items::from_vec(arrays))
}

/// The arrays without their values. `Err` only where memory is refused.
pub fn names_of(alloc: Global, arrays: &[NamedArray]) -> Result<Names, NoMemory>
    requires input { IsInput arrays.now }
    requires names { AreNames (names_in arrays.now) }
    ensures { IfOk result (λ names. names ≡ names_in arrays.now) }
{
    let mut named = Vec::new(alloc);
    let mut left = arrays;
    while let [array, rest @ ..] = left {
        let name = array.name.try_clone(alloc)?;
        let len = array.values.as_slice().len() as u32;
        named.push(NamedLength { name, len })?;
        left = rest;
    }
    Ok(Names::from_vec(named))
}
